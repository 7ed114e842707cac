use crate::agree::expect_groups;
use crate::expect::expect;
use crate::graphs::{Shape, draw, graph_of, graph_with};
use search_pool::{Gate, MeetGate, OpenGate};
use std::alloc::Global;
use std::hint;
use std::process::Abort;
use std::sync::Wait;
use std::test::Fail;
use std::thread::Threads;

// How many iterations the first expansion waits for one of another worker.
const LOOPS: u32 = 50_000_000;

// Successor lists and roots.
static GRAPHS: [(&[&[u32]], &[u32]); 8] = [
    (&[&[1], &[0]], &[0]),
    (&[&[1], &[2], &[0]], &[0, 1, 2]),
    (&[&[1], &[0, 2], &[3], &[2, 0]], &[3, 0]),
    (&[&[1], &[2], &[3], &[]], &[0, 2]),
    (&[&[1, 2], &[3], &[3], &[]], &[0]),
    (&[&[0]], &[0]),
    (&[&[4], &[4], &[0], &[], &[1]], &[3, 2, 1, 0]),
    (&[&[1], &[0], &[]], &[2, 0, 2, 1, 0]),
];

#[test]
fn workers_find_the_groups_of_one_search(rt: HostRuntime) -> Result<(), Fail> {
    let alloc = rt.alloc();
    for (lists, roots) in &GRAPHS {
        let graph = graph_of(alloc, lists, roots)?;
        for jobs in 1..9 {
            expect_groups(&rt, alloc, &graph, jobs, &OpenGate)?;
        }
    }
    Ok(())
}

/// A gate that holds the first expansion until another worker expands a node too. Then it holds
/// each for a moment, so that the searches of workers wait for each other.
#[derive(Drop)]
struct MixingGate {
    meeting: MeetGate,
    seed: u32,
}

impl Gate for MixingGate {
    fn opened(&self, node: u32) {
        self.meeting.opened(node);
        for _turn in 0..draw(self.seed, node) % 64 {
            hint::spin_loop();
        }
    }
}

/// The workers of each graph expand nodes at once.
#[test]
fn workers_that_meet_find_the_groups_of_random_graphs(rt: HostRuntime) -> Result<(), Fail> {
    for seed in 0..1_000 {
        expect_mixed(&rt, rt.alloc(), seed)?;
    }
    Ok(())
}

fn expect_mixed<R: Threads + Wait + Sync + Abort>(
    rt: &R,
    alloc: Global,
    seed: u32,
) -> Result<(), Fail> {
    let graph = graph_with(alloc, Shape::Random(seed), 2 + seed % 11)?;
    let gate = MixingGate {
        meeting: MeetGate::new(LOOPS),
        seed,
    };
    expect_groups(rt, alloc, &graph, 2 + seed % 3, &gate)?;
    expect(rt, gate.meeting.met(), "two nodes are expanded at once");
    Ok(())
}
