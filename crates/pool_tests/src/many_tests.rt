use crate::agree::{expect_groups, expect_groups_at_once};
use crate::counting_gate::CountingGate;
use crate::expect::expect;
use crate::graphs::{Shape, graph_with};
use crate::star_gate::StarGate;
use crate::starved::Starved;
use node_claims::Claims;
use search_pool::{Ended, OpenGate, run_all, split_for};
use std::test::Fail;

// Enough nodes that several roots are handed out at once: a worker that gets more roots begins
// anew.
const STAR: u32 = 3_000;

// A few microseconds.
const SLOW: u32 = 200;

/// Most nodes are in one group, which all workers reach: searches that wait at once, workers that
/// hold back then, and searches that are moved on top of another one. If nodes are dear to expand,
/// which the first worker shows, none holds back.
#[test]
fn workers_find_a_giant_group(rt: HostRuntime) -> Result<(), Fail> {
    let alloc = rt.alloc();
    let graph = graph_with(alloc, Shape::Tangle, 10_000)?;
    let gate = CountingGate::new(SLOW);
    for jobs in [2, 4, 16] {
        expect_groups_at_once(&rt, alloc, &graph, jobs, &OpenGate)?;
        expect_groups(&rt, alloc, &graph, jobs, &gate)?;
    }
    Ok(())
}

/// Expanding the node that all others call, and that calls these, takes long. Meanwhile the other
/// worker expands half of them. The rest may be roots that were handed out to the worker that
/// waits.
#[test]
fn a_worker_goes_on_beside_a_giant_group_that_is_dear_to_expand(
    rt: HostRuntime,
) -> Result<(), Fail> {
    let alloc = rt.alloc();
    let graph = graph_with(alloc, Shape::Star, STAR)?;
    let gate = StarGate::new(STAR / 2, 100_000_000);
    expect_groups(&rt, alloc, &graph, 2, &gate)?;
    expect(&rt, gate.came(), "half of the nodes are expanded");
    Ok(())
}

/// It expands a few nodes and then waits, since no worker has shown that nodes are dear to expand.
#[test]
fn a_worker_holds_back_beside_a_giant_group(rt: HostRuntime) -> Result<(), Fail> {
    let alloc = rt.alloc();
    let graph = graph_with(alloc, Shape::Star, STAR)?;
    let gate = StarGate::new(STAR / 2, 1_000_000);
    expect_groups_at_once(&rt, alloc, &graph, 2, &gate)?;
    expect(&rt, !gate.came(), "fewer are expanded");
    Ok(())
}

/// There is no memory to expand the node that all others wait for. The other worker holds back
/// then, and sees it.
#[test]
fn a_worker_that_holds_back_sees_a_failure(rt: HostRuntime) -> Result<(), Fail> {
    let alloc = rt.alloc();
    let graph = graph_with(alloc, Shape::Star, STAR)?;
    let starved = Starved {
        graph: &graph,
        node: 0,
    };
    let gate = StarGate::new(STAR / 2, 20_000_000);
    let (claims, pass) = Claims::make(alloc, &starved, graph.roots())?;
    let passes = split_for(alloc, &claims, pass, 2)?;
    for ended in &run_all(&rt, alloc, &claims, passes, &starved, &gate)? {
        expect(&rt, ran_out(ended), "memory has run out");
    }
    Ok(())
}

fn ran_out(ended: &Ended) -> bool {
    matches!(ended, Ended::NoMemory { .. })
}

/// How many nodes without calls there are, and how many workers search them, run after run.
///
/// The roots are handed out in stretches, of which the last is a short one. In the first row many
/// more workers than processors take the lock in turn without end. If releasing it wakes nobody,
/// they stay asleep, and the run doesn't end.
static LOOSE: [(u32, &[u32]); 8] = [
    (4_000, &[16, 16, 16, 16, 16]),
    (1, &[1, 2, 5]),
    (255, &[1, 2, 5]),
    (256, &[1, 2, 5]),
    (257, &[1, 2, 5]),
    (511, &[1, 2, 5]),
    (513, &[1, 2, 5]),
    (1_025, &[1, 2, 5]),
];

#[test]
fn each_root_of_each_stretch_is_released(rt: HostRuntime) -> Result<(), Fail> {
    let alloc = rt.alloc();
    for (count, runs) in &LOOSE {
        let graph = graph_with(alloc, Shape::Loose, *count)?;
        for jobs in *runs {
            expect_groups_at_once(&rt, alloc, &graph, (*jobs).max(1), &OpenGate)?;
        }
    }
    Ok(())
}
