ghost use Rattle.std.specs.Prelude.{◌<◌, ◌≤◌};

use crate::expect::expect;
use crate::graphs::graph_of;
use crate::starved::Starved;
use search_pool::{Gate, MeetGate, OpenGate, drive_workers};
use search_stack::groups_plain;
use std::alloc::Global;
use std::process::Abort;
use std::sync::Wait;
use std::test::Fail;
use std::thread::Threads;

const LOOPS: u32 = 50_000_000;

// Successor lists, roots and how many nodes there are, of which the roots reach each. In the second
// graph the searches of both workers wait for each other.
static GRAPHS: [(&[&[u32]], &[u32], u32); 2] = [
    (&[&[1], &[2, 0], &[], &[0]], &[3, 3], 4),
    (&[&[1], &[2], &[0]], &[0, 1, 2], 3),
];

/// The same if the others hold back while the first worker finds no memory.
#[test]
fn fails_if_one_node_cannot_be_expanded(rt: HostRuntime) -> Result<(), Fail> {
    let alloc = rt.alloc();
    for (lists, roots, count) in &GRAPHS {
        let graph = graph_of(alloc, lists, roots)?;
        for node in 0..*count {
            let starved = Starved {
                graph: &graph,
                node,
            };
            expect_failures(&rt, alloc, &starved);
        }
    }
    Ok(())
}

/// Expects that one search fails, and one, two and four workers.
fn expect_failures<R: Threads + Wait + Sync + Abort>(rt: &R, alloc: Global, starved: &Starved) {
    let found = groups_plain(alloc, starved, starved.graph.roots());
    expect(rt, found.is_err(), "one search fails");
    for jobs in [1, 2, 4] {
        expect_failure(rt, alloc, starved, jobs, &OpenGate);
    }
}

/// Expects that this many workers fail.
fn expect_failure<R: Threads + Wait + Sync + Abort, G: Gate>(
    rt: &R,
    alloc: Global,
    starved: &Starved,
    jobs: u32,
    gate: &G,
)
    requires some { 0 < jobs }
    requires jobs { jobs ≤ 64 }
{
    let found = drive_workers(rt, alloc, starved, starved.graph.roots(), jobs, gate);
    expect(rt, found.is_err(), "workers fail");
}

/// Two workers expand nodes of a cycle of roots at once, so that one finds no memory while the
/// other has a search.
#[test]
fn fails_if_a_node_cannot_be_expanded_beside_another(rt: HostRuntime) -> Result<(), Fail> {
    let alloc = rt.alloc();
    let graph = graph_of(alloc, &[&[1], &[2], &[0]], &[0, 1, 2])?;
    for node in 0..3 {
        let starved = Starved {
            graph: &graph,
            node,
        };
        let gate = MeetGate::new(LOOPS);
        expect_failure(&rt, alloc, &starved, 2, &gate);
        expect(&rt, gate.met(), "two nodes are expanded at once");
    }
    Ok(())
}
