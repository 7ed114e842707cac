ghost use Rattle.std.specs.Prelude.{◌<◌, ◌≤◌};

use crate::expect::expect_count;
use crate::graphs::graph_of;
use crate::keeping_gate::{KeepingGate, Watched};
use graph_law::Graph;
use search_pool::drive_workers;
use std::alloc::{AllocError, Global};
use std::process::Abort;
use std::sync::Wait;
use std::sync::atomic::{AtomicU32, Ordering};
use std::test::Fail;
use std::thread::Threads;

/// One search, and workers in parallel.
#[test]
fn a_gate_is_told_before_a_node_is_opened(rt: HostRuntime) -> Result<(), Fail> {
    let alloc = rt.alloc();
    let graph = graph_of(alloc, &[&[1], &[2], &[0], &[4], &[]], &[0, 3])?;
    for jobs in 1..3 {
        expect_announced(&rt, alloc, &graph, jobs)?;
    }
    Ok(())
}

/// Expects three groups, and that the gate was called for each node before it was expanded.
fn expect_announced<R: Threads + Wait + Sync + Abort>(
    rt: &R,
    alloc: Global,
    graph: &Graph,
    jobs: u32,
) -> Result<(), AllocError>
    requires some { 0 < jobs }
    requires jobs { jobs ≤ 64 }
{
    let gate = KeepingGate::new();
    let watched = Watched {
        graph,
        gate: &gate,
        untold: AtomicU32::new(0),
    };
    let groups = drive_workers(rt, alloc, &watched, graph.roots(), jobs, &gate)?;
    assert_eq!(rt; groups.len(), 3);
    expect_count(rt, watched.untold.load(Ordering::SeqCst), 0);
    Ok(())
}
