ghost use Rattle.std.specs.Prelude.{◌<◌, ◌≤◌};

use crate::expect::expect;
use graph_law::Graph;
use node_claims::Claims;
use search_pool::{Ended, Gate, drive_workers, run_all, split_for};
use search_stack::groups_plain;
use std::alloc::{AllocError, Global};
use std::process::Abort;
use std::sync::Wait;
use std::test::Fail;
use std::thread::Threads;

/// Expects that this many workers find the groups that one search finds.
pub(crate) fn expect_groups<R: Threads + Wait + Sync + Abort, G: Gate>(
    rt: &R,
    alloc: Global,
    graph: &Graph,
    jobs: u32,
    gate: &G,
) -> Result<(), AllocError>
    requires some { 0 < jobs }
    requires jobs { jobs ≤ 64 }
{
    let groups = drive_workers(rt, alloc, graph, graph.roots(), jobs, gate)?;
    expect_same(rt, alloc, graph, groups)
}

/// The same, for workers of which none holds back.
pub(crate) fn expect_groups_at_once<R: Threads + Wait + Sync + Abort, G: Gate>(
    rt: &R,
    alloc: Global,
    graph: &Graph,
    jobs: u32,
    gate: &G,
) -> Result<(), Fail>
    requires { 0 < jobs }
{
    let (claims, pass) = Claims::make(alloc, graph, graph.roots())?;
    let passes = split_for(alloc, &claims, pass, jobs)?;
    let mut ended = run_all(rt, alloc, &claims, passes, graph, gate)?;
    let Some(Ended::Finished { pass }) = ended.pop() else {
        return Err("a worker has not finished".into());
    };
    expect_same(rt, alloc, graph, claims.finish(rt, pass))?;
    Ok(())
}

/// Expects the groups that one search finds, in any order.
pub(crate) fn expect_same<R: Abort>(
    rt: &R,
    alloc: Global,
    graph: &Graph,
    mut groups: Vec<Vec<u32>>,
) -> Result<(), AllocError> {
    let mut expected = groups_plain(alloc, graph, graph.roots())?;
    let same = are_same(&mut groups, &mut expected)?;
    expect(rt, same, "the groups of one search");
    Ok(())
}

/// Whether these are the same groups as sets.
fn are_same(left: &mut Vec<Vec<u32>>, right: &mut Vec<Vec<u32>>) -> Result<bool, AllocError> {
    sort(left)?;
    sort(right)?;
    Ok(*left == *right)
}

/// Sorts the members of each group, and then the groups.
fn sort(groups: &mut Vec<Vec<u32>>) -> Result<(), AllocError> {
    for group in groups.iter_mut() {
        group.sort_unstable();
    }
    groups.sort()
}
