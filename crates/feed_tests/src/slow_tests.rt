use crate::graphs::graph_of;
use crate::keeper::Keeper;
use group_feed::drive_feed;
use search_pool::OpenGate;
use std::sync::atomic::AtomicU64;
use std::test::Fail;

#[test]
fn many_workers_wait_for_no_slow_taker(rt: HostRuntime) -> Result<(), Fail> {
    let alloc = rt.alloc();
    let graph = graph_of(alloc, &[&[1], &[0], &[], &[2], &[3, 1], &[4]], &[5, 0])?;
    let taken = AtomicU64::new(0);
    let mut keeper = Keeper::new(alloc, &graph, &taken, 5, 1_000_000);
    let groups = drive_feed(
        &rt,
        alloc,
        &graph,
        graph.roots(),
        64,
        &OpenGate,
        &mut keeper,
    )?;
    assert_eq!(rt; groups.len(), 5);
    assert!(rt; groups == keeper.groups);
    Ok(())
}

#[test]
fn a_program_without_a_group_ends_at_once(rt: HostRuntime) -> Result<(), Fail> {
    let alloc = rt.alloc();
    let graph = graph_of(alloc, &[], &[])?;
    let taken = AtomicU64::new(0);
    let mut keeper = Keeper::new(alloc, &graph, &taken, 0, 0);
    let groups = drive_feed(&rt, alloc, &graph, graph.roots(), 4, &OpenGate, &mut keeper)?;
    assert_eq!(rt; groups.len(), 0);
    Ok(())
}
