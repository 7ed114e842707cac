use crate::graphs::graph_of;
use crate::keeper::Keeper;
use crate::starved::Starved;
use group_feed::drive_feed;
use search_pool::OpenGate;
use std::sync::atomic::AtomicU64;
use std::test::Fail;

/// A chain of cycles, of which each calls the next: five groups with only one reverse topological
/// order.
const RINGS: [&[u32]; 7] = [&[1], &[0, 2], &[3], &[2, 4], &[5], &[6], &[]];

#[test]
fn ends_where_the_taker_finds_no_memory(rt: HostRuntime) -> Result<(), Fail> {
    let alloc = rt.alloc();
    let graph = graph_of(alloc, &RINGS, &[0])?;
    for room in [0, 2, 4] {
        let taken = AtomicU64::new(0);
        let mut keeper = Keeper::new(alloc, &graph, &taken, room, 0);
        let answer = drive_feed(&rt, alloc, &graph, graph.roots(), 3, &OpenGate, &mut keeper);
        assert!(rt; answer.is_err());
        assert_eq!(rt; keeper.groups.len(), room);
    }
    Ok(())
}

#[test]
fn ends_where_one_node_cannot_be_opened(rt: HostRuntime) -> Result<(), Fail> {
    let alloc = rt.alloc();
    let graph = graph_of(alloc, &RINGS, &[0])?;
    for node in 0..7 {
        let taken = AtomicU64::new(0);
        let starved = Starved {
            graph: &graph,
            node,
        };
        let mut keeper = Keeper::new(alloc, &graph, &taken, 9, 0);
        let answer = drive_feed(
            &rt,
            alloc,
            &starved,
            graph.roots(),
            2,
            &OpenGate,
            &mut keeper,
        );
        assert!(rt; answer.is_err());
    }
    Ok(())
}
