use crate::graphs::graph_of;
use crate::keeper::Keeper;
use group_feed::drive_feed;
use search_pool::Gate;
use std::sync::atomic::{AtomicBool, AtomicU64, Ordering};
use std::test::Fail;
use std::{hint, thread};

/// How often the gate looks whether a group was taken.
const TURNS: u32 = 50_000_000;

/// A gate that holds the expansion of node 1 until a group was taken, or until it has looked often
/// enough. It records whether one was taken by then.
#[derive(Drop)]
struct TakenGate<'a> {
    taken: &'a AtomicU64,
    came: AtomicBool,
}

impl<'a> Gate for TakenGate<'a> {
    fn opened(&self, node: u32) {
        if node != 1 {
            return;
        }
        for turn in 0..TURNS {
            if self.taken.load(Ordering::SeqCst) != 0 {
                self.came.store(true, Ordering::SeqCst);
                return;
            }
            if turn % 1_024 == 0 {
                thread::yield_now();
            }
            hint::spin_loop();
        }
    }
}

#[test]
fn a_group_is_taken_while_the_search_goes_on(rt: HostRuntime) -> Result<(), Fail> {
    let alloc = rt.alloc();
    let graph = graph_of(alloc, &[&[], &[]], &[0, 1])?;
    let taken = AtomicU64::new(0);
    let gate = TakenGate {
        taken: &taken,
        came: AtomicBool::new(false),
    };
    let mut keeper = Keeper::new(alloc, &graph, &taken, 2, 0);
    let groups = drive_feed(&rt, alloc, &graph, graph.roots(), 2, &gate, &mut keeper)?;
    assert!(rt; gate.came.load(Ordering::SeqCst));
    assert_eq!(rt; groups.len(), 2);
    assert!(rt; groups == keeper.groups);
    Ok(())
}
