use graph_law::Graph;
use group_feed::Taker;
use std::alloc::{AllocError, Global};
use std::hint;
use std::sync::atomic::{AtomicU64, Ordering};

/// A taker that stores the groups that it takes, up to a number, and counts them. It takes a number
/// of iterations over each.
#[derive(Drop)]
pub(crate) struct Keeper<'a> {
    alloc: Global,
    graph: &'a Graph,
    taken: &'a AtomicU64,
    room: usize,
    loops: u32,
    pub(crate) groups: Vec<Vec<u32>>,
}

impl<'a> Keeper<'a> {
    ghost use Rattle.std.specs.Prelude.{◌≡◌, []};
    ghost use Rattle.graph_law.specs.Graph.{lists_of};

    /// A taker that has taken nothing.
    pub(crate) fn new(
        alloc: Global,
        graph: &'a Graph,
        taken: &'a AtomicU64,
        room: usize,
        loops: u32,
    ) -> Keeper<'a>
        ensures graph { result.graph.now ≡ graph.now }
        ensures groups { lists_of result.groups.items ≡ [] }
    {
        Keeper {
            alloc,
            graph,
            taken,
            room,
            loops,
            groups: Vec::new(alloc),
        }
    }
}

impl<'a> Taker for Keeper<'a> {
    ghost use Rattle.graph_law.specs.Graph.{lists_of};

    ghost lists = { λ keeper. keeper.graph.now.lists };

    ghost taken = { λ keeper. lists_of keeper.groups.items };

    fn take(&mut self, group: &[u32]) -> Result<(), AllocError> {
        if self.groups.len() >= self.room {
            return Err(AllocError);
        }
        for _ in 0..self.loops {
            hint::spin_loop();
        }
        self.groups.push(Vec::from_slice(self.alloc, group)?)?;
        self.taken.fetch_add(1, Ordering::SeqCst);
        Ok(())
    }
}
