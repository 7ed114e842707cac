ghost use Rattle.std.specs.Prelude.{◌≡◌};

use crate::waiting::comes;
use graph_law::{Graph, Opener};
use std::alloc::AllocError;
use std::sync::atomic::{AtomicBool, AtomicU32, Ordering};

/// A graph of which each expansion waits until a number of them have begun.
#[derive(Drop)]
pub(crate) struct Meeting<'a> {
    graph: &'a Graph,
    count: u32,
    begun: AtomicU32,
    all: AtomicBool,
    met: AtomicU32,
}

impl<'a> Meeting<'a> {
    pub(crate) fn new(graph: &'a Graph, count: u32) -> Meeting<'a>
        ensures { result.graph.now ≡ graph.now }
    {
        Meeting {
            graph,
            count,
            begun: AtomicU32::new(0),
            all: AtomicBool::new(false),
            met: AtomicU32::new(0),
        }
    }

    /// How many expansions have begun.
    pub(crate) fn begun_count(&self) -> u32 {
        self.begun.load(Ordering::SeqCst)
    }

    /// How many of them have seen that number begin.
    pub(crate) fn met_count(&self) -> u32 {
        self.met.load(Ordering::SeqCst)
    }
}

impl<'a> Opener for Meeting<'a> {
    ghost lists = { λ meeting. meeting.graph.now.lists };

    fn count(&self) -> u32 {
        self.graph.count()
    }

    fn expand(&self, node: u32, out: &mut Vec<u32>) -> Result<(), AllocError> {
        if self.begun.fetch_add(1, Ordering::SeqCst).wrapping_add(1) == self.count {
            self.all.store(true, Ordering::SeqCst);
        }
        if comes(&self.all) {
            self.met.fetch_add(1, Ordering::SeqCst);
        }
        self.graph.expand(node, out)
    }
}
