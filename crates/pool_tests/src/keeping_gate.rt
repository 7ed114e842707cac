use graph_law::{Graph, Opener};
use search_pool::Gate;
use std::alloc::AllocError;
use std::sync::atomic::{AtomicU32, AtomicU64, Ordering};

/// A gate that records for which nodes below 64 it was called.
#[derive(Drop)]
pub(crate) struct KeepingGate {
    told: AtomicU64,
}

impl KeepingGate {
    pub(crate) fn new() -> KeepingGate {
        KeepingGate {
            told: AtomicU64::new(0),
        }
    }

    fn knows(&self, node: u32) -> bool {
        self.told.load(Ordering::SeqCst) & bit_of(node) != 0
    }
}

impl Gate for KeepingGate {
    fn opened(&self, node: u32) {
        self.told.fetch_or(bit_of(node), Ordering::SeqCst);
    }
}

fn bit_of(node: u32) -> u64 {
    1u64.wrapping_shl(node)
}

/// A graph that counts the nodes that are expanded before a gate was called for them.
#[derive(Drop)]
pub(crate) struct Watched<'a> {
    pub(crate) graph: &'a Graph,
    pub(crate) gate: &'a KeepingGate,
    pub(crate) untold: AtomicU32,
}

impl<'a> Opener for Watched<'a> {
    ghost lists = { λ watched. watched.graph.now.lists };

    fn count(&self) -> u32 {
        self.graph.count()
    }

    fn expand(&self, node: u32, out: &mut Vec<u32>) -> Result<(), AllocError> {
        if !self.gate.knows(node) {
            self.untold.fetch_add(1, Ordering::SeqCst);
        }
        self.graph.expand(node, out)
    }
}
