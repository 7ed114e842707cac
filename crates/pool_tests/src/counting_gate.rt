use search_pool::Gate;
use std::hint;
use std::sync::atomic::{AtomicU32, Ordering};

/// A gate that counts the nodes for which it is called, and takes a number of iterations for each.
#[derive(Drop)]
pub(crate) struct CountingGate {
    loops: u32,
    told: AtomicU32,
}

impl CountingGate {
    pub(crate) fn new(loops: u32) -> CountingGate {
        CountingGate {
            loops,
            told: AtomicU32::new(0),
        }
    }

    /// How many nodes it was called for.
    pub(crate) fn told_count(&self) -> u32 {
        self.told.load(Ordering::SeqCst)
    }
}

impl Gate for CountingGate {
    fn opened(&self, _node: u32) {
        for _loop in 0..self.loops {
            hint::spin_loop();
        }
        self.told.fetch_add(1, Ordering::SeqCst);
    }
}
