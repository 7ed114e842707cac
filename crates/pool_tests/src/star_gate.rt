use crate::waiting::comes_within;
use search_pool::Gate;
use std::sync::atomic::{AtomicBool, AtomicU32, Ordering};

/// A gate that holds the expansion of node 0 until a number of other nodes were expanded, or for a
/// number of iterations.
#[derive(Drop)]
pub(crate) struct StarGate {
    others: u32,
    loops: u32,
    told: AtomicU32,
    all: AtomicBool,
    came: AtomicBool,
}

impl StarGate {
    pub(crate) fn new(others: u32, loops: u32) -> StarGate {
        StarGate {
            others,
            loops,
            told: AtomicU32::new(0),
            all: AtomicBool::new(false),
            came: AtomicBool::new(false),
        }
    }

    /// Whether the other nodes were expanded while node 0 was held.
    pub(crate) fn came(&self) -> bool {
        self.came.load(Ordering::SeqCst)
    }
}

impl Gate for StarGate {
    fn opened(&self, node: u32) {
        if node == 0 {
            self.came
                .store(comes_within(&self.all, self.loops), Ordering::SeqCst);
            return;
        }
        if self.told.fetch_add(1, Ordering::SeqCst) >= self.others.saturating_sub(1) {
            self.all.store(true, Ordering::SeqCst);
        }
    }
}
