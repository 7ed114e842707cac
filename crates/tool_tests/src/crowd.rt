//! A gate for three expansions.

use group_tool::Gate;
use std::sync::atomic::{AtomicBool, AtomicU32, Ordering};
use std::{hint, thread};

/// For how many expansions it waits.
const COUNT: u32 = 3;

/// How many iterations an expansion waits for the others.
const LOOPS: u32 = 50_000_000;

/// A gate that holds each expansion until three have begun, or for a number of iterations.
#[derive(Drop)]
pub struct CrowdGate {
    entered: AtomicU32,
    full: AtomicBool,
    met: AtomicU32,
}

impl CrowdGate {
    pub fn new() -> CrowdGate {
        CrowdGate {
            entered: AtomicU32::new(0),
            full: AtomicBool::new(false),
            met: AtomicU32::new(0),
        }
    }

    /// How many expansions have seen all three begin while they were held.
    pub fn met(&self) -> u32 {
        self.met.load(Ordering::SeqCst)
    }

    /// Waits until all three have begun. False if they hadn't within this many iterations.
    fn fills(&self) -> bool {
        for turn in 0..LOOPS {
            if self.full.load(Ordering::SeqCst) {
                return true;
            }
            if turn % 1024 == 0 {
                thread::yield_now();
            }
            hint::spin_loop();
        }
        false
    }
}

impl Gate for CrowdGate {
    fn opened(&self, _node: u32) {
        if self.entered.fetch_add(1, Ordering::SeqCst) == COUNT - 1 {
            self.full.store(true, Ordering::SeqCst);
        }
        if self.fills() {
            self.met.fetch_add(1, Ordering::SeqCst);
        }
    }
}
