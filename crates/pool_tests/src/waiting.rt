use std::sync::atomic::{AtomicBool, Ordering};
use std::{hint, thread};

// How many iterations a test waits for another thread.
const LOOPS: u32 = 50_000_000;

/// Waits until the flag is set. False if it wasn't within many iterations.
pub(crate) fn comes(flag: &AtomicBool) -> bool {
    comes_within(flag, LOOPS)
}

/// The same, within this many iterations.
pub(crate) fn comes_within(flag: &AtomicBool, loops: u32) -> bool {
    for turn in 0..loops {
        if flag.load(Ordering::SeqCst) {
            return true;
        }
        if turn % 1024 == 0 {
            thread::yield_now();
        }
        hint::spin_loop();
    }
    false
}
