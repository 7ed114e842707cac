use std::sync::Wait;
use std::sync::atomic::AtomicU64;
use std::thread;
use std::time::Duration;

// How often a worker that finds nothing yields before it sleeps.
const TRIES: u32 = 16;

/// Backs off: yields, or sleeps if that was done often enough. It sleeps longer each time, from ten
/// microseconds up to a millisecond. `waits` is how often it backed off before.
pub fn pause(rt: &impl Wait, waits: u32) {
    if waits < TRIES {
        thread::yield_now();
        return;
    }
    let micros = 10 * u64::from((waits - TRIES).min(99) + 1);
    AtomicU64::new(0).park_timeout(rt, 0, Duration::from_micros(micros));
}
