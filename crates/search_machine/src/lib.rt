//! Many searches of one graph that take turns on one thread: a deterministic model of the
//! concurrent search.
//!
//! A state has places (slots for one search each), the suspended searches, the claimed nodes, the
//! roots to come and the released groups. One step of a place is an event.
//!
//! The theorems hold for every graph. Each event keeps the invariant of a state (`IsGoodState`), by
//! which its groups are SCCs in reverse topological order that the roots reach. If no place can
//! act, every root is released.
//!
//! A `Machine` holds such a state, and lets a place act. `drive_many` lets the places act by a
//! schedule that a seed determines, until none can. It uses no threads, and states nothing about
//! them.
#![tactic(auto)]

pub mod laws;
mod machine;
mod schedule;
mod step;

pub use machine::Machine;
pub use schedule::drive_many;
pub use step::Step;
