//! Workers that search one graph in parallel: each runs its own depth-first searches, over claims
//! on the nodes.
//!
//! `drive_workers` returns the SCCs that the roots reach in reverse topological order, with 1 to 64
//! threads. `work` is one worker, and `Gate` a callback by which tests steer the interleaving.
//!
//! The contracts hold for every interleaving, if the call returns. They don't state that it
//! returns, that workers run in parallel, or how many of them gain anything.
#![tactic(auto)]

mod crew;
mod edges;
mod ended;
mod gate;
mod pausing;
mod stopped;
mod worker;
mod workers;

pub use ended::Ended;
pub use gate::{Gate, MeetGate, OpenGate};
pub use pausing::pause;
pub use worker::work;
pub use workers::{drive_workers, run_all, split_for};
