//! A stream of finished SCCs (groups), for an analysis that runs while the search does.
//!
//! `drive_feed` searches with workers in parallel, and passes each group to a consumer (`Taker`)
//! soon after it is released, callees first. A feeder copies the released groups from the book, and
//! pushes them on a bounded queue, the line, with an end mark after the last. The consumer pops
//! them from there.
//!
//! The invariant of the line: what was pushed is what was popped and then what the line holds. The
//! groups that were pushed are in reverse topological order, and nothing is after the end mark.
//! `LevelTaker` is a consumer that computes the levels of groups.
//!
//! It doesn't see how workers search, nor what nodes stand for.
#![tactic(auto)]

mod consumer;
mod copy;
mod drive;
mod ends;
mod feeder;
mod level_taker;
mod line;
mod parts;
mod search;
mod taker;
mod trail;

pub use drive::drive_feed;
pub use level_taker::LevelTaker;
pub use line::Hand;
pub use taker::Taker;
pub use trail::Trail;
