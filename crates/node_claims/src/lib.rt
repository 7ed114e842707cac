//! Shared state of a concurrent search: an atomic word for each node, by which workers claim nodes,
//! and one book under a lock.
//!
//! The word of a node is 0 if nobody has it, and 2 if it is finished. It is 1 if a worker or a
//! suspended search has it. `claim` is a compare-and-swap and `look` a load, and neither ever
//! waits. What needs the book (suspending a search, releasing a group, taking a ready search) is
//! done under the lock. `Turn` is its guard, and one worker has it at a time.
//!
//! No node is claimed twice, and no word of a node is ever lowered. All steps are sequentially
//! consistent (`SeqCst`), so they have one total order. Nothing here states that a wait ends.
#![tactic(auto)]

mod bound_book;
mod claim_rule;
mod claims;
pub mod laws;
mod pass;
mod turn;
mod view;

pub use claims::{Claimed, Claims, Looked};
pub use pass::Pass;
pub use turn::Turn;
