//! Suspended depth-first searches, each waiting for a node that another search has to finish.
//!
//! A `Blocked` keeps searches in slots (`place`). A suspended search is blocked if it waits for a
//! node, and ready otherwise. No node is on two of them, and the wait-for relation has no cycle. If
//! one more search would close a cycle, the searches on it are merged instead, since their nodes
//! may be one strongly connected component.
//!
//! A `Blocked` holds no graph and doesn't see which nodes are finished: the caller passes them to
//! `wake`.
#![tactic(auto)]

mod blocked;
mod suspended;
mod waiters;
mod way;
mod words;

pub use blocked::Blocked;
pub use suspended::Suspended;
