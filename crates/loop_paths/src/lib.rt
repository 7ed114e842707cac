//! Shortest paths and cycles in a call graph, each the least of several.
//!
//! `shortest` shows why one node reaches another: the least path between them. `circuit` shows why
//! a node is in a recursive group: the least closed walk that returns to it. Of two lists of nodes
//! the shorter is less. Of two with the same length, the lesser node at their first difference
//! decides. So each result is unique, whatever the order of a node's successors.
//!
//! ```text
//! 0: [2, 1]   1: [3]   2: [3]   3: [0]
//! shortest from 0 to 3: 0 1 3        the cycle of 0: 0 1 3
//! ```
//!
//! A search is breadth-first, and expands each node at most once.
#![tactic(auto)]

mod breadth;
mod group_circuits;
mod inner;
pub mod laws;
mod paths;
mod tree;

pub use group_circuits::circuits;
pub use paths::{circuit, shortest};
