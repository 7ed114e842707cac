//! Tarjan's algorithm for strongly connected components (SCCs) in an iterative form: a depth-first
//! search as a value that can be suspended between any two calls.
//!
//! A `Search` is a stack of nodes, cut into segments by frames. It uses no recursion, so it never
//! overflows the machine's stack. Each call states exactly how it changes the stack. It keeps the
//! search well-formed for every graph, roots and finished nodes for which it was (`IsGood`).
//!
//! `groups_plain` runs such a search for each root that wasn't reached before. It returns the SCCs
//! that the roots reach in reverse topological order, members ascending. It isn't cut and waits for
//! nothing, so it is kept in arrays (`ArraySearch`), which contracts see as the same stack.
//!
//! A search that can't continue may be suspended, with the node that it waits for. If two searches
//! wait for each other, `cut` and `append` move the upper part of one on top of the other.
//!
//! A search holds no graph. Its caller hands it each node with its successors.
#![tactic(auto)]

mod array_search;
mod cut;
mod frame;
mod node_hasher;
mod opening;
mod plain_search;
mod search;
mod transfer;

pub use cut::Cut;
pub use frame::Frame;
pub use opening::Opening;
pub use plain_search::groups_plain;
pub use search::Search;
