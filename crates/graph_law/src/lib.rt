//! What a call graph means: reachability, strongly connected components (SCCs; in short groups),
//! their heights, and reverse topological orders (legal orders).
//!
//! An `Opener` is an implicit graph: it stands for one fixed list of successor lists, and expands
//! one node at a time. `Graph` is one that has its lists in memory, and rejects exactly what is no
//! graph.
//!
//! The definitions hold for any relation of calls: which nodes reach each other, which SCCs they
//! form, the height of each SCC, and which orders of them have callees first. The height is the
//! length of the longest path to a sink among the SCCs. `classes_slow` and `heights_slow` compute
//! these definitions directly, for tests.
//!
//! Nothing here knows where a graph comes from or how it is searched.
#![tactic(auto)]

mod call_order;
mod classes;
mod graph;
mod heights;
pub mod laws;
mod opener;
mod places;
mod reach;
mod stamping;

pub use classes::{classes_slow, is_recursive};
pub use graph::{Graph, MOST_NODES};
pub use heights::heights_slow;
pub use opener::Opener;
pub use places::group_places;
pub use stamping::stamp;
