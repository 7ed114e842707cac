//! A graph in two arrays (compressed sparse rows): the lists of successors one after the other, and
//! where each begins.
//!
//! `FlatGraph` is an `Opener` of up to 4,294,967,295 nodes. `graph_of_edges` makes it of edges in
//! any order, of which equal ones count once. It counts where the list of each node goes, and sorts
//! each list.
//!
//! It knows no names and no texts.
#![tactic(auto)]

mod edge;
mod flat_graph;
mod spread;

pub use edge::Edge;
pub use flat_graph::{FlatGraph, graph_of_edges};
