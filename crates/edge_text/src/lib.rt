//! Graphs as texts of edges: what a text says, and reading it.
//!
//! A line is a caller and its callees, which are words between blanks, tabs, vertical tabs, form
//! feeds and carriage returns. A line with one word is a node without callees. A line that begins
//! with `#` is a comment. Names are any other bytes.
//!
//! `read_edges` returns the different names of a text in the order of their bytes, and the graph
//! whose nodes are their indices. `first_fault` returns where a name is too long. For texts of
//! another form `Reader` takes names and calls one after another, and `graph_of_read` returns their
//! graph.
//!
//! It knows no files and no command line.
#![tactic(auto)]

mod fault;
mod laws;
mod limits;
mod line;
mod reader;
mod reading;
mod words;

pub use fault::{Fault, first_fault};
pub use laws::{one_edge_graph, one_first_fault, some_edge_graph, words_have_places};
pub use limits::{MOST_BYTES, MOST_EDGES, MOST_NAME, MOST_NODES};
pub use line::line_end;
pub use reader::Reader;
pub use reading::{EdgeGraph, Reading, graph_of_read, read_edges};
