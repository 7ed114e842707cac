//! Graphs as JSON Lines: each line is an edge, `{"from":"a","to":"b"}`, or a node alone,
//! `{"from":"a"}`.
//!
//! `decode` returns the names of each line, or the first line that is no edge. `graph_of_lines`
//! returns the graph of these names, as `edge_text` does for a text of words.
//!
//! It knows no files and no command line.
#![tactic(auto)]

mod cause;
mod decoded;
mod edge_line;
mod graph;
mod laws;
mod line;

pub use cause::{Cause, LineFault};
pub use decoded::{Decoded, decode};
pub use edge_line::EdgeLine;
pub use graph::graph_of_lines;
pub use laws::one_line_fault;
