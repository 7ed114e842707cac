//! Writing a table of calls: as JSON Lines (NDJSON), one object a line, and as a graph for
//! Graphviz.
//!
//! ```text
//! {"is":"predicate","id":0,"module":"user","name":"p","arity":0,"group":0,"height":1,"recursive":false,..}
//! {"is":"group","id":0,"height":1,"recursive":false,"members":[0]}
//! {"is":"clause","predicate":0,"file":"f.pl","line":1,"column":1,"end_line":1,"end_column":7}
//! {"is":"call","caller":0,"callee":1,"module":"user","name":"q","arity":0,"file":"f.pl","line":1,"column":6,"added":0,"negated":false}
//! {"is":"call","caller":null,"callee":0,"module":"user","name":"p","arity":0,"file":"f.pl","line":3,"column":4,"directive":true,"added":0,"negated":false}
//! ```
//!
//! The layers below decide which calls there are.
#![tactic(auto)]

mod call_end;
mod condensed;
mod directive_line;
mod dot;
mod group_line;
mod json;
mod last;
mod lines;
mod marks;

pub use condensed::{push_condensed_edge, push_condensed_node};
pub use directive_line::push_directive_lines;
pub use dot::{push_edges, push_group_nodes, push_node};
pub use group_line::push_group_line;
pub use json::push_json_string;
pub use lines::{push_call_lines, push_clause_lines, push_predicate_line};
