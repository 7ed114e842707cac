//! The report on groups of predicates, as bytes.
//!
//! `report` returns what `groups` prints of a program:
//!
//! - the numbers of predicates, groups, recursive groups and levels;
//! - each group with its height and its members;
//! - each cycle of modules that import each other;
//! - if they are asked for, the predicates that are in no group.
//!
//! ```text
//! predicates 3 groups 2 recursive 1 levels 2
//! 0 plain c:s/0
//! 1 recursive a:p/0 b:q/0
//! import-loop a b
//! unreached c:t/0
//! ```
//!
//! It is the same for all reverse topological orders of the groups; `order_report` prints them in
//! the given order. `report_pieces` and `order_report_pieces` return the same bytes in texts one
//! after another, whose lines are written in parallel.
//!
//! Further parts follow a report, each with lines of its own. `effect_lines` has the effects that
//! each group may reach, `circuit_lines` a cycle of calls for each recursive group, and `walk_line`
//! a path of calls.
//!
//! ```text
//! effect a:p/0 output b:q/0
//! loop a:p/0 b:q/0
//! path c:t/0 a:p/0 b:q/0
//! ```
//!
//! Names are spelled so that each reads back as itself. It searches nothing but import cycles:
//! groups, levels, effects and paths are given.
#![tactic(auto)]

mod effects;
mod group_lines;
mod group_texts;
mod head;
mod last_module;
mod laws;
mod loops;
mod module_graph;
mod modules;
mod names;
mod rings;
mod spelled;
mod unreached;
mod walks;
mod written;

pub use effects::effect_lines;
pub use head::head_line;
pub use laws::{names_differ, names_read_back, one_list_of_loops, one_report};
pub use loops::import_loops;
pub use names::predicate_name;
pub use spelled::quote_atom;
pub use walks::{circuit_lines, walk_line};
pub use written::{order_report, order_report_pieces, report, report_pieces};
