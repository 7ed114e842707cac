//! What the arguments of `calls` ask for, and the bytes that answer them.
//!
//! `read_wanted` returns what valid arguments ask for, and `Usage` exactly if they aren't valid.
//! `told_texts` returns that of a program: its predicates, groups, clauses and calls, or only the calls
//! whose names mean no predicate, or the graph of its predicates.
//!
//! ```text
//! --undefined f.pl    the calls of names that mean no predicate, as JSON
//! --undefined --dot   Usage
//! --condensed         Usage, without --dot
//! ```
//!
//! It reads no file.
#![tactic(auto)]

mod condensed;
mod directives;
mod node_lines;
mod stretches;
mod text;
mod told;
mod wanted;

pub use text::told_texts;
pub use wanted::{Form, Wanted, read_wanted};
