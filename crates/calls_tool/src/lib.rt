//! The program `calls`: `run_calls` reads Prolog files, and writes who calls what to one of two
//! sinks.
//!
//! The answer is one of these:
//!
//! - the usage line;
//! - the first limit that is passed;
//! - the errors in the files;
//! - the first name in the arguments that is no predicate of the program;
//! - what the arguments ask for: the predicates, clauses and calls of the program, or only the
//!   calls whose names mean no predicate, or the graph of its predicates.
//!
//! For the file `f.pl` with the line `p(X) :- q(X).` the calls of undefined names are
//!
//! ```text
//! {"is":"call","caller":0,"callee":null,"module":"user","name":"q","arity":1,"file":"f.pl","line":1,"column":9,"added":0,"negated":false}
//! ```
//!
//! The answer is written to `out` completely or not at all, unless `out` takes a part of it and
//! fails. The record `RunKeeps` of `tool_run` is the contract of a run. Files are seen through a
//! `Library` and output through a `Sink`.
#![tactic(auto)]

mod calls;
mod run;

pub use calls::Calls;
pub use run::run_calls;
