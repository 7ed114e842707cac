//! The program `components`: `run_components` reads a text of edges or JSON Lines, finds the strongly connected
//! components (SCCs, groups) of its graph, and writes what is right to one of two sinks. That is one
//! of these:
//!
//! - the usage line;
//! - that the text can't be read, or is too large;
//! - the place of what is wrong first: a name that is too long, or a line of JSON that is no edge;
//! - the limit of edges or of nodes, if the text is past it;
//! - the first root in the arguments that is no node;
//! - the report: the groups, callees first; if there are roots, of what these reach.
//!
//! For standard input with the text `p q` on one line and `q p` on the next the report is
//!
//! ```text
//! nodes 2 groups 1 recursive 1 levels 1
//! 0 recursive p q
//! ```
//!
//! The record `RunKeeps` of `specs/Keeps.antt` is the contract of a run. Texts are seen through a
//! `Source` and output through a `Sink`, in memory or real. No contract states what the disk or
//! standard input holds. But over any source the output is right for exactly the text that it
//! returned.
#![tactic(auto)]

mod disk_source;
mod ending;
mod laws;
mod lines;
mod memory_source;
mod run;
mod source;
mod stop;
mod telling;

pub use disk_source::DiskSource;
pub use laws::one_answer;
pub use memory_source::MemorySource;
pub use run::{run_alone, run_components};
pub use search_pool::{Gate, OpenGate};
pub use source::{Source, SourceRead};
