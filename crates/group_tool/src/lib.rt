//! The program `groups`: `run_groups` reads Prolog files, finds the strongly connected components
//! (SCCs, groups) of their call graph, and writes the right answer to one of two sinks.
//!
//! The answer is one of these:
//!
//! - the usage line;
//! - the first limit that is passed;
//! - the errors in the files;
//! - the first name in the arguments that is no predicate of the program;
//! - the report: the groups that the roots reach, and then the effects, cycles and path that the
//!   arguments ask for.
//!
//! There is only one right answer, except if groups are reported in the order in which the search
//! found them. The record `RunKeeps` of `tool_run` is the contract of a run. For a file with the
//! text `p :- q. q :- p.` the report is
//!
//! ```text
//! predicates 2 groups 1 recursive 1 levels 1
//! 0 recursive user:p/0 user:q/0
//! ```
//!
//! Files are seen through a `Library` and output through a `Sink`, in memory or real. No contract
//! states what the disk holds or what streams do with bytes. But over any library, the disk too,
//! the answer is right for exactly the files that it returned.
//!
//! `tool_run` has what is shared with other programs over files: sinks, the lines of a run, and why
//! it has no output. It is exported here as well.
#![tactic(auto)]

mod answer;
mod asked;
mod driver;
mod groups;
mod laws;
mod loading;
mod one_file;
mod own_kinds;
mod parts;
mod run;

pub use group_words::{Options, WordFault, parse_words};
pub use groups::Groups;
pub use laws::one_answer;
pub use run::{run_alone, run_groups};
pub use search_pool::{Gate, MeetGate, OpenGate};
pub use tool_run::{
    Flushed, Limit, MOST_PUT, MemorySink, Put, RootStop, Sink, Stop, StreamSink, fault_lines,
    limit_line, missing_line, put_all, roots_by, say, say_with, unread_line, words,
};
