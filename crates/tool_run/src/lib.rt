//! The run of a program over Prolog files, shared by all such programs: from file names to a loaded
//! program, and from its output or its errors to bytes on a sink and an exit status.
//!
//! A program is a `Tool`: its name, its usage line and, in `specs/Tool.antt`, what it is asked for
//! and which bytes answer that. The record `RunKeeps` of `specs/Keeps.antt` is the contract of each
//! of its runs, one field for each promise. For the file `f.pl` that doesn't exist, the status is
//! 3, and the lines on `err` are
//!
//! ```text
//! f.pl: no such file
//! ```
//!
//! Files are seen through a `Library` and output through a `Sink`, in memory or real. This crate
//! starts no search. It knows only those options that name entry points and the ends of a path.
#![tactic(auto)]

mod command_line;
mod ending;
mod lines;
mod loading;
mod memory_sink;
mod roots;
mod saying;
mod sink;
mod stop;
mod stream_sink;
mod tool;

pub use command_line::words;
pub use ending::put_end;
pub use lines::{fault_lines, limit_line, missing_line, unread_line};
pub use loading::load_files;
pub use memory_sink::MemorySink;
pub use roots::{RootStop, ends_by, roots_by};
pub use saying::{put_all, say, say_texts, say_with};
pub use sink::{Flushed, MOST_PUT, Put, Sink};
pub use stop::{Limit, Stop};
pub use stream_sink::StreamSink;
pub use tool::Tool;
