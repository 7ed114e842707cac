//! The command-line arguments of `groups`, and the options that they set.
//!
//! `parse_words` returns the one `Options` that valid arguments set, and `Usage` exactly if they
//! aren't valid. The parser `clap` decides which arguments belong together. This crate decides
//! about numbers, lists of predicates, options that exclude each other and file names. `make_text`
//! is the generated program of `--make`.
//!
//! ```text
//! --jobs 2 --roots m:p/0,q/1 lib/a.pl ./lib/a   2 workers, roots m:p/0 and user:q/1, file lib/a.pl
//! --jobs=65 a.pl                                Usage
//! ```
//!
//! It reads no file, and knows no predicate of a program.
#![tactic(auto)]

mod command;
mod given;
mod laws;
mod limits;
mod made;
mod options;
mod parse;
mod root_list;
mod settings;

pub use laws::{made_text_is_short, one_reading, one_settings, settings_within};
pub use limits::{MOST_LIST, MOST_MADE, MOST_WORKERS};
pub use made::make_text;
pub use options::{Options, WordFault};
pub use parse::parse_words;
