//! The command-line arguments of `components`, and the settings that they make.
//!
//! `parse_words` returns the one `Settings` that valid arguments make, and None exactly if they
//! aren't valid. Options and operands come in any order.
//!
//! ```text
//! f.txt --roots a --roots=-b --order   roots a and -b, order, the file f.txt
//! --jobs 4                             four threads, standard input
//! -- --order                           the file --order
//! --order --order                      not valid
//! --jobs=65                            not valid
//! ```
//!
//! It reads no file, and knows no graph.
#![tactic(auto)]

mod flag;
mod laws;
mod parse;
mod reader;
mod settings;
mod valued;
mod words;

pub use flag::Flag;
pub use laws::one_setting;
pub use parse::parse_words;
pub use settings::{MOST_JOBS, STANDARD_INPUT, Settings};
pub use valued::Valued;
