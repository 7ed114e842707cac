//! Names as numbers (string interning): each name of a text is once in a table, and its number is
//! its index there.
//!
//! `number_names` returns the table of a text, and for each token the number of its name. Two
//! tokens have the same number exactly if they have the same name. The names that the reader asks
//! for, and those of predicates that take goals, come first in each table, so that their numbers are
//! constants.
//!
//! It knows no operators and no terms.
#![tactic(auto)]

mod laws;
mod names;
mod numbers;
mod table;

pub use laws::{known_law, names_law, numbered_part, opening_law};
pub use names::{BAR, COMMA, CURLY, EMPTY, KNOWN_COUNT, MINUS, Names, OPENING_COUNT, SQUARE, USER};
pub use numbers::{Numbered, NumberedRow, NumberedRows, number_names, number_rows};
pub use table::text_hash;
