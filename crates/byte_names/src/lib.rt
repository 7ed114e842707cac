//! Names as numbers (string interning) for names of any bytes: a name is a range of the text that it
//! is read from, so that none is copied.
//!
//! `NameTable` gives each name an index. `rank` sorts the names by their bytes and gives each index
//! the rank of its name, so that numbers are in the order of the names.
//!
//! It knows no texts and no graphs.
#![tactic(auto)]

mod lead;
mod name_table;
mod ranked;

pub use name_table::NameTable;
pub use ranked::{Ranked, rank};
