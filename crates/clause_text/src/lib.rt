//! Reader of Prolog texts: from bytes to clauses, each read with the operators that the clauses
//! before it leave.
//!
//! `read_text` returns the one list of clauses of a text, with the names in it, or its one error
//! with the byte offset. An error of its bytes comes first, and then one of its tokens. The last is
//! that of the first clause that can't be read or whose operators can't be set. `Cause` lists all
//! errors of a program's files, and `cause_text` returns their messages.
//!
//! Of directives it sees only the operators, and of files only their bytes.
#![tactic(auto)]

mod cause;
mod cutting;
mod fault;
mod items;
mod laws;
mod parts;
mod piece;
mod terms;
mod text;
mod text_clauses;

pub use cause::{Cause, cause_text};
pub use fault::TextFault;
pub use laws::{fault_is_no_reading, numbers_differ, one_fault, one_reading, terms_placed};
pub use terms::{directive_of, operator_item, written_items};
pub use text::read_text;
pub use text_clauses::{Clause, TextClauses};
