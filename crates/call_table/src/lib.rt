//! The table of a program's calls: the clauses and the calls of its predicates with their
//! positions, and the group of each predicate.
//!
//! `call_table` lists all clauses and all calls of given predicates, each once and sorted by file
//! and offset, with lines and columns. A clause has those of its start and of its end. It also has
//! the group of each predicate of the program, if it is in one of the given groups. `make_marks` has
//! what modules export, why reachability begins at predicates, and which of them directives declare
//! `dynamic` or `multifile`. For example, let `a.pl` have the line `p :- q, r.` The clause of
//! `user:p/0` goes from line 1, column 1, to column 10 of this line, and the calls of `q/0` and `r/0`
//! start at columns 6 and 9.
//!
//! The layer above decides how the table is written.
#![tactic(auto)]

mod clause_at;
mod directives;
mod extents;
mod marks;
mod memberships;
mod reached;
mod table;

pub use clause_at::{ClauseAt, clauses_of};
pub use directives::placed_directives;
pub use extents::Extent;
pub use marks::{Marks, NodeMarks, make_marks};
pub use memberships::groups_of;
pub use reached::{Reached, groups_from};
pub use table::{CallTable, call_table};
