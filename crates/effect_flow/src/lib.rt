//! Effect analysis on a call graph: which effects (output, input, changes of the database and
//! others) each group may reach.
//!
//! `kinds_of` returns the kind of effect of a predicate that no program defines, by its name and
//! arity: `write/1` has output. `flow` computes a witness (carrier) for each group and each kind:
//! the least node that a member reaches and that has the kind itself. The groups are in reverse
//! topological order. Groups of the same height don't call each other, so they are computed in
//! parallel, lower ones first.
//!
//! It doesn't see which names nodes stand for.
#![tactic(auto)]

mod carriers;
mod flows;
mod grouped;
mod height_order;
mod heights;
mod kinds;

pub use flows::Flow;
pub use heights::flow;
pub use kinds::{KINDS, kinds_of};
