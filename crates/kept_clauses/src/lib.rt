//! Clauses as others ask of them: the head of a clause, and the goals of its body.
//!
//! A goal whose arguments are variables and lists makes one call, whatever any `meta_predicate`
//! declares: `q(X, [Y])` calls `q/2` and nothing else. So the name, the number of arguments and the
//! offset are enough to keep of it, and they fit in eight bytes. Of the head of a clause the same is
//! enough. In `p(f(X), a) :- ( q(X), r(s) ; t ).` the goals `q(X)` and `t` are such calls. `r(s)`
//! keeps its nodes, since a program may declare that its argument is a goal.
//!
//! `KeptList::push_clause` takes a clause over. `KeptList::clause` returns it: as its plain form, a
//! head and goals, or as a whole term. A directive, a grammar rule and a head of another module are
//! whole. `specs/Plain.antt` says which tree a plain form means.
//!
//! What goals mean is unknown here. The crate `plain_clauses` shows that nothing is lost.
#![tactic(auto)]

mod kept_clause;
mod kept_list;
mod plain_goals;
mod reserved;
mod words;

pub use kept_clause::{KeptCall, KeptClause, KeptGoal, KeptGoals, PlainForm};
pub use kept_list::KeptList;
pub use reserved::reserved_law;
