//! The plain form of a clause: what the calls of a program need of it, and no more.
//!
//! A goal whose arguments are variables and lists makes one call, whatever any `meta_predicate`
//! declares: `q(X, [Y])` calls `q/2` and nothing else. So a name, a number of arguments and an
//! offset are enough to keep of it. Of the head of a clause its name and its number of arguments
//! are, with the span of the clause. A plain tree is the clause again, with nothing but variables
//! where arguments were. In `p(f(X), a) :- ( q(X), r(s) ; t ).` the goals `q(X)` and `t` are such
//! calls, and `r(s)` stays as it is, since a program may declare that its argument is a goal. So
//! does a negation, and a goal of more than 63 arguments, or one past the offset 8,388,607: these two
//! numbers fit in 29 bits. A clause with such a head, or past that offset, has no plain form.
//!
//! No code is here. The functions do nothing, and are called for what they ensure:
//!
//! - `plain_forms`: the plain form of a clause says what the clause defines and calls;
//! - `plain_law`: a plain tree says of its clause all that others ask;
//! - `same_facts`: the facts of a file of plain trees are those of the file, with plain trees;
//! - `same_imports`: files of plain trees are a program exactly if the files are;
//! - `same_program`: a program of plain trees has the same calls, errors, roots and missing names.
#![tactic(auto)]

mod laws;

pub use laws::{plain_forms, plain_law, same_facts, same_imports, same_program};
