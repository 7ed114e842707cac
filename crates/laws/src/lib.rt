//! Theorems that answers exist: no definition is so strict that a program could meet it only by
//! running out of memory.
//!
//! No program depends on them, and nothing here runs. Each is about the definitions of one layer,
//! over values that no program needs to hold, and states that there is an answer. The contracts of
//! the layers' own functions state that there is at most one. In order, each after those that it
//! depends on:
//!
//! - `cut`: a UTF-8 text has tokens or an error;
//! - `clause`: the tokens of a clause are a clause, or there is an error of reading them;
//! - `file`: what a file says is what its single clauses say. A text has clauses or an error, and a
//!   file has facts or an error;
//! - `load`: for each map of files, reading the roots and all that they load ends in a way that the
//!   map decides;
//! - `program`: loaded files have too many predicates, or import errors, or are a program, whose
//!   goal errors and roots are lists;
//! - `schedule`: a schedule of searches comes to its end. What roots reach has a reverse
//!   topological order of its SCCs, and the groups of such an order have levels;
//! - `report`: files have a list of import cycles, and groups in reverse topological order have a
//!   report;
//! - `word`: arguments are valid, and set options, or aren't;
//! - `answer`: arguments over a map of files have a right answer, which is all of this together;
//! - `told`: the arguments of `calls` ask for one thing or for nothing. Predicates of a program
//!   have a table of their calls. Arguments of `calls` over a map of files have a right answer too,
//!   and only one if they ask for no graph that isn't condensed.
#![tactic(auto)]

mod answer;
mod clause;
mod cut;
mod file;
mod load;
mod program;
mod report;
mod schedule;
mod told;
mod word;

pub use answer::some_answer;
pub use clause::clause_or_fault;
pub use cut::cut_or_fault;
pub use file::{
    directives_joined, fact_causes, facts_or_refusal, file_or_fault, first_refusal, module_first,
    parts_kept, reading_or_fault,
};
pub use load::load_or_faults;
pub use program::{goal_faults_exist, program_or_faults, roots_exist};
pub use report::{loops_exist, reports_exist};
pub use schedule::{levels_exist, order_exists, schedule_ends};
pub use told::{
    asked_or_nothing, memberships_exist, one_told_answer, some_told_answer, tables_exist,
    told_exists,
};
pub use word::lawful_or_not;
