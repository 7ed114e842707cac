//! The symbol table of a Prolog program (`Program`): it numbers the predicates of all files, and
//! resolves names through the imports of modules.
//!
//! `resolve_all` takes what one call of `load_all` loaded. It returns the `Program`, or why there
//! is none (`ImportStop`). More than 1,048,576 predicates (`MOST_PREDICATES`) are one reason, and
//! import errors another, each with its line and column. It also fails if memory runs out.
//!
//! A `Program` numbers its predicates from 0, in strictly ascending order of module, name and
//! arity. `find` returns the predicate that a name means in a module: the module's own, or else the
//! one that it imports. `own` returns only the module's own. Neither of them allocates. `meta_of`
//! returns how the arguments of a predicate's goals are called. The first declaration for the
//! predicate decides, whichever file it is in.
//!
//! Say `a.pl` has `:- module(a, [x/0]).` and `x.`, and `f.pl` has `:- use_module(a).` and
//! `p :- x.`. Then the predicates are `a:x/0` and `user:p/0`, and `find("user", "x", 0)` returns
//! the number 0.
//!
//! It sees no bodies of clauses. Which predicates they call is for the layers above.
#![tactic(auto)]

mod check;
mod clash;
mod finding;
mod flaws;
mod gather;
mod home;
mod import_stop;
mod import_tables;
mod imported;
mod item;
mod known_file;
mod laws;
mod lookups;
mod meta_places;
mod module_clashes;
mod name_table;
mod names;
mod number;
mod offers;
mod own;
mod own_names;
mod pairs;
mod part;
mod placed;
mod places;
mod predicates;
mod program;
mod program_tables;
mod resolve;
mod shared_names;
mod spots;
mod taken;
mod taken_modules;

pub use home::Home;
pub use import_stop::ImportStop;
pub use laws::{
    found_means, one_list_of_faults, one_meaning, one_numbering, one_program, places_told,
};
pub use names::{NameView, PredName};
pub use program::Program;
pub use resolve::{MOST_PREDICATES, resolve_all};
