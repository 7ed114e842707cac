//! The call graph of a program: the goals in the bodies of its clauses, and the predicates that
//! they call.
//!
//! A goal is a call, a control construct over goals, a goal of another module, or an argument of a
//! predicate that takes goals. In `p :- maplist(q, [a]), \+ m:s.` the goals call `maplist/2`, `q/1`
//! and `m:s/0`. A program may declare which arguments are goals, as by
//! `:- meta_predicate each(1, ?).` A table decides for predicates that it doesn't declare.
//!
//! `call_lists` walks the whole program once, in parallel. It returns the call graph in memory, or
//! else the goals that aren't callable, as the `3` of `p :- q, 3.`, with their positions. The other
//! functions are:
//!
//! - `check_goals` only reports the goals that aren't callable.
//! - `placed_call_lists` also returns the calls, each with the position of its goal and with what
//!   its name means. `calls_of` selects those of some predicates. `directive_calls` returns those of
//!   directives.
//! - `roots_of` returns the predicates at which reachability begins. `roots_by_export`,
//!   `roots_by_directive` and `roots_by_file` return those of each reason. `exported_of` returns
//!   what modules export, and `declared_of` what directives declare `dynamic` or `multifile`.
//! - `met_in` returns the goals in the clauses of one predicate, by the names that are written
//!   there. `unresolved_of` returns those of the names that mean no predicate.
//!
//! `Calls` is the same graph as that of `call_lists` without its memory: it walks a predicate
//! whenever it is expanded.
//!
//! Which predicate a name means in a module is for the layer below. Which predicates reach each
//! other is for the layer above.
#![tactic(auto)]

mod body;
mod buffers;
mod by_number;
mod calls;
mod check;
mod directives;
mod faults;
mod faults_with_places;
mod found;
mod goal_stop;
mod goals_met;
mod graph;
mod join_lists;
mod laws;
mod piece;
mod piece_calls;
mod placed_calls;
mod properties;
mod role;
mod root_reasons;
mod roots;
mod starts;
mod table;
mod take_apart;
mod unresolved;
mod walk;
mod walk_body;
mod walk_home;

pub use calls::Calls;
pub use check::{call_lists, check_goals, placed_call_lists};
pub use directives::directive_calls;
pub use goal_stop::GoalStop;
pub use goals_met::met_in;
pub use graph::call_lists::CallLists;
pub use graph::placed_call_lists::PlacedCallLists;
pub use laws::{calls_told, one_list_of_faults, roots_below};
pub use placed_calls::{NamedCall, PlacedCall, calls_of};
pub use properties::declared_of;
pub use role::{Meant, Met};
pub use root_reasons::{exported_of, roots_by_directive, roots_by_export, roots_by_file};
pub use roots::roots_of;
pub use starts::in_file_order;
pub use unresolved::unresolved_of;
