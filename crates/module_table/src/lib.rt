//! What a Prolog file says: its module, its loads, the predicates that it defines and the goals of
//! its directives.
//!
//! `facts` returns the one record of facts of the clauses of a file, or the first error with its
//! byte offset: for `:- dynamic p.` that of `p`, which is no predicate indicator. `resolve_name`
//! returns the file that a specification names: in `lib/a.pl`, `../x` is `x.pl`.
//!
//! It sees one file at a time. Whether another one is there, and what it exports, is for the layers
//! above.
#![tactic(auto)]

mod clauses;
mod defined;
mod directive;
mod dynamic;
mod file_facts;
mod file_name;
mod goal_arg;
mod head;
mod indicator;
mod kinds;
mod laws;
mod lead;
mod load;
mod mark;
mod meta;
mod module_directive;
mod runs;
mod said;
mod terms;

pub use clauses::Clauses;
pub use defined::Defined;
pub use file_facts::{DirectiveGoals, FileFacts, facts};
pub use file_name::resolve_name;
pub use goal_arg::GoalArg;
pub use indicator::Indicator;
pub use laws::{
    clauses_kept, facts_light, facts_placed, few_added, few_defined, folders_cut, loads_named,
    names_kept, names_lead, names_resolved, none_named, one_facts, one_name, one_of_text,
    refusals_placed,
};
pub use load::{Load, LoadKind};
pub use mark::{Mark, Property};
pub use meta::Meta;
pub use said::FactFault;
