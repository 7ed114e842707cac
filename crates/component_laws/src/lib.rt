//! Theorems that each command line of `components` has a right outcome: no definition is so strict
//! that the program could meet it only by running out of memory.
//!
//! No program depends on them, and nothing here runs. Each is about the definitions of one layer,
//! over values that no program needs to hold, and states that there is something right to say. The
//! contracts of the layers' own functions state that there is at most one such thing. In order,
//! each after those that it depends on:
//!
//! - `words`: arguments are valid, and make settings, or aren't;
//! - `faults`: a text of words or of JSON Lines has a first fault, or none;
//! - `names`: a text without faults says no name that is too long;
//! - `starts`: roots are nodes, or one of them is the first that is none;
//! - `report`: what some nodes of a graph reach has a report, and it isn't too long for a `Vec`;
//! - `text`: a text has a right outcome, whatever the roots are and whatever is wanted;
//! - `answer`: arguments over a map of texts have a right outcome, which is all of this together.
#![tactic(auto)]

mod answer;
mod faults;
mod names;
mod report;
mod starts;
mod text;
mod words;

pub use answer::some_component_answer;
pub use faults::fault_or_none;
pub use names::names_are_short;
pub use report::{reports_are_short, reports_exist};
pub use starts::starts_or_missing;
pub use text::some_text_answer;
pub use words::settings_or_none;
