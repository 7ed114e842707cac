//! What is right to report of a text of edges: the groups of its graph or of what
//! some of its nodes reach, its first fault, the limit that it is past, or a root that is no node.
//!
//! It knows no files and no command line.
#![tactic(auto)]

mod answer;
mod laws;
mod reach;
mod starts;

pub use answer::{Answer, TextFault, Wanted, answer_text};
pub use component_report::Form;
pub use edge_json::Cause;
pub use laws::one_said_report;
pub use reach::Reach;
