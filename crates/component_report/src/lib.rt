//! The report on the groups of a graph whose nodes have names of any bytes.
//!
//! The first line is `nodes N groups G recursive R levels L`. Each group has a line with its height,
//! `plain` or `recursive`, and its members in the order of their bytes. `report` has the lines in
//! order of height and least member, and `order_report` in the order of the groups. `cycle_lines`
//! has a line for the cycle of each recursive group.
//!
//! As JSON Lines each of these lines is an object, of the same order. A name that isn't UTF-8 is a
//! list of its bytes there.
//!
//! It knows no texts of edges, and finds no groups and no cycles.
#![tactic(auto)]

mod cycles;
mod form;
mod head;
mod json;
mod json_lines;
mod laws;
mod lines;
mod number;
mod whole;

pub use cycles::cycle_lines;
pub use form::Form;
pub use laws::one_report;
pub use whole::{order_report, report};
