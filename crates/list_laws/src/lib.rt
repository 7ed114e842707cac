//! Theorems about lists: over each total order only one strictly ascending list has given elements,
//! and how often a node is in lists. Several owners of nodes account for them by these counts.
#![tactic(auto)]

mod counts;
mod order;

pub use counts::counts_add_up;
pub use order::one_rising_list;
