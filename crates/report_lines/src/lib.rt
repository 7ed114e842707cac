//! What the lines of reports on groups share.
//!
//! `line_order` has the order of the lines: by height, then by least member. `order_given` has the
//! groups as they are given. `member_count`, `recursive_count` and `height_count` are numbers of the
//! first line, and `kind_name` is the word of a group's line.
//!
//! It knows no names of nodes, and writes no text.
#![tactic(auto)]

mod counts;
mod kind;
mod order;

pub use counts::{height_count, member_count, recursive_count};
pub use kind::kind_name;
pub use order::{group_count, least_of, line_order, order_given};
