//! The shared results of searches of one graph: finished SCCs (released groups), suspended
//! searches, and the levels of groups.
//!
//! `Released` keeps groups in the order of their release, and knows which nodes they hold. A `Book`
//! has these and the suspended searches of one graph and its roots. Each suspended (kept) search is
//! well-formed for the released groups, which are always in reverse topological order.
//!
//! `levels` computes the level of each group in such an order, in one pass over the calls: whether
//! it is recursive, and its height. The height is 0 if it calls no other group, and otherwise one
//! more than the greatest height that it calls.
//!
//! It doesn't see how the groups were found, nor what their nodes stand for.
#![tactic(auto)]

mod book;
mod level;
mod lists;
mod released;

pub use book::Book;
pub use level::{Level, levels, raise_height};
pub use released::Released;
