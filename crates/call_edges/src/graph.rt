//! Call graphs in memory.

pub mod call_lists;
pub mod placed_call_lists;
