//! Tests of the searches of graphs, and of many searches whose places act in a given order. The
//! groups of graphs are tested by the rows of `graph_rows`.
#![tactic(auto)]

#[cfg(test)]
mod blocked_tests;
#[cfg(test)]
mod book_tests;
#[cfg(test)]
mod class_tests;
#[cfg(test)]
mod graphs;
#[cfg(test)]
mod lead;
#[cfg(test)]
mod machine_tests;
#[cfg(test)]
mod memory_tests;
#[cfg(test)]
mod step_tests;
#[cfg(test)]
mod text;
#[cfg(test)]
mod trace_tests;
