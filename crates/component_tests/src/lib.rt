//! Tests of what is said of texts of edges, and of whole runs over them.
#![tactic(auto)]

#[cfg(test)]
mod answers;
#[cfg(test)]
mod runs;
