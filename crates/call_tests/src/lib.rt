//! Tests of the call graph of a program, and of its report in one list.
#![tactic(auto)]

#[cfg(test)]
mod programs;
#[cfg(test)]
mod reports;
#[cfg(test)]
mod unresolved;
