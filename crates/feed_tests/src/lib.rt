//! Tests of the stream of released groups.
#![tactic(auto)]

#[cfg(test)]
mod gate_tests;
#[cfg(test)]
mod graphs;
#[cfg(test)]
mod keeper;
#[cfg(test)]
mod level_taker_tests;
#[cfg(test)]
mod memory_tests;
#[cfg(test)]
mod slow_tests;
#[cfg(test)]
mod starved;
