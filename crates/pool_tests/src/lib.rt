//! Tests of workers that search one graph in parallel.
#![tactic(auto)]

#[cfg(test)]
mod agree;
#[cfg(test)]
mod agree_tests;
#[cfg(test)]
mod counting_gate;
#[cfg(test)]
mod crew_tests;
#[cfg(test)]
mod expect;
#[cfg(test)]
mod graphs;
#[cfg(test)]
mod keeping_gate;
#[cfg(test)]
mod keeping_gate_tests;
#[cfg(test)]
mod many_tests;
#[cfg(test)]
mod meeting;
#[cfg(test)]
mod seen_tests;
#[cfg(test)]
mod star_gate;
#[cfg(test)]
mod starved;
#[cfg(test)]
mod starved_tests;
#[cfg(test)]
mod turn_tests;
#[cfg(test)]
mod waiting;
