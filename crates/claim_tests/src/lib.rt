//! Tests of claims, in one thread and in two.
#![tactic(auto)]

#[cfg(test)]
mod by_hand;
#[cfg(test)]
mod claim_tests;
#[cfg(test)]
mod ring;
#[cfg(test)]
mod thread_tests;
