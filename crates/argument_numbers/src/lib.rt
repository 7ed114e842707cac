//! Whole numbers in command-line arguments: one to twenty decimal digits, within two bounds.
//!
//! ```text
//! 007 between 1 and 64    7
//! 65, +7, 0x7, (empty)    none
//! ```
#![tactic(auto)]

mod number;

pub use number::read_number;
