//! Theorems about the facts of each file and the errors of each text: functions that do nothing,
//! and are called for what they ensure.

mod answered;
mod said;

pub use answered::{facts_or_refusal, file_or_fault, reading_or_fault};
pub use said::{directives_joined, fact_causes, first_refusal, module_first, parts_kept};
