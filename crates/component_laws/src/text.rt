//! A theorem about each text: a function that does nothing, and is called for what it ensures.

ghost use Rattle.std.specs.Prelude.{ℕ, List};
ghost use Rattle.component_answer.specs.Answers.{IsAnswer};
ghost use Rattle.component_answer.specs.declared.answer.Answer.{Answer};
ghost use Rattle.component_answer.specs.declared.answer.Wanted.{Wanted};

use crate::faults::fault_or_none;
use crate::names::names_are_short;
use crate::report::{reports_are_short, reports_exist};
use crate::starts::starts_or_missing;
use edge_text::some_edge_graph;

/// A text has a right outcome, whatever the roots are and whatever is wanted.
pub fn some_text_answer()
    ensures { (text : List ℕ) (roots : List (List ℕ)) (wanted : Wanted) → (answer : Answer) × IsAnswer text roots wanted answer }
{
    fault_or_none();
    some_edge_graph();
    starts_or_missing();
    names_are_short();
    reports_exist();
    reports_are_short();
}
