//! A theorem about the names in each text: a function that does nothing, and is called for what it
//! ensures.

ghost use Rattle.std.specs.Prelude.{◌≤◌, ℕ, Bool, List, length, All};
ghost use Rattle.edge_text.specs.declared.limits.TheConstants.{MOST_NAME};
ghost use Rattle.edge_text.specs.EdgeGraph.{AreNames};
ghost use Rattle.component_answer.specs.Inputs.{IsFaultless, said_by};

use edge_text::words_have_places;

/// A text without faults says no name that is too long.
pub fn names_are_short()
    ensures { (from_json : Bool) (text : List ℕ) (names : List (List ℕ)) → IsFaultless from_json text → AreNames (said_by from_json text) names
        → All (λ name. length name ≤ MOST_NAME) names }
{
    words_have_places();
}
