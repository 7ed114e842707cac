//! A theorem about roots: a function that does nothing, and is called for what it ensures.

ghost use Rattle.std.specs.Prelude.{ℕ, ◌⊎◌, List};
ghost use Rattle.component_answer.specs.Starts.{AreStarts, IsFirstMissing};

/// Roots are nodes, or one of them is the first that is none.
pub fn starts_or_missing()
    ensures { (names roots : List (List ℕ)) → ((starts : List ℕ) × AreStarts names roots starts) ⊎ ((place : ℕ) × IsFirstMissing names roots place) }
{}
