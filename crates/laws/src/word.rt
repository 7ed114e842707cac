//! A theorem about all arguments: a function that only calls other theorems.

ghost use Rattle.std.specs.Prelude.{◌⊎◌, ℕ, List, All};
ghost use Rattle.std.specs.Str.{IsUtf8};
ghost use Rattle.group_words.specs.Settings.{Settings, AreLawful};

use crate::clause::clause_or_fault;
use crate::cut::cut_or_fault;

/// Arguments are valid, and set options, or they aren't.
pub fn lawful_or_not()
    ensures { (words : List (List ℕ)) → All IsUtf8 words
        → ((settings : Settings) × AreLawful words settings) ⊎ ((settings : Settings) → AreLawful words settings → ⊥) }
{
    cut_or_fault();
    clause_or_fault();
}
