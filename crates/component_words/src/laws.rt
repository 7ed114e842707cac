//! A theorem about each command line: a function that does nothing, and is called for what it
//! ensures.

ghost use Rattle.std.specs.Prelude.{◌≡◌, ℕ, List};
ghost use Rattle.component_words.specs.Settings.{AreLawful, Settings};

/// Arguments set at most one thing.
pub fn one_setting()
    ensures { (words : List (List ℕ)) (settings other : Settings) → AreLawful words settings → AreLawful words other → settings ≡ other }
{}
