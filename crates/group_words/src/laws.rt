//! Theorems about each list of arguments: functions that do nothing, and are called for what they
//! ensure.

ghost use Rattle.std.specs.Prelude.{◌≡◌, ◌≤◌, ℕ, List, Option, length};
ghost use Rattle.prolog_tokens.specs.declared.limits.TheConstants.{MOST_BYTES};
ghost use Rattle.group_words.specs.declared.limits.TheConstants.{MOST_MADE};
ghost use Rattle.group_words.specs.Made.{made_text};
ghost use Rattle.group_words.specs.Settings.{Settings, AreLawful, AreWithin};
ghost use Rattle.group_words.specs.Words.{Key, IsReading};

/// Arguments give each option at most one value, and are at most one list of files.
pub fn one_reading()
    ensures { (words : List (List ℕ)) (given other : Key → Option (List ℕ)) (files more : List (List ℕ))
        → IsReading words given files → IsReading words other more → ((key : Key) → given key ≡ other key) × (files ≡ more) }
{}

/// Arguments set at most one list of options.
pub fn one_settings()
    ensures { (words : List (List ℕ)) (settings other : Settings) → AreLawful words settings → AreLawful words other → settings ≡ other }
{}

/// The options of valid arguments keep to their limits.
pub fn settings_within()
    ensures { (words : List (List ℕ)) (settings : Settings) → AreLawful words settings → AreWithin settings }
{}

/// A generated text isn't longer than a file may be.
pub fn made_text_is_short()
    ensures { (count : ℕ) → count ≤ MOST_MADE → length (made_text count) ≤ MOST_BYTES }
{}
