//! Theorems about each table of names: functions that do nothing, and are called for what they
//! ensure.

ghost use Rattle.std.specs.Prelude.{◌≡◌, ◌≢◌, ◌<◌, ◌≤◌, ℕ, [], List, length, codes, slice_range};
ghost use Rattle.prolog_tokens.specs.declared.token.Token.{Token as TokenOf};
ghost use Rattle.prolog_names.specs.Names.{name_at, known_names, opening_names, AreDistinct, IsOpened};
ghost use Rattle.prolog_names.specs.Numbers.{AreNumbered};

use crate::names::{
    BAR, COMMA, CURLY, EMPTY, KNOWN_COUNT, MINUS, Names, OPENING_COUNT, SQUARE, USER,
};

/// Each table begins with the known names. No name is in it twice, so a name that isn't empty has
/// one number only.
pub fn names_law(names: &Names)
    ensures opened { IsOpened names.now }
    ensures empty { name_at names.now EMPTY ≡ [] }
    ensures comma { name_at names.now COMMA ≡ codes "," }
    ensures bar { name_at names.now BAR ≡ codes "|" }
    ensures square { name_at names.now SQUARE ≡ codes "[]" }
    ensures curly { name_at names.now CURLY ≡ codes "{}" }
    ensures minus { name_at names.now MINUS ≡ codes "-" }
    ensures user { name_at names.now USER ≡ codes "user" }
    ensures distinct { AreDistinct names.now }
    ensures only { (a b : ℕ) → name_at names.now a ≡ name_at names.now b → name_at names.now b ≢ [] → a ≡ b }
{
    let _count = names.table.len();
}

/// The opening names have the same numbers in each table. A name whose number is at least their
/// count is none of them.
pub fn opening_law(names: &Names)
    ensures named { (k : ℕ) → k < OPENING_COUNT → name_at names.now k ≡ name_at opening_names k }
    ensures others { (number k : ℕ) → OPENING_COUNT ≤ number → name_at names.now number ≢ [] → k < OPENING_COUNT
        → name_at opening_names k ≢ name_at names.now number }
{
    names_law(names);
}

/// The known names have the same numbers in each table. A name whose number is at least their count
/// is none of them: no control construct, and no predicate that takes goals by itself.
pub fn known_law(names: &Names)
    ensures named { (k : ℕ) → k < KNOWN_COUNT → name_at names.now k ≡ name_at known_names k }
    ensures others { (number k : ℕ) → KNOWN_COUNT ≤ number → name_at names.now number ≢ [] → k < KNOWN_COUNT
        → name_at known_names k ≢ name_at names.now number }
{
    names_law(names);
}

/// A part of the numbers of tokens numbers the same part of the tokens.
pub fn numbered_part()
    ensures { (text : List ℕ) (names : List (List ℕ)) (ts : List TokenOf) (numbers : List ℕ) (from to : ℕ) → AreNumbered text names ts numbers
        → from ≤ to → to ≤ length ts → AreNumbered text names (slice_range ts from to) (slice_range numbers from to) }
{}
