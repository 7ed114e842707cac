//! Names with a meaning of their own: as heads, or as goals with arguments.

ghost use Rattle.std.specs.Prelude.{◌≡◌, ℕ, not};
ghost use Rattle.prolog_names.specs.Names.{name_at};
ghost use Rattle.kept_clauses.specs.Plain.{is_free};
ghost use Rattle.kept_clauses.specs.Words.{is_reserved};

use prolog_names::{KNOWN_COUNT, Names, known_law, names_law};

/// The numbers, in each table, of `,` `;` `|` `->` `\+` `!` `:` `:-` `?-` `-->` `[]` and `{}`.
const RESERVED: [u32; 12] = [1, 20, 2, 21, 15, 63, 50, 17, 6, 19, 3, 4];

/// Whether the number is that of a reserved name.
pub fn is_reserved(number: u32) -> bool
    ensures { result ≡ is_reserved number }
{
    if number >= KNOWN_COUNT {
        return false;
    }
    RESERVED.contains(&number)
}

/// A name is free exactly if its number isn't reserved.
pub fn reserved_law(names: &Names)
    ensures { (number : ℕ) → is_free (name_at names.now number) ≡ not (is_reserved number) }
{
    names_law(names);
    known_law(names);
}
