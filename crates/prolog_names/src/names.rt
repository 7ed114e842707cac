ghost use Rattle.std.specs.Prelude.{◌≡◌};
ghost use Rattle.std.specs.Str.{bytes_eq};
ghost use Rattle.prolog_names.specs.Names.{name_at};
ghost use Rattle.prolog_names.specs.Table.{text_hash};

use crate::table::NameTable;
use std::marker::Model;

/// The number of the empty name, and of each token without a name.
pub const EMPTY: u32 = 0;
/// The number of `,`.
pub const COMMA: u32 = 1;
/// The number of `|`.
pub const BAR: u32 = 2;
/// The number of `[]`.
pub const SQUARE: u32 = 3;
/// The number of `{}`.
pub const CURLY: u32 = 4;
/// The number of `-`.
pub const MINUS: u32 = 5;
/// The number of `user`.
pub const USER: u32 = 51;
/// How many names those who read terms ask for. Their numbers are below it, and all others aren't.
pub const OPENING_COUNT: u32 = 52;
/// How many names each table begins with: the opening names, then those of the predicates that take
/// goals. Their numbers are below it, and all others aren't.
pub const KNOWN_COUNT: u32 = 64;

/// The names of a text, each once. The number of a name is its index. The constants of this crate
/// are numbers in each table.
#[derive(Drop)]
pub struct Names {
    pub(crate) table: NameTable,
}

impl Model for Names {
    ghost use Rattle.std.specs.Prelude.{List, ℕ};
    ghost use Rattle.prolog_names.specs.Names.{IsOpened};

    ghost Value = { List (List ℕ) };

    ghost view = { λ names. names.table };

    ghost invariant = { λ names. IsOpened names.table };
}

impl Names {
    /// The name with the number, or the empty name if no name has it.
    pub fn text(&self, number: u32) -> &str
        ensures { result.now ≡ name_at self.now number }
    {
        self.table.text(number as usize)
    }

    /// Whether the name with the number is this one.
    #[inline(always)]
    pub fn is(&self, number: u32, name: &str) -> bool
        ensures { result ≡ bytes_eq (name_at self.now number) name.now }
    {
        self.table.is(number as usize, name)
    }

    /// The hash of the name of that number, which is kept: no text is read. Past the last name it is
    /// that of the empty one.
    #[inline(always)]
    pub fn hash(&self, number: u32) -> u32
        ensures { result ≡ text_hash (name_at self.now number) }
    {
        self.table.hash(number as usize)
    }
}
