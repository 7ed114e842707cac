ghost use Rattle.std.specs.Prelude.{◌≡◌, IfOk};
ghost use Rattle.std.specs.Str.{bytes_eq};
ghost use Rattle.std.specs.String.{string_bytes};

use crate::short::{MOST, Short};
use std::alloc::{AllocError, Global};
use std::cmp::Ordering;
use std::fmt;
use std::marker::Model;

/// Where the bytes of a text are: of a short one, as most names are, in the value itself.
#[derive(Drop)]
enum Room {
    Short(Short),
    Long(String),
}

/// An owned text: a name, an argument or a file name. Texts are ordered by their bytes.
#[derive(Drop)]
pub struct Text {
    room: Room,
}

impl Model for Text {
    ghost use Rattle.std.specs.Prelude.{List, ℕ};
    ghost use Rattle.prolog_tokens.specs.Text.{room_bytes};

    ghost Value = { List ℕ };

    ghost view = { λ t. room_bytes t.room };
}

impl Text {
    /// The text with the bytes of `text`.
    pub fn new(alloc: Global, text: &str) -> Result<Text, AllocError>
        ensures { IfOk result (λ t. t ≡ text.now) }
    {
        if text.len() <= MOST {
            return Ok(Text {
                room: Room::Short(Short::new(text)),
            });
        }
        Ok(Text {
            room: Room::Long(String::from_str(alloc, text)?),
        })
    }

    /// The text of a string. A long one isn't copied. A short one is, and its memory is freed.
    pub fn from_string(text: String) -> Text
        ensures { result ≡ string_bytes text }
    {
        if text.len() <= MOST {
            return Text {
                room: Room::Short(Short::new(text.as_str())),
            };
        }
        Text {
            room: Room::Long(text),
        }
    }

    /// The bytes as text.
    pub fn as_str(&self) -> &str
        ensures { result.now ≡ self.now }
    {
        match &self.room {
            Room::Short(text) => text.as_str(),
            Room::Long(text) => text.as_str(),
        }
    }

    /// Whether the text equals this one.
    #[inline(always)]
    pub fn is(&self, text: &str) -> bool
        ensures { result ≡ bytes_eq self.now text.now }
    {
        match &self.room {
            Room::Short(own) => own.is(text),
            Room::Long(own) => own.as_str() == text,
        }
    }
}

impl fmt::Debug for Text {
    fn fmt<W: fmt::Write>(&self, f: &mut fmt::Formatter<W>) -> fmt::Result {
        f.debug_struct("Text")
            .field("text", &self.as_str())
            .finish()
    }
}

impl PartialEq for Text {
    ghost use Rattle.std.specs.Prelude.{nat_eq};
    ghost use Rattle.std.specs.Cmp.{partial_equiv_from_equiv};
    ghost use Rattle.std.specs.Cmp.Lexicographic.{pointwise, nat_list_eq_equiv};

    ghost eq = { pointwise nat_eq };

    ghost laws = { partial_equiv_from_equiv nat_list_eq_equiv };

    fn eq(&self, other: &Text) -> bool {
        match (&self.room, &other.room) {
            (Room::Short(one), Room::Short(another)) => one.is_same(another),
            _ => self.as_str() == other.as_str(),
        }
    }
}

impl Eq for Text {
    ghost use Rattle.std.specs.Cmp.Lexicographic.{nat_list_eq_equiv};

    ghost laws = { nat_list_eq_equiv };
}

impl PartialOrd for Text {
    ghost use Rattle.std.specs.Prelude.{Some};
    ghost use Rattle.std.specs.Ordering.{nat_cmp};
    ghost use Rattle.std.specs.Cmp.Lexicographic.{slice_cmp, texts_po};

    ghost partial_cmp = { λ a b. Some (slice_cmp nat_cmp a b) };

    ghost laws = { texts_po };

    fn partial_cmp(&self, other: &Text) -> Option<Ordering> {
        Some(self.cmp(other))
    }
}

impl Ord for Text {
    ghost use Rattle.std.specs.Ordering.{nat_cmp};
    ghost use Rattle.std.specs.Cmp.Lexicographic.{slice_cmp, nat_list_cmp_total, texts_ties};
    ghost use Rattle.std.proofs.Common.{refl};

    ghost cmp = { slice_cmp nat_cmp };

    ghost total = { nat_list_cmp_total };

    ghost matches_partial_cmp = { λ a b. refl };

    ghost matches_eq = { texts_ties };

    fn cmp(&self, other: &Text) -> Ordering {
        match (&self.room, &other.room) {
            (Room::Short(one), Room::Short(another)) => one.compare(another),
            _ => self.as_str().cmp(other.as_str()),
        }
    }
}
