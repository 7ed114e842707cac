ghost use Rattle.std.specs.Prelude.{◌≡◌, ℕ, ◌+◌, ◌<◌, ◌≤◌, Option, length, slice_index, MatchOption};
ghost use Rattle.prolog_tokens.specs.Escapes.{mark_of, IsCoded, IsEscape};

use crate::digits::{capped_number, digits_end};

/// What the byte after a backslash means: one character, or how the escape goes on.
#[derive(Clone, Copy, Debug, PartialEq, Eq)]
pub enum Mark {
    Letter(char),
    Octal,
    Hex,
    Newline,
    Nothing,
}

/// An escape sequence: the character that it means, if any, and where it ends.
#[derive(Clone, Copy, Debug, PartialEq, Eq)]
pub struct Escape {
    pub code: Option<char>,
    pub end: usize,
}

/// What a byte after a backslash means.
pub fn mark_of(byte: u8) -> Mark
    ensures { result ≡ mark_of byte }
{
    match byte {
        b'a' => Mark::Letter('\u{7}'),
        b'b' => Mark::Letter('\u{8}'),
        b'f' => Mark::Letter('\u{c}'),
        b'n' => Mark::Letter('\n'),
        b'r' => Mark::Letter('\r'),
        b't' => Mark::Letter('\t'),
        b'v' => Mark::Letter('\u{b}'),
        b'\\' => Mark::Letter('\\'),
        b'\'' => Mark::Letter('\''),
        b'"' => Mark::Letter('"'),
        b'`' => Mark::Letter('`'),
        b'0'..=b'7' => Mark::Octal,
        b'x' => Mark::Hex,
        b'\n' => Mark::Newline,
        _ => Mark::Nothing,
    }
}

/// The escape by a number: digits of the base from `from` on that give a character, and a
/// backslash.
fn coded_at(bytes: &[u8], from: usize, base: u8) -> Option<Escape>
    requires from { from ≤ length bytes.now }
    requires some { 0 < base }
    requires base { base ≤ 36 }
    ensures { MatchOption result ((c : Option ℕ) (b : ℕ) → IsCoded base bytes.now from c b → ⊥) (λ found. IsCoded base bytes.now from found.code found.end) }
{
    let close = digits_end(bytes, from, base);
    if close == from || close == bytes.len() || bytes[close] != b'\\' {
        return None;
    }
    let number = u32::try_from(capped_number(bytes, from, close, base)).ok()?;
    let code = char::from_u32(number)?;
    Some(Escape {
        code: Some(code),
        end: close + 1,
    })
}

/// The escape sequence whose backslash is at `at` (ISO/IEC 13211-1, 6.4.2.1), or None if there is
/// none.
pub fn escape_at(bytes: &[u8], at: usize) -> Option<Escape>
    requires within { at < length bytes.now }
    requires backslash { slice_index bytes.now at ≡ 92 }
    ensures { MatchOption result ((c : Option ℕ) (b : ℕ) → IsEscape bytes.now at c b → ⊥) (λ found. IsEscape bytes.now at found.code found.end) }
{
    let next = at + 1;
    if next == bytes.len() {
        return None;
    }
    match mark_of(bytes[next]) {
        Mark::Letter(code) => Some(Escape {
            code: Some(code),
            end: at + 2,
        }),
        Mark::Octal => coded_at(bytes, next, 8),
        Mark::Hex => coded_at(bytes, at + 2, 16),
        Mark::Newline => Some(Escape {
            code: None,
            end: at + 2,
        }),
        Mark::Nothing => None,
    }
}
