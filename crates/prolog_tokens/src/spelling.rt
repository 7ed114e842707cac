ghost use Rattle.std.specs.Prelude.{◌≡◌, ◌≢◌, ℕ, ◌+◌, ◌<◌, ◌≤◌, ◌↔◌, length, true, false, slice_index, IsTrue, MatchResult};
ghost use Rattle.std.specs.Char.{digit_value};
ghost use Rattle.prolog_tokens.specs.declared.limits.TheConstants.{MOST_BYTES};
ghost use Rattle.prolog_tokens.specs.Chars.{class_at as class_of_place, continues, is_graphic};
ghost use Rattle.prolog_tokens.specs.Quoted.{IsQuote, IsQuoted};
ghost use Rattle.prolog_tokens.specs.Layout.{IsOpener, IsHashBang};
ghost use Rattle.prolog_tokens.specs.Spelling.{IsRun, IsEnd, IsSpelled};
ghost use Rattle.prolog_tokens.specs.Faults.{IsWrong};
ghost use Rattle.prolog_tokens.specs.Begins.{BeginsNoLayout};

use crate::chars::{Class, class_at};
use crate::numbers::{NumberEnd, number_end};
use crate::quoted::{QuotedEnd, quoted_end};
use crate::token::{Kind, TokenFault};

/// A token's kind and where it ends.
#[derive(Clone, Copy, Debug, PartialEq, Eq)]
pub struct Spelling {
    pub kind: Kind,
    pub end: usize,
}

/// The end of the characters from `from` on that continue a name.
fn word_end(text: &str, from: usize) -> usize
    requires { from ≤ length text.now }
    ensures from { from ≤ result }
    ensures within { result ≤ length text.now }
    ensures goes_on { (k : ℕ) → from ≤ k → k < result → continues (class_of_place text.now k) ≡ true }
    ensures stops { continues (class_of_place text.now result) ≡ false }
{
    let mut end = from;
    while end < text.len() {
        if !class_at(text, end).continues() {
            return end;
        }
        end += 1;
    }
    end
}

/// The end of the run of graphic characters that begins at `start`.
fn run_end(text: &str, start: usize) -> usize
    requires within { start < length text.now }
    requires graphic { is_graphic (class_of_place text.now start) ≡ true }
    ensures { IsRun text.now start result }
{
    let mut end = start + 1;
    while end < text.len() {
        if !class_at(text, end).is_graphic() {
            return end;
        }
        end += 1;
    }
    end
}

/// Whether the run is an end token.
fn is_end(text: &str, start: usize, end: usize) -> bool
    requires { IsRun text.now start end }
    ensures { IsTrue result ↔ IsEnd text.now start end }
{
    if end != start + 1 {
        return false;
    }
    if text.as_bytes()[start] != b'.' {
        return false;
    }
    match class_at(text, end) {
        Class::White => true,
        Class::Percent => true,
        _ => end == text.len(),
    }
}

/// The graphic token that begins at `start`.
fn spell_run(text: &str, start: usize) -> Spelling
    requires within { start < length text.now }
    requires graphic { is_graphic (class_of_place text.now start) ≡ true }
    requires no_comment { IsOpener text.now start → ⊥ }
    requires no_hash_bang { IsHashBang text.now start → ⊥ }
    ensures { IsSpelled text.now result.kind start result.end }
{
    let end = run_end(text, start);
    if is_end(text, start, end) {
        return Spelling {
            kind: Kind::End,
            end,
        };
    }
    Spelling {
        kind: Kind::Name,
        end,
    }
}

/// The quoted item that begins with the quote at `start`, as a token of the kind. Fails if the
/// quote isn't closed or an escape is wrong.
fn spell_quoted(bytes: &[u8], start: usize, quote: u8, kind: Kind) -> Result<Spelling, TokenFault>
    requires small { length bytes.now ≤ MOST_BYTES }
    requires within { start < length bytes.now }
    requires quote { IsQuote quote }
    requires opens { slice_index bytes.now start ≡ quote }
    ensures { MatchResult result (λ spelling. (spelling.kind ≡ kind) × IsQuoted bytes.now quote start spelling.end) (λ fault. IsWrong bytes.now start fault) }
{
    match quoted_end(bytes, start, quote) {
        QuotedEnd::Closed(end) => Ok(Spelling { kind, end }),
        QuotedEnd::Open => Err(TokenFault::OpenQuote(start as u32)),
        QuotedEnd::BadEscape(at) => Err(TokenFault::BadEscape(at as u32)),
    }
}

/// The number that begins with the digit at `start`. Fails if the escape after `0'` is wrong.
fn spell_number(bytes: &[u8], start: usize) -> Result<Spelling, TokenFault>
    requires small { length bytes.now ≤ MOST_BYTES }
    requires within { start < length bytes.now }
    requires digit { digit_value (slice_index bytes.now start) < 10 }
    ensures { MatchResult result (λ spelling. IsSpelled bytes.now spelling.kind start spelling.end) (λ fault. IsWrong bytes.now start fault) }
{
    match number_end(bytes, start) {
        NumberEnd::Whole(end) => Ok(Spelling {
            kind: Kind::Integer,
            end,
        }),
        NumberEnd::Fraction(end) => Ok(Spelling {
            kind: Kind::Float,
            end,
        }),
        NumberEnd::BadCode => Err(TokenFault::BadEscape(start as u32 + 2)),
    }
}

/// The ASCII character at `start` as a token of the kind.
#[inline(always)]
fn spell_one(start: usize, kind: Kind) -> Spelling
    requires { start < MOST_BYTES }
    ensures { result ≡ record { kind = kind; end = start + 1 } }
{
    Spelling {
        kind,
        end: start + 1,
    }
}

/// The token that begins at `start`, which must not begin layout (ISO/IEC 13211-1, 6.4).
pub fn spell(text: &str, start: usize) -> Result<Spelling, TokenFault>
    requires small { length text.now ≤ MOST_BYTES }
    requires within { start < length text.now }
    requires begins { class_of_place text.now start ≢ Class.Inner }
    requires no_layout { BeginsNoLayout text.now start }
    ensures { MatchResult result (λ spelling. IsSpelled text.now spelling.kind start spelling.end) (λ fault. IsWrong text.now start fault) }
{
    let bytes = text.as_bytes();
    match class_at(text, start) {
        Class::Small => Ok(Spelling {
            kind: Kind::Name,
            end: word_end(text, start + 1),
        }),
        Class::Capital => Ok(Spelling {
            kind: Kind::Variable,
            end: word_end(text, start + 1),
        }),
        Class::Digit => spell_number(bytes, start),
        Class::SingleQuote => spell_quoted(bytes, start, b'\'', Kind::Quoted),
        Class::DoubleQuote => spell_quoted(bytes, start, b'"', Kind::Str),
        Class::BackQuote => spell_quoted(bytes, start, b'`', Kind::BackStr),
        Class::Dot => Ok(spell_run(text, start)),
        Class::Slash => Ok(spell_run(text, start)),
        Class::Graphic => Ok(spell_run(text, start)),
        Class::Solo => Ok(spell_one(start, Kind::Name)),
        Class::RoundOpen => Ok(spell_one(start, Kind::OpenRound)),
        Class::RoundClose => Ok(spell_one(start, Kind::CloseRound)),
        Class::SquareOpen => Ok(spell_one(start, Kind::OpenSquare)),
        Class::SquareClose => Ok(spell_one(start, Kind::CloseSquare)),
        Class::CurlyOpen => Ok(spell_one(start, Kind::OpenCurly)),
        Class::CurlyClose => Ok(spell_one(start, Kind::CloseCurly)),
        Class::CommaSign => Ok(spell_one(start, Kind::Comma)),
        Class::BarSign => Ok(spell_one(start, Kind::Bar)),
        _ => Err(TokenFault::BadChar(start as u32)),
    }
}
