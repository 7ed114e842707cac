ghost use Rattle.std.specs.Prelude.{◌≡◌, ◌≢◌, ◌+◌, ◌-◌, ◌*◌, ◌<◌, ◌≤◌, ◌⊎◌, List, ℕ, Option, Some, None, IfOk, MatchOption, length, slice_index, slice_range};
ghost use Rattle.std.specs.String.{string_bytes};
ghost use Rattle.prolog_tokens.specs.Digits.{number_at};
ghost use Rattle.prolog_tokens.specs.Chars.{class_at};
ghost use Rattle.prolog_tokens.specs.Quoted.{NoPart, IsQuote, IsQuoted};
ghost use Rattle.prolog_tokens.specs.Numbers.{Code, IsCode, IsInteger};
ghost use Rattle.prolog_tokens.specs.Spelling.{IsSpelled};
ghost use Rattle.prolog_tokens.specs.Values.{IsQuotedText, IsNameText, IsIntegerValue, IsRead, IsMeant};

use crate::chars::Class;
use crate::digits::capped_number;
use crate::escapes::{Escape, escape_at};
use crate::numbers::base_of;
use crate::quoted::plain_end;
use crate::text::Text;
use crate::token::{Kind, Token};
use std::alloc::{AllocError, Global};

/// The name of a Name token, which is its text (ISO/IEC 13211-1, 6.4.2).
pub fn name_slice<'a>(text: &'a str, token: Token) -> &'a str
    requires name { token.kind ≡ Kind.Name }
    requires spelled { IsSpelled text.now token.kind token.start token.end }
    ensures name { IsNameText text.now token result.now }
    ensures slice { result.now ≡ slice_range text.now token.start token.end }
{
    &text[token.start as usize..token.end as usize]
}

/// The character that a part of a quoted item means, and the end of that part. It is called where a
/// quote or a backslash is. None if no part begins there.
fn meant_at(bytes: &[u8], at: usize, quote: u8) -> Option<Escape>
    requires within { at ≤ length bytes.now }
    requires quote { IsQuote quote }
    requires special { at < length bytes.now → (slice_index bytes.now at ≡ quote) ⊎ (slice_index bytes.now at ≡ 92) }
    ensures { MatchOption result (NoPart bytes.now quote at) (λ found. IsMeant bytes.now quote at found.code found.end) }
{
    if at == bytes.len() {
        return None;
    }
    if bytes[at] == b'\\' {
        return escape_at(bytes, at);
    }
    let next = at + 1;
    if next == bytes.len() {
        return None;
    }
    if bytes[next] != quote {
        return None;
    }
    Some(Escape {
        code: Some(quote as char),
        end: at + 2,
    })
}

/// The text between the quotes of a quoted item. Doubled quotes are single in it, and escapes are
/// replaced.
fn unquoted(alloc: Global, text: &str, start: usize, quote: u8) -> Result<String, AllocError>
    requires quote { IsQuote quote }
    requires quoted { (end : ℕ) × IsQuoted text.now quote start end }
    ensures { IfOk result (λ name. (end : ℕ) → IsQuoted text.now quote start end → IsQuotedText text.now quote start end (string_bytes name)) }
{
    let bytes = text.as_bytes();
    let mut name = String::new(alloc);
    let mut at = start + 1;
    loop {
        let next = plain_end(bytes, at, quote);
        name.push_str(&text[at..next])?;
        match meant_at(bytes, next, quote) {
            None => return Ok(name),
            Some(
                Escape {
                    code: Some(character),
                    end,
                },
            ) => {
                name.push(character)?;
                at = end;
            }
            Some(Escape { code: None, end }) => at = end,
        }
    }
}

/// The name of a Name or Quoted token: without quotes, and with escapes replaced (ISO/IEC 13211-1,
/// 6.4.2). Fails only if memory runs out.
pub fn name_text(alloc: Global, text: &str, token: Token) -> Result<Text, AllocError>
    requires named { (token.kind ≡ Kind.Name) ⊎ (token.kind ≡ Kind.Quoted) }
    requires spelled { IsSpelled text.now token.kind token.start token.end }
    ensures name { IfOk result (λ name. IsNameText text.now token name) }
    ensures only { IfOk result (λ name. (other : List ℕ) → IsNameText text.now token other → other ≡ name) }
{
    match token.kind {
        Kind::Quoted => {
            let name = unquoted(alloc, text, token.start as usize, b'\'')?;
            Ok(Text::from_string(name))
        }
        _ => Text::new(alloc, name_slice(text, token)),
    }
}

/// The number that digits of a base write, if it is at most 4,294,967,295.
fn digits_value(bytes: &[u8], from: usize, to: usize, base: u8) -> Option<u32>
    requires order { from ≤ to }
    requires within { to ≤ length bytes.now }
    requires base { 0 < base }
    ensures { IsRead (number_at base bytes.now from (to - from)) result }
{
    u32::try_from(capped_number(bytes, from, to, base)).ok()
}

/// The code of the character that is written after `0'`, from `at` on.
fn code_value(text: &str, at: usize) -> Option<u32>
    requires begins { class_at text.now at ≢ Class.Inner }
    ensures { (c b : ℕ) (how : Code) → IsCode text.now at c b how → IsRead c result }
{
    let bytes = text.as_bytes();
    if at >= bytes.len() {
        return None;
    }
    if bytes[at] == b'\'' {
        return Some(u32::from(b'\''));
    }
    if bytes[at] == b'\\' {
        let code = escape_at(bytes, at)?.code?;
        return Some(u32::from(code));
    }
    let code = text[at..].chars().next()?;
    Some(u32::from(code))
}

/// The value of the integer that is written from `start` to `end`.
#[inline(never)]
fn number_value(text: &str, start: usize, end: usize) -> Option<u32>
    requires some { start < end }
    requires within { end ≤ length text.now }
    ensures { (n : ℕ) → IsInteger text.now start n end → IsRead n result }
{
    let bytes = text.as_bytes();
    let second = start + 1;
    if second == end {
        return digits_value(bytes, start, end, 10);
    }
    if bytes[second] == b'\'' {
        return code_value(text, second + 1);
    }
    match base_of(bytes[second]) {
        Some(base) => digits_value(bytes, second + 1, end, base),
        None => digits_value(bytes, start, end, 10),
    }
}

/// The value of an Integer token (ISO/IEC 13211-1, 6.4.4). None if it is over 4,294,967,295, and
/// for a token of another kind.
#[inline(always)]
pub fn integer_value(text: &str, token: Token) -> Option<u32>
    requires spelled { IsSpelled text.now token.kind token.start token.end }
    ensures value { IsIntegerValue text.now token result }
    ensures only { (other : Option ℕ) → IsIntegerValue text.now token other → other ≡ result }
{
    match token.kind {
        Kind::Integer => number_value(text, token.start as usize, token.end as usize),
        _ => None,
    }
}
