ghost use Rattle.std.specs.Prelude.{◌≡◌, ◌≢◌, ℕ, ◌+◌, ◌<◌, ◌≤◌, ◌↔◌, length, slice_index, IsTrue, IfSome, MatchOption};
ghost use Rattle.std.specs.Char.{digit_value};
ghost use Rattle.prolog_tokens.specs.Numbers.{IsCodeMark, base_of, EndsBased, IsBased, is_exponent_mark, is_sign, after_sign, IsExponent, IsFraction};
ghost use Rattle.prolog_tokens.specs.Ends.{CodeEndIs, NumberEndIs};

use crate::chars::{char_end, is_inner};
use crate::digits::digits_end;
use crate::escapes::escape_at;

/// What follows `0'`: a character code and where it ends, a wrong escape, or no code.
#[derive(Clone, Copy, Debug, PartialEq, Eq)]
pub enum CodeEnd {
    Found(usize),
    Wrong,
    Absent,
}

/// The kind of a number and where it ends, or that the escape after its `0'` is wrong.
#[derive(Clone, Copy, Debug, PartialEq, Eq)]
pub enum NumberEnd {
    Whole(usize),
    Fraction(usize),
    BadCode,
}

fn is_exponent_mark(byte: u8) -> bool
    ensures { result ≡ is_exponent_mark byte }
{
    byte == b'e' || byte == b'E'
}

fn is_sign(byte: u8) -> bool
    ensures { result ≡ is_sign byte }
{
    byte == b'+' || byte == b'-'
}

/// The offset after the sign at `at`, or `at` if there is none.
fn after_sign(bytes: &[u8], at: usize) -> usize
    requires { at ≤ length bytes.now }
    ensures is { result ≡ after_sign bytes.now at }
    ensures within { result ≤ length bytes.now }
{
    if at == bytes.len() {
        return at;
    }
    if is_sign(bytes[at]) {
        return at + 1;
    }
    at
}

/// The end of the exponent of a float that begins at `at`, or `at` if none does.
fn exponent_end(bytes: &[u8], at: usize) -> usize
    requires { at ≤ length bytes.now }
    ensures exponent { IsExponent bytes.now at result }
    ensures longest { (e : ℕ) → IsExponent bytes.now at e → e ≤ result }
{
    if at == bytes.len() {
        return at;
    }
    if !is_exponent_mark(bytes[at]) {
        return at;
    }
    let digits = after_sign(bytes, at + 1);
    let end = digits_end(bytes, digits, 10);
    if end == digits {
        return at;
    }
    end
}

/// The end of the fraction of a float that begins at `at`, or None if none does.
fn fraction_end(bytes: &[u8], at: usize) -> Option<usize>
    requires { at ≤ length bytes.now }
    ensures fraction { MatchOption result ((e : ℕ) → IsFraction bytes.now at e → ⊥) (λ end. IsFraction bytes.now at end) }
    ensures longest { IfSome result (λ end. (e : ℕ) → IsFraction bytes.now at e → e ≤ end) }
{
    if at == bytes.len() {
        return None;
    }
    if bytes[at] != b'.' {
        return None;
    }
    let part = at + 1;
    let end = digits_end(bytes, part, 10);
    if end == part {
        return None;
    }
    Some(exponent_end(bytes, end))
}

/// The base that a letter after a 0 stands for: `b`, `o` and `x`.
pub fn base_of(letter: u8) -> Option<u8>
    ensures { result ≡ base_of letter }
{
    match letter {
        b'b' => Some(2),
        b'o' => Some(8),
        b'x' => Some(16),
        _ => None,
    }
}

/// The end of the integer with the letter of a base that begins at `start`, or None if none does.
fn based_end(bytes: &[u8], start: usize) -> Option<usize>
    requires { start < length bytes.now }
    ensures based { MatchOption result ((base n e : ℕ) → IsBased base bytes.now start n e → ⊥) (EndsBased bytes.now start) }
    ensures longest { IfSome result (λ end. (base n e : ℕ) → IsBased base bytes.now start n e → e ≤ end) }
{
    if bytes[start] != b'0' {
        return None;
    }
    if bytes.len() - start <= 2 {
        return None;
    }
    let base = base_of(bytes[start + 1])?;
    let digits = start + 2;
    let end = digits_end(bytes, digits, base);
    if end == digits {
        return None;
    }
    Some(end)
}

/// The end of a character code that is a quote: after `0'` a quote at `at` must be doubled.
fn doubled_end(bytes: &[u8], at: usize) -> CodeEnd
    requires within { at < length bytes.now }
    requires quote { slice_index bytes.now at ≡ 39 }
    ensures { CodeEndIs bytes.now at result }
{
    let next = at + 1;
    if next == bytes.len() {
        return CodeEnd::Absent;
    }
    if bytes[next] != b'\'' {
        return CodeEnd::Absent;
    }
    CodeEnd::Found(at + 2)
}

/// The end of the character code at `at`, after `0'`.
fn code_end(bytes: &[u8], at: usize) -> CodeEnd
    requires { at ≤ length bytes.now }
    ensures { CodeEndIs bytes.now at result }
{
    if at == bytes.len() {
        return CodeEnd::Absent;
    }
    let byte = bytes[at];
    if byte == b'\\' {
        let Some(found) = escape_at(bytes, at) else {
            return CodeEnd::Wrong;
        };
        return match found.code {
            Some(_) => CodeEnd::Found(found.end),
            None => CodeEnd::Wrong,
        };
    }
    if byte == b'\'' {
        return doubled_end(bytes, at);
    }
    if byte == b'\n' {
        return CodeEnd::Absent;
    }
    if is_inner(bytes, at) {
        return CodeEnd::Absent;
    }
    CodeEnd::Found(char_end(bytes, at))
}

/// Whether `0'` is at `start`.
fn is_code_mark(bytes: &[u8], start: usize) -> bool
    requires { start < length bytes.now }
    ensures { IsTrue result ↔ IsCodeMark bytes.now start }
{
    if bytes[start] != b'0' {
        return false;
    }
    let next = start + 1;
    if next == bytes.len() {
        return false;
    }
    bytes[next] == b'\''
}

/// The number that begins with the digit at `start` (ISO/IEC 13211-1, 6.4.4 and 6.4.5).
pub fn number_end(bytes: &[u8], start: usize) -> NumberEnd
    requires within { start < length bytes.now }
    requires digit { digit_value (slice_index bytes.now start) < 10 }
    ensures { NumberEndIs bytes.now start result }
{
    if is_code_mark(bytes, start) {
        return match code_end(bytes, start + 2) {
            CodeEnd::Found(end) => NumberEnd::Whole(end),
            CodeEnd::Wrong => NumberEnd::BadCode,
            CodeEnd::Absent => NumberEnd::Whole(start + 1),
        };
    }
    if let Some(end) = based_end(bytes, start) {
        return NumberEnd::Whole(end);
    }
    let dot = digits_end(bytes, start, 10);
    if let Some(end) = fraction_end(bytes, dot) {
        return NumberEnd::Fraction(end);
    }
    NumberEnd::Whole(dot)
}
