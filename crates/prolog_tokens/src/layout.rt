ghost use Rattle.std.specs.Prelude.{◌≡◌, ◌≢◌, ◌<◌, ◌≤◌, ◌⊎◌, ◌↔◌, length, IsTrue, IfOk, IfErr, MatchOption, MatchResult};
ghost use Rattle.prolog_tokens.specs.declared.limits.TheConstants.{MOST_BYTES};
ghost use Rattle.prolog_tokens.specs.Chars.{class_at as class_of_place};
ghost use Rattle.prolog_tokens.specs.Layout.{GoesToNewline, IsOpener, IsCloser, IsOrderMark, IsBracketed, IsHashBang, EndsPiece, bracketed, IsPiece, IsLayout};
ghost use Rattle.prolog_tokens.specs.Faults.{IsOpenComment, IsWrong};
ghost use Rattle.prolog_tokens.specs.Begins.{BeginsNoLayout};
ghost use Rattle.prolog_tokens.specs.Cut.{IsWrongNext};

use crate::chars::{Class, char_end, class_at};
use crate::token::TokenFault;

/// The next newline from `from` on, or the end of the text.
pub fn newline_at(bytes: &[u8], from: usize) -> usize
    requires { from ≤ length bytes.now }
    ensures { GoesToNewline bytes.now from result }
{
    let mut end = from;
    while end < bytes.len() {
        if bytes[end] == b'\n' {
            return end;
        }
        end += 1;
    }
    end
}

/// Whether `/*` is at the offset.
fn begins_comment(bytes: &[u8], at: usize) -> bool
    requires { at < length bytes.now }
    ensures { IsTrue result ↔ IsOpener bytes.now at }
{
    if bytes[at] != b'/' {
        return false;
    }
    let next = at + 1;
    if next == bytes.len() {
        return false;
    }
    bytes[next] == b'*'
}

/// Whether `*/` is at the offset.
fn is_closer(bytes: &[u8], at: usize) -> bool
    requires { at < length bytes.now }
    ensures { IsTrue result ↔ IsCloser bytes.now at }
{
    if bytes[at] != b'*' {
        return false;
    }
    let next = at + 1;
    if next == bytes.len() {
        return false;
    }
    bytes[next] == b'/'
}

/// The end of the bracketed comment that begins at `start`, or None if it isn't closed.
fn bracketed_end(bytes: &[u8], start: usize) -> Option<usize>
    requires within { start < length bytes.now }
    requires opens { IsOpener bytes.now start }
    ensures { MatchOption result (IsOpenComment bytes.now start) (λ end. IsBracketed bytes.now start end) }
{
    let mut close = start + 2;
    while close < bytes.len() {
        if is_closer(bytes, close) {
            return Some(close + 2);
        }
        close += 1;
    }
    None
}

/// The end of the bracketed comment that begins at `at`, or None if none does. Fails if it isn't
/// closed.
fn comment_end(bytes: &[u8], at: usize) -> Result<Option<usize>, TokenFault>
    requires small { length bytes.now ≤ MOST_BYTES }
    requires within { at < length bytes.now }
    ensures { MatchResult result (λ found. MatchOption found (IsOpener bytes.now at → ⊥) (λ end. IsPiece bytes.now at end bracketed)) (IsWrong bytes.now at) }
{
    if !begins_comment(bytes, at) {
        return Ok(None);
    }
    match bracketed_end(bytes, at) {
        Some(end) => Ok(Some(end)),
        None => Err(TokenFault::OpenComment(at as u32)),
    }
}

/// Whether `at` is the beginning of the text, or directly after the U+FEFF there.
fn opens_text(text: &str, at: usize) -> bool
    requires { at < length text.now }
    ensures { IsTrue result ↔ ((at ≡ 0) ⊎ IsOrderMark text.now at) }
{
    if at == 0 {
        return true;
    }
    match class_at(text, 0) {
        Class::OrderMark => char_end(text.as_bytes(), 0) == at,
        _ => false,
    }
}

/// Whether `#!` is at the offset, and begins layout there: only the beginning of the text allows
/// it.
fn is_hash_bang(text: &str, at: usize) -> bool
    requires { at < length text.now }
    ensures { IsTrue result ↔ IsHashBang text.now at }
{
    let bytes = text.as_bytes();
    if bytes[at] != b'#' {
        return false;
    }
    let next = at + 1;
    if next == bytes.len() {
        return false;
    }
    if bytes[next] != b'!' {
        return false;
    }
    opens_text(text, at)
}

/// The end of the piece of layout that begins at `at`, or None if none does.
fn piece_end(text: &str, at: usize) -> Result<Option<usize>, TokenFault>
    requires small { length text.now ≤ MOST_BYTES }
    requires within { at ≤ length text.now }
    ensures { MatchResult result (λ found. MatchOption found (BeginsNoLayout text.now at) (EndsPiece text.now at)) (IsWrong text.now at) }
{
    let bytes = text.as_bytes();
    match class_at(text, at) {
        Class::White => Ok(Some(char_end(bytes, at))),
        Class::Percent => Ok(Some(newline_at(bytes, at))),
        Class::Slash => comment_end(bytes, at),
        Class::OrderMark => {
            if at != 0 {
                return Ok(None);
            }
            Ok(Some(char_end(bytes, at)))
        }
        Class::Graphic => {
            if !is_hash_bang(text, at) {
                return Ok(None);
            }
            Ok(Some(newline_at(bytes, at)))
        }
        _ => Ok(None),
    }
}

/// The end of the layout from `from` on (ISO/IEC 13211-1, 6.4.1). Fails at a bracketed comment that
/// isn't closed.
pub fn layout_end(text: &str, from: usize) -> Result<usize, TokenFault>
    requires small { length text.now ≤ MOST_BYTES }
    requires within { from ≤ length text.now }
    requires begins { class_of_place text.now from ≢ Class.Inner }
    ensures layout { IfOk result (λ end. IsLayout text.now from end) }
    ensures within { IfOk result (λ end. end ≤ length text.now) }
    ensures begins { IfOk result (λ end. class_of_place text.now end ≢ Class.Inner) }
    ensures no_layout { IfOk result (λ end. BeginsNoLayout text.now end) }
    ensures fault { IfErr result (λ fault. IsWrongNext text.now from fault) }
{
    let mut end = from;
    while let Some(next) = piece_end(text, end)? {
        end = next;
    }
    Ok(end)
}
