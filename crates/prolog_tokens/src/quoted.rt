ghost use Rattle.std.specs.Prelude.{◌≡◌, ◌≢◌, ℕ, ◌<◌, ◌≤◌, ◌⊎◌, length, slice_index, MatchOption};
ghost use Rattle.prolog_tokens.specs.Quoted.{Part, IsPart, NoPart, IsQuote};
ghost use Rattle.prolog_tokens.specs.Ends.{QuotedEndIs};

use crate::escapes::escape_at;

/// How a quoted item ends: after its closing quote, not at all, or with a bad escape at an offset.
#[derive(Clone, Copy, Debug, PartialEq, Eq)]
pub enum QuotedEnd {
    Closed(usize),
    Open,
    BadEscape(usize),
}

/// The end of the bytes from `from` on that mean themselves: up to a quote or a backslash.
pub fn plain_end(bytes: &[u8], from: usize, quote: u8) -> usize
    requires { from ≤ length bytes.now }
    ensures from { from ≤ result }
    ensures within { result ≤ length bytes.now }
    ensures no_quote { (k : ℕ) → from ≤ k → k < result → slice_index bytes.now k ≢ quote }
    ensures no_backslash { (k : ℕ) → from ≤ k → k < result → slice_index bytes.now k ≢ 92 }
    ensures stops { result < length bytes.now → (slice_index bytes.now result ≡ quote) ⊎ (slice_index bytes.now result ≡ 92) }
{
    let mut end = from;
    while end < bytes.len() {
        let byte = bytes[end];
        if byte == quote {
            return end;
        }
        if byte == b'\\' {
            return end;
        }
        end += 1;
    }
    end
}

/// The end of the part of a quoted item that begins at `at`, or None if none does.
fn part_end(bytes: &[u8], at: usize, quote: u8) -> Option<usize>
    requires within { at ≤ length bytes.now }
    requires quote { IsQuote quote }
    ensures { MatchOption result (NoPart bytes.now quote at) (λ end. (part : Part) × IsPart bytes.now quote at part end) }
{
    if at == bytes.len() {
        return None;
    }
    if bytes[at] == b'\\' {
        let found = escape_at(bytes, at)?;
        return Some(found.end);
    }
    if bytes[at] != quote {
        return Some(at + 1);
    }
    let next = at + 1;
    if next == bytes.len() {
        return None;
    }
    if bytes[next] != quote {
        return None;
    }
    Some(at + 2)
}

/// How the quoted item that begins with the quote at `start` ends.
pub fn quoted_end(bytes: &[u8], start: usize, quote: u8) -> QuotedEnd
    requires within { start < length bytes.now }
    requires quote { IsQuote quote }
    requires opens { slice_index bytes.now start ≡ quote }
    ensures { QuotedEndIs bytes.now quote start result }
{
    let mut at = plain_end(bytes, start + 1, quote);
    while let Some(end) = part_end(bytes, at, quote) {
        at = plain_end(bytes, end, quote);
    }
    if at == bytes.len() {
        return QuotedEnd::Open;
    }
    if bytes[at] == quote {
        return QuotedEnd::Closed(at + 1);
    }
    QuotedEnd::BadEscape(at)
}
