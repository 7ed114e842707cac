//! Lexing in parts: each span of a text is cut as if a token began at its start, and the rows of
//! tokens become those of the text.

ghost use Rattle.std.specs.Prelude.{◌≡◌, ◌≢◌, ◌+◌, ◌<◌, ◌≤◌, ◌⊎◌, ℕ, List, [], length, slice_index, All, IfOk, IfErr, IfSome, true};
ghost use Rattle.prolog_tokens.specs.declared.rows.TheConstants.{SPAN_BYTES};
ghost use Rattle.prolog_tokens.specs.declared.limits.TheConstants.{MOST_BYTES};
ghost use Rattle.prolog_tokens.specs.Cut.{IsCut, IsWrongNext, HasFault};
ghost use Rattle.prolog_tokens.specs.Places.{IsOffset, fault_offset};
ghost use Rattle.prolog_tokens.specs.Rows.{IsBegin, IsSpan, BeginsWithNewline, HasBytes, StandSideBySide, StandsFrom, IsRow, IsRowOf, GoesOn};
ghost use Rattle.prolog_tokens.specs.Rows.{StandsNext, BeginsAfterEnd, EndsClause, EachEndsClause, tokens_of};

use crate::cut::next_token;
use crate::layout::newline_at;
use crate::token::{Kind, Token, TokenFault};
use std::alloc::{AllocError, Global};

/// How many bytes a token of a dense text takes, with the layout before it. Capacity for more
/// tokens than a text has costs nothing while it isn't touched.
pub(crate) const TOKEN_BYTES: usize = 3;

/// How many bytes a span has at least, except the last one of a text. A row that begins within a
/// comment may search the rest of the text for a closing quote in vain, so there are few spans.
const SPAN_BYTES: usize = 262_144;

/// A part of a text, from where a character begins up to another byte offset.
#[derive(Clone, Copy)]
pub struct Span {
    pub from: usize,
    pub to: usize,
}

/// Successive tokens, and where the last of them ends.
#[derive(Drop)]
pub struct TokenRow {
    pub tokens: Vec<Token>,
    pub end: usize,
}

/// The end of the span from an offset on: at a newline or at the end of the text.
fn span_end(text: &str, from: usize) -> usize
    requires { from < length text.now }
    ensures some { from < result }
    ensures long { (from + SPAN_BYTES ≤ result) ⊎ (result ≡ length text.now) }
    ensures newline { (result ≡ length text.now) ⊎ (slice_index text.now result ≡ 10) }
    ensures begins { IsBegin text.now result }
{
    let bytes = text.as_bytes();
    let size = SPAN_BYTES.min(bytes.len() - from);
    newline_at(bytes, from + size)
}

/// Cuts a text into adjacent spans, from its beginning to its end. Each except the first begins
/// with a newline, and each except the last has at least 262,144 bytes.
pub fn spans(alloc: Global, text: &str) -> Result<Vec<Span>, AllocError>
    ensures spans { IfOk result (λ spans. All (IsSpan text.now) spans.items) }
    ensures whole { IfOk result (λ spans. StandSideBySide 0 spans.items (length text.now)) }
    ensures newlines { IfOk result (λ spans. All (BeginsWithNewline text.now) spans.items) }
    ensures long { IfOk result (λ spans. All (HasBytes SPAN_BYTES text.now) spans.items) }
{
    let mut spans = Vec::new(alloc);
    let mut from = 0;
    while from < text.len() {
        let to = span_end(text, from);
        spans.push(Span { from, to })?;
        from = to;
    }
    Ok(spans)
}

/// Extends the row by the next tokens that start before `to`. Returns the token after them, or None
/// at the end of the text.
pub(crate) fn go_on(text: &str, row: &mut TokenRow, to: usize) -> Result<Option<Token>, TokenFault>
    requires small { length text.now ≤ MOST_BYTES }
    requires begins { IsBegin text.now row.old.end }
    ensures row { GoesOn text.now row.old row.new }
    ensures before { All (λ t. t.start < to) row.old.tokens.items → All (λ t. t.start < to) row.new.tokens.items }
    ensures begins { IsBegin text.now row.new.end }
    ensures next { IfOk result (λ next. StandsNext text.now row.new.end to next) }
    ensures fault { IfErr result (λ fault. fault ≢ TokenFault.NoMemory → IsWrongNext text.now row.new.end fault) }
{
    while let Some(token) = next_token(text, row.end)? {
        if token.start as usize >= to {
            return Ok(Some(token));
        }
        row.tokens.push(token)?;
        row.end = token.end as usize;
    }
    Ok(None)
}

/// The successive tokens from the beginning of the span on, as many as start before its end. There
/// are fewer if an error follows them. Fails only if memory runs out.
pub fn tokens_in(alloc: Global, text: &str, span: &Span) -> Result<TokenRow, AllocError>
    requires small { length text.now ≤ MOST_BYTES }
    requires span { IsSpan text.now span.now }
    ensures row { IfOk result (IsRow text.now) }
    ensures all { IfOk result (IsRowOf text.now span.now) }
{
    let mut row = TokenRow {
        tokens: Vec::with_capacity(alloc, SPAN_BYTES / TOKEN_BYTES)?,
        end: span.from,
    };
    let Err(fault) = go_on(text, &mut row, span.to) else {
        return Ok(row);
    };
    match fault {
        TokenFault::NoMemory => Err(AllocError),
        _ => Ok(row),
    }
}

/// The part of the span after its first End, cut as if a token began at its start. It is the whole
/// span if no End is found there. A row that begins after an End needn't be joined to another.
pub fn after_end(text: &str, span: &Span) -> Span
    requires small { length text.now ≤ MOST_BYTES }
    requires span { IsSpan text.now span.now }
    ensures span { IsSpan text.now result }
    ensures end { (result ≡ span.now) ⊎ BeginsAfterEnd text.now span.now result }
{
    let mut at = span.from;
    while let Ok(Some(token)) = next_token(text, at) {
        if token.start as usize >= span.to {
            break;
        }
        at = token.end as usize;
        if token.kind == Kind::End {
            let to = span.to;
            return Span { from: at, to };
        }
    }
    *span
}

/// Extends the row up to the first token of the next row. Returns whether that token occurs there:
/// then all tokens of the next row do. If not, it was no token.
fn meets(text: &str, row: &mut TokenRow, next: &TokenRow) -> Result<bool, TokenFault>
    requires small { length text.now ≤ MOST_BYTES }
    requires begins { IsBegin text.now row.old.end }
    requires next { IsRow text.now next.now }
    ensures row { GoesOn text.now row.old row.new }
    ensures begins { IsBegin text.now row.new.end }
    ensures next { IfOk result (λ meets. meets ≡ true → StandsFrom text.now row.new.end next.now) }
    ensures fault { IfErr result (λ fault. fault ≢ TokenFault.NoMemory → IsWrongNext text.now row.new.end fault) }
{
    let Some(first) = next.tokens.first() else {
        return Ok(false);
    };
    let start = first.start;
    let after_layout = first.after_layout;
    let Some(token) = go_on(text, row, start as usize)? else {
        return Ok(false);
    };
    if token.start != start {
        return Ok(false);
    }
    if token.after_layout != after_layout {
        return Ok(false);
    }
    Ok(true)
}

/// Whether the last of the tokens is an End, if there are any.
fn ends_clause(tokens: &[Token]) -> bool
    ensures { result ≡ true → EndsClause tokens.now }
{
    let Some(last) = tokens.last() else {
        return true;
    };
    last.kind == Kind::End
}

/// The tokens of a text of at most 8,388,608 bytes in rows, or its first error, like `tokens`. Each
/// row except the last one ends with an End, or is empty.
///
/// It takes over rows that were cut from the text: the tokens of a row are tokens of the text if
/// its first one is. A row stays as it is if an End is before it, and is appended to the tokens
/// before it otherwise.
pub fn clause_rows(
    alloc: Global,
    text: &str,
    rows: Vec<TokenRow>,
) -> Result<Vec<Vec<Token>>, TokenFault>
    requires small { length text.now ≤ MOST_BYTES }
    requires rows { All (IsRow text.now) rows.items }
    ensures ok { IfOk result (λ found. IsCut text.now (tokens_of found.items)) }
    ensures only { IfOk result (λ found. (others : List Token) → IsCut text.now others → others ≡ tokens_of found.items) }
    ensures no_fault { IfOk result (λ _. (fault : TokenFault) → HasFault text.now fault → ⊥) }
    ensures ends { IfOk result (λ found. EachEndsClause found.items) }
    ensures fault { IfErr result (λ fault. fault ≢ TokenFault.NoMemory → HasFault text.now fault) }
    ensures only_fault { IfErr result (λ fault. fault ≢ TokenFault.NoMemory → (other : TokenFault) → HasFault text.now other → other ≡ fault) }
    ensures no_cut { IfErr result (λ fault. fault ≢ TokenFault.NoMemory → (others : List Token) → IsCut text.now others → ⊥) }
    ensures place { IfErr result (λ fault. IfSome (fault_offset fault) (λ at. IsOffset text.now at)) }
{
    let mut done = Vec::with_capacity(alloc, rows.len())?;
    let mut row = TokenRow {
        tokens: Vec::with_capacity(alloc, text.len() / TOKEN_BYTES)?,
        end: 0,
    };
    for mut next in rows {
        if !meets(text, &mut row, &next)? {
            continue;
        }
        if ends_clause(&row.tokens) {
            done.push(row.tokens)?;
            row = next;
        } else {
            row.tokens.append(&mut next.tokens)?;
            row.end = next.end;
        }
    }
    go_on(text, &mut row, text.len())?;
    done.push(row.tokens)?;
    Ok(done)
}
