ghost use Rattle.std.specs.Prelude.{◌≤◌, length, IfOk};
ghost use Rattle.prolog_tokens.specs.declared.limits.TheConstants.{MOST_BYTES};
ghost use Rattle.prolog_tokens.specs.Cut.{IsTokenOf};
ghost use Rattle.prolog_tokens.specs.Rows.{IsSpan};

use crate::pieces::push_made;
use prolog_tokens::{
    Kind, Span, Text, Token, TokenFault, cut_tokens, integer_value, is_bare_name, name_slice,
    name_text, spans, tokens, tokens_in,
};
use std::alloc::{AllocError, Global};
use std::cmp::Ordering;

/// The letter or sign for a kind.
fn sign(kind: Kind) -> char {
    match kind {
        Kind::Name => 'N',
        Kind::Quoted => 'Q',
        Kind::Variable => 'V',
        Kind::Integer => 'I',
        Kind::Float => 'F',
        Kind::Str => 'S',
        Kind::BackStr => 'B',
        Kind::OpenRound => '(',
        Kind::CloseRound => ')',
        Kind::OpenSquare => '[',
        Kind::CloseSquare => ']',
        Kind::OpenCurly => '{',
        Kind::CloseCurly => '}',
        Kind::Comma => ',',
        Kind::Bar => '|',
        Kind::End => '.',
    }
}

/// Adds a token in words: the sign of its kind, and where it starts and ends. A `+` is before them
/// if layout or the beginning of the text is directly before the token.
fn push_token(alloc: Global, out: &mut String, gap: &str, token: &Token) -> Result<(), AllocError> {
    let plus = if token.after_layout { "+" } else { "" };
    let (sign, start, end) = (sign(token.kind), token.start, token.end);
    push_made(out, format!(in alloc; "{gap}{plus}{sign}{start}-{end}"))
}

/// The tokens in words, with a blank between.
fn words(alloc: Global, tokens: &[Token]) -> Result<String, AllocError> {
    let mut words = String::new(alloc);
    for token in tokens {
        let gap = if words.is_empty() { "" } else { " " };
        push_token(alloc, &mut words, gap, token)?;
    }
    Ok(words)
}

/// The tokens in words, or why there are none.
pub fn tokens_told(alloc: Global, text: &str) -> Result<String, AllocError>
    requires { length text.now ≤ MOST_BYTES }
{
    match tokens(alloc, text) {
        Ok(found) => words(alloc, found.as_slice()),
        Err(fault) => format!(in alloc; "{fault:?}"),
    }
}

/// Adds a span of the text, how many tokens start in it, and where they end.
fn push_row(
    alloc: Global,
    out: &mut String,
    gap: &str,
    text: &str,
    span: &Span,
) -> Result<(), AllocError>
    requires small { length text.now ≤ MOST_BYTES }
    requires span { IsSpan text.now span.now }
{
    let row = tokens_in(alloc, text, span)?;
    let (from, to, count, end) = (span.from, span.to, row.tokens.len(), row.end);
    push_made(
        out,
        format!(in alloc; "{gap}{from}-{to}: {count} up to {end}"),
    )
}

/// The spans of the text with their rows.
pub fn rows_told(alloc: Global, text: &str) -> Result<String, AllocError>
    requires { length text.now ≤ MOST_BYTES }
{
    let found = spans(alloc, text)?;
    let mut told = String::new(alloc);
    for span in &found {
        let gap = if told.is_empty() { "" } else { ", " };
        push_row(alloc, &mut told, gap, text, span)?;
    }
    Ok(told)
}

/// There is no such token.
#[derive(Drop)]
struct NoToken;

impl From<TokenFault> for NoToken {
    fn from(_fault: TokenFault) -> NoToken {
        NoToken
    }
}

/// The token of the text at an index of its list.
fn token_at(alloc: Global, text: &str, index: usize) -> Result<Token, NoToken>
    requires { length text.now ≤ MOST_BYTES }
    ensures { IfOk result (λ token. IsTokenOf text.now token) }
{
    let found = tokens(alloc, text)?;
    if index >= found.len() {
        return Err(NoToken);
    }
    cut_tokens();
    Ok(found[index])
}

/// A name after the sign of its token's kind.
fn signed(alloc: Global, sign: &str, name: Result<Text, AllocError>) -> Result<String, AllocError> {
    let name = name?;
    format!(in alloc; "{sign} {}", name.as_str())
}

/// The kind of a token, and its name.
fn name_of(alloc: Global, text: &str, token: Token) -> Result<String, AllocError>
    requires { IsTokenOf text.now token }
{
    match token.kind {
        Kind::Quoted => signed(alloc, "Q", name_text(alloc, text, token)),
        Kind::Name => signed(alloc, "N", name_text(alloc, text, token)),
        _ => String::from_str(alloc, "no name"),
    }
}

/// The kind of the token at an index, and its name.
pub fn name_text_told(alloc: Global, text: &str, index: usize) -> Result<String, AllocError>
    requires { length text.now ≤ MOST_BYTES }
{
    match token_at(alloc, text, index) {
        Ok(token) => name_of(alloc, text, token),
        Err(_) => String::from_str(alloc, "no token"),
    }
}

fn slice_of(alloc: Global, text: &str, token: Token) -> Result<String, AllocError>
    requires { IsTokenOf text.now token }
{
    if token.kind == Kind::Name {
        return String::from_str(alloc, name_slice(text, token));
    }
    String::from_str(alloc, "no name")
}

/// The part of the text that its first token is, which is a Name.
pub fn slice_told(alloc: Global, text: &str) -> Result<String, AllocError>
    requires { length text.now ≤ MOST_BYTES }
{
    match token_at(alloc, text, 0) {
        Ok(token) => slice_of(alloc, text, token),
        Err(_) => String::from_str(alloc, "no token"),
    }
}

fn value_of(alloc: Global, text: &str, token: Token) -> Result<String, AllocError>
    requires { IsTokenOf text.now token }
{
    let value = integer_value(text, token);
    format!(in alloc; "{value:?}")
}

/// The value of the first token.
pub fn integer_told(alloc: Global, text: &str) -> Result<String, AllocError>
    requires { length text.now ≤ MOST_BYTES }
{
    match token_at(alloc, text, 0) {
        Ok(token) => value_of(alloc, text, token),
        Err(_) => String::from_str(alloc, "no token"),
    }
}

pub fn bare_told(alloc: Global, text: &str) -> Result<String, AllocError> {
    let is_bare = is_bare_name(text);
    format!(in alloc; "{is_bare}")
}

/// Two texts with their order between.
fn order_told(alloc: Global, first: &Text, second: &Text) -> Result<String, AllocError> {
    let order = match first.cmp(second) {
        Ordering::Less => "less than",
        Ordering::Equal => "same as",
        Ordering::Greater => "greater than",
    };
    format!(in alloc; "{} {order} {}", first.as_str(), second.as_str())
}

/// The order of two texts, of which one is made from a string. Both are written as they are stored.
pub fn less_told(alloc: Global, text: &str) -> Result<String, AllocError> {
    let (first, second) = text.split_once('|').unwrap_or((text, text));
    let first = Text::new(alloc, first)?;
    let second = Text::from_string(String::from_str(alloc, second)?);
    order_told(alloc, &first, &second)
}
