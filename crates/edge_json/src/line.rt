//! What a line means.

ghost use Rattle.std.specs.Prelude.{◌≡◌, option_and_then, option_map, IfOk};
ghost use Rattle.std.specs.List.{list_any};
ghost use Rattle.serde_json.specs.Read.{read};
ghost use Rattle.serde_json.specs.View.{view};
ghost use Rattle.edge_json.specs.Meaning.{is_blank, is_long, is_solid, line_value, meaning_of, value_names};
ghost use Rattle.edge_json.specs.Said.{see_line};

use crate::cause::Cause;
use crate::edge_line::EdgeLine;
use edge_text::MOST_NAME;
use serde_json::Value;
use std::alloc::{AllocError, Global};

/// What a line is.
#[derive(Drop)]
pub(crate) enum Line {
    /// Nothing but blanks.
    Blank,
    Edge(EdgeLine),
    Bad(Cause),
}

fn is_blank(byte: u8) -> bool
    ensures { result ≡ is_blank byte }
{
    byte == b' ' || byte == b'\t' || byte == b'\r'
}

fn is_solid(byte: u8) -> bool
    ensures { result ≡ is_solid byte }
{
    !is_blank(byte)
}

/// Whether the line has a byte that is no blank.
fn has_solid(line: &[u8]) -> bool
    ensures { result ≡ list_any is_solid line.now }
{
    line.iter().any(|byte| is_solid(*byte))
}

/// The value of a text, if it is JSON.
fn text_value(alloc: Global, text: &str) -> Result<Option<Value>, AllocError>
    ensures { IfOk result (λ found. option_map view found ≡ read text.now) }
{
    match Value::from_str(alloc, text) {
        Ok(value) => Ok(Some(value)),
        Err(error) => {
            if error.is_memory() {
                return Err(AllocError);
            }
            Ok(None)
        }
    }
}

/// The value of a line, if it is JSON in UTF-8.
fn line_value(alloc: Global, line: &[u8]) -> Result<Option<Value>, AllocError>
    ensures { IfOk result (λ found. option_map view found ≡ line_value line.now) }
{
    match str::from_utf8(line) {
        Ok(text) => {
            let value = text_value(alloc, text)?;
            Ok(value)
        }
        Err(_) => Ok(None),
    }
}

/// The names of an object with a string `from`, and if there is a `to`, a string `to`.
fn value_names(alloc: Global, value: &Value) -> Result<Option<EdgeLine>, AllocError>
    ensures { IfOk result (λ found. found ≡ value_names (view value.now)) }
{
    let Some(first) = value.get("from") else {
        return Ok(None);
    };
    let Some(from) = first.as_str() else {
        return Ok(None);
    };
    let Some(other) = value.get("to") else {
        return Ok(Some(EdgeLine::node(alloc, from)?));
    };
    let Some(to) = other.as_str() else {
        return Ok(None);
    };
    Ok(Some(EdgeLine::edge(alloc, from, to)?))
}

fn is_long(name: &[u8]) -> bool
    ensures { result ≡ is_long name.now }
{
    name.len() > MOST_NAME
}

/// Whether a name of the line is too long.
fn has_long(line: &EdgeLine) -> bool
    ensures { result ≡ list_any is_long line.now }
{
    if is_long(&line.from) {
        return true;
    }
    match &line.to {
        Some(to) => is_long(to),
        None => false,
    }
}

/// The names of the line, if it is an edge.
fn line_names(alloc: Global, line: &[u8]) -> Result<Option<EdgeLine>, AllocError>
    ensures { IfOk result (λ found. found ≡ option_and_then value_names (line_value line.now)) }
{
    let Some(value) = line_value(alloc, line)? else {
        return Ok(None);
    };
    let names = value_names(alloc, &value)?;
    Ok(names)
}

/// What the line means.
pub(crate) fn read_line(alloc: Global, line: &[u8]) -> Result<Line, AllocError>
    ensures { IfOk result (λ found. see_line found ≡ meaning_of line.now) }
{
    if !has_solid(line) {
        return Ok(Line::Blank);
    }
    let Some(names) = line_names(alloc, line)? else {
        return Ok(Line::Bad(Cause::NotEdge));
    };
    if has_long(&names) {
        return Ok(Line::Bad(Cause::LongName));
    }
    Ok(Line::Edge(names))
}
