ghost use Rattle.std.specs.Prelude.{◌≤◌, length};
ghost use Rattle.prolog_tokens.specs.declared.limits.TheConstants.{MOST_BYTES};

use crate::file_facts::{facts_told, file_told, starts_told};
use crate::operators::{op_fault_told, operator_told};
use crate::places::place_told;
use crate::row::bytes_of;
use crate::terms::{clause_told, parts_told};
use crate::texts::{count_told, forms_told};
use crate::tokens::{
    bare_told, integer_told, less_told, name_text_told, rows_told, slice_told, tokens_told,
};
use crate::words::{made_told, options_told};
use prolog_tokens::MOST_BYTES;
use std::alloc::{AllocError, Global};
use std::thread::Threads;

/// What is asked of a row.
#[derive(Clone, Copy)]
pub enum Ask {
    /// The tokens of a text.
    Tokens,
    /// Its spans, each with the number of tokens that start in it, and where these end.
    Rows,
    /// The name of its first token.
    Name,
    /// The name of its third token.
    ThirdName,
    /// The part of the text that its first token is.
    Slice,
    /// The value of its first token.
    Integer,
    /// Whether it is a name that is written without quotes.
    Bare,
    /// Which of two texts, with a bar between, is the lesser one.
    Less,
    /// The position of an offset, which is before the text, or none if `-` is there.
    Place,
    /// The operator of a name, after which is `prefix`, `infix` or `postfix`.
    Operator,
    /// The message of an error in setting an operator, by its name.
    OpFault,
    /// A text's clause as a term.
    Clause,
    /// How many arguments or items that term has.
    Parts,
    /// The number of its clauses.
    Clauses,
    /// How each of its clauses is written inside brackets.
    Forms,
    /// What a file says.
    Facts,
    /// Its predicates, with the offsets of their clauses.
    Starts,
    /// The name of a file that another one leads to; a bar is between them.
    File,
    /// The options that arguments set. After each argument is a bar.
    Options,
    /// The generated program of this many predicates.
    Made,
    /// An unknown question.
    Other,
}

impl Ask {
    /// What the first word of a heading asks.
    pub fn of(heading: &str) -> Ask {
        let (word, _) = heading.split_once(' ').unwrap_or((heading, ""));
        match word {
            "tokens" => Ask::Tokens,
            "rows" => Ask::Rows,
            "name" => Ask::Name,
            "third_name" => Ask::ThirdName,
            "slice" => Ask::Slice,
            "integer" => Ask::Integer,
            "bare" => Ask::Bare,
            "less" => Ask::Less,
            "place" => Ask::Place,
            "operator" => Ask::Operator,
            "op_fault" => Ask::OpFault,
            "clause" => Ask::Clause,
            "parts" => Ask::Parts,
            "clauses" => Ask::Clauses,
            "forms" => Ask::Forms,
            "facts" => Ask::Facts,
            "starts" => Ask::Starts,
            "file" => Ask::File,
            "options" => Ask::Options,
            "made" => Ask::Made,
            _ => Ask::Other,
        }
    }
}

/// The number before a row's text, and the text. Only a place has a number.
fn parts_of(ask: Ask, row: &str) -> (&str, &str) {
    match ask {
        Ask::Place => row.split_once(' ').unwrap_or(("", row)),
        _ => ("", row),
    }
}

/// The output for a row.
pub fn told<R: Threads + Sync>(
    rt: &R,
    alloc: Global,
    ask: Ask,
    row: &str,
) -> Result<String, AllocError> {
    let (number, text) = parts_of(ask, row);
    let bytes = bytes_of(alloc, text)?;
    if bytes.len() > MOST_BYTES as usize {
        return String::from_str(alloc, "too long");
    }
    let offset = number.parse::<u32>().ok();
    told_of_bytes(rt, alloc, ask, bytes.as_slice(), offset)
}

fn told_of_bytes<R: Threads + Sync>(
    rt: &R,
    alloc: Global,
    ask: Ask,
    bytes: &[u8],
    offset: Option<u32>,
) -> Result<String, AllocError>
    requires { length bytes.now ≤ MOST_BYTES }
{
    match ask {
        Ask::Place => place_told(alloc, bytes, offset),
        Ask::Clauses => count_told(rt, alloc, bytes),
        Ask::Forms => forms_told(rt, alloc, bytes),
        Ask::Facts => facts_told(rt, alloc, bytes),
        Ask::Starts => starts_told(rt, alloc, bytes),
        _ => match str::from_utf8(bytes) {
            Ok(text) => told_of_text(alloc, ask, text),
            Err(_) => String::from_str(alloc, "no text"),
        },
    }
}

fn told_of_text(alloc: Global, ask: Ask, text: &str) -> Result<String, AllocError>
    requires { length text.now ≤ MOST_BYTES }
{
    match ask {
        Ask::Tokens => tokens_told(alloc, text),
        Ask::Rows => rows_told(alloc, text),
        Ask::Name => name_text_told(alloc, text, 0),
        Ask::ThirdName => name_text_told(alloc, text, 2),
        Ask::Slice => slice_told(alloc, text),
        Ask::Integer => integer_told(alloc, text),
        Ask::Bare => bare_told(alloc, text),
        Ask::Less => less_told(alloc, text),
        Ask::Operator => operator_told(alloc, text),
        Ask::OpFault => op_fault_told(alloc, text),
        Ask::Clause => clause_told(alloc, text),
        Ask::Parts => parts_told(alloc, text),
        Ask::File => file_told(alloc, text),
        Ask::Options => options_told(alloc, text),
        Ask::Made => made_told(alloc, text),
        _ => String::from_str(alloc, "not asked"),
    }
}
