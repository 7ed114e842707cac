ghost use Rattle.std.specs.Prelude.{◌≤◌, length};
ghost use Rattle.prolog_tokens.specs.declared.limits.TheConstants.{MOST_BYTES};

use crate::pieces::push_made;
use clause_text::{TextClauses, read_text};
use kept_clauses::KeptClause;
use prolog_terms::{Form, TermKind, inside};
use std::alloc::{AllocError, Global};
use std::thread::Threads;

/// How many clauses the text has, or its error.
pub fn count_told<R: Threads + Sync>(
    rt: &R,
    alloc: Global,
    bytes: &[u8],
) -> Result<String, AllocError>
    requires { length bytes.now ≤ MOST_BYTES }
{
    match read_text(rt, alloc, bytes) {
        Ok(text) => format!(in alloc; "{}", text.clauses.len()),
        Err(fault) => format!(in alloc; "{fault:?}"),
    }
}

/// How a clause is written inside its brackets, if it is a compound term. The plain form of a fact
/// is written in functional notation.
fn form_of(clause: &KeptClause) -> Option<Form> {
    match clause {
        KeptClause::Whole(term) => match inside(term).kind() {
            TermKind::Compound { form, .. } => Some(form),
            _ => None,
        },
        KeptClause::Plain(plain) => {
            if plain.is_rule {
                return Some(Form::Infix);
            }
            if plain.head.arity == 0 {
                return None;
            }
            Some(Form::Functional)
        }
    }
}

/// How each clause is written, with a semicolon after each.
fn forms(alloc: Global, text: &TextClauses) -> Result<String, AllocError> {
    let mut out = String::new(alloc);
    for clause in &text.clauses {
        let form = form_of(&clause.kept(&text.names));
        push_made(&mut out, format!(in alloc; "{form:?};"))?;
    }
    Ok(out)
}

/// How each clause of the text is written, or its error.
pub fn forms_told<R: Threads + Sync>(
    rt: &R,
    alloc: Global,
    bytes: &[u8],
) -> Result<String, AllocError>
    requires { length bytes.now ≤ MOST_BYTES }
{
    match read_text(rt, alloc, bytes) {
        Ok(text) => forms(alloc, &text),
        Err(fault) => format!(in alloc; "{fault:?}"),
    }
}
