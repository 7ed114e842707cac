ghost use Rattle.std.specs.Prelude.{◌≡◌, ◌≤◌, ◌↔◌, length, slice_get, option_map, Some, IsTrue};
ghost use Rattle.prolog_tokens.specs.declared.limits.TheConstants.{MOST_BYTES};
ghost use Rattle.prolog_terms.specs.Clause.{IsOneClause};

use crate::operators::changed_table;
use crate::pieces::push_made;
use prolog_names::{Names, number_names};
use prolog_ops::{OpKind, OpTable};
use prolog_terms::{
    ConstKind, Form, NodeList, Parts, ReadFault, Reader, Term, TermKind, read_clause,
};
use prolog_tokens::{Kind, Token, TokenFault, tokens};
use std::alloc::{AllocError, Global};

fn write_number(
    alloc: Global,
    out: &mut String,
    minus: bool,
    value: Option<u32>,
) -> Result<(), AllocError> {
    let sign = if minus { "-" } else { "" };
    match value {
        Some(value) => push_made(out, format!(in alloc; "{sign}{value}")),
        None => push_made(out, format!(in alloc; "{sign}?")),
    }
}

fn form_mark(form: Form) -> &'static str {
    match form {
        Form::Functional => "",
        Form::Prefix => "pre ",
        Form::Infix => "in ",
        Form::Postfix => "post ",
    }
}

fn write_constant(
    alloc: Global,
    out: &mut String,
    kind: ConstKind,
    minus: bool,
    value: Option<u32>,
) -> Result<(), AllocError> {
    match kind {
        ConstKind::Integer => write_number(alloc, out, minus, value),
        ConstKind::Float => out.push_str(if minus { "-float" } else { "float" }),
        ConstKind::Str => out.push_str("str"),
        ConstKind::BackStr => out.push_str("back"),
    }
}

/// Writes the terms with spaces between.
#[cycle(writing)]
fn write_parts(alloc: Global, out: &mut String, parts: &Parts) -> Result<(), AllocError> {
    let terms = parts.to_vec(alloc)?;
    for (k, term) in terms.iter().enumerate() {
        if k > 0 {
            out.push_str(" ")?;
        }
        write_term(alloc, out, term)?;
    }
    Ok(())
}

/// Writes terms between brackets.
#[cycle(writing)]
fn write_items(
    alloc: Global,
    out: &mut String,
    open: &str,
    items: &Parts,
    close: &str,
) -> Result<(), AllocError> {
    out.push_str(open)?;
    write_parts(alloc, out, items)?;
    out.push_str(close)
}

/// Writes a term between brackets.
#[cycle(writing)]
fn write_between(
    alloc: Global,
    out: &mut String,
    open: &str,
    inner: &Term,
    close: &str,
) -> Result<(), AllocError> {
    out.push_str(open)?;
    write_term(alloc, out, inner)?;
    out.push_str(close)
}

/// Writes the items of a list up to its bar, and then its tail.
#[cycle(writing)]
fn write_tailed(
    alloc: Global,
    out: &mut String,
    items: &Parts,
    tail: &Term,
) -> Result<(), AllocError> {
    write_items(alloc, out, "[", items, "|")?;
    write_between(alloc, out, "", tail, "]")
}

/// Writes a compound term with its form's mark before the name.
#[cycle(writing)]
fn write_compound(
    alloc: Global,
    out: &mut String,
    form: Form,
    name: &str,
    args: &Parts,
) -> Result<(), AllocError> {
    let mark = form_mark(form);
    push_made(out, format!(in alloc; "{mark}{name}"))?;
    write_items(alloc, out, "(", args, ")")
}

/// Writes the term with its form's mark before each operator, and parts in brackets.
#[cycle(writing)]
fn write_term(alloc: Global, out: &mut String, term: &Term) -> Result<(), AllocError> {
    match term.kind() {
        TermKind::Var => out.push_str("_"),
        TermKind::Const { kind, minus, value } => write_constant(alloc, out, kind, minus, value),
        TermKind::Atom { name } => out.push_str(name),
        TermKind::Compound { name, args, form } => write_compound(alloc, out, form, name, &args),
        TermKind::List { items } => write_items(alloc, out, "[", &items, "]"),
        TermKind::Tailed { items, tail } => write_tailed(alloc, out, &items, &tail),
        TermKind::Curly { inner } => write_between(alloc, out, "{", &inner, "}"),
        TermKind::Paren { inner } => write_between(alloc, out, "(", &inner, ")"),
    }
}

fn is_end_at(tokens: &[Token], at: usize) -> bool
    ensures { IsTrue result ↔ (option_map (λ token. token.kind) (slice_get tokens.now at) ≡ Some Kind.End) }
{
    match tokens.get(at) {
        Some(token) => token.kind == Kind::End,
        None => false,
    }
}

/// Whether there are tokens, and only the last one is an End.
fn is_one_clause(tokens: &[Token]) -> bool
    ensures { IsTrue result → IsOneClause tokens.now }
{
    if tokens.len() == 0 {
        return false;
    }
    for k in 0..tokens.len() - 1 {
        if is_end_at(tokens, k) {
            return false;
        }
    }
    true
}

/// The nodes of a term, with the names in them.
#[derive(Drop)]
struct ReadTerm {
    names: Names,
    nodes: NodeList,
}

/// Why a text can't be read as a term.
#[derive(Drop)]
enum Unread {
    Table,
    Cut(TokenFault),
    Apart,
    Clause(ReadFault),
}

impl From<TokenFault> for Unread {
    fn from(fault: TokenFault) -> Unread {
        Unread::Cut(fault)
    }
}

/// The term that the text is, which is one clause.
fn read_term(alloc: Global, table: &OpTable, text: &str) -> Result<ReadTerm, Unread>
    requires { length text.now ≤ MOST_BYTES }
{
    let found = tokens(alloc, text)?;
    let cut = found.as_slice();
    if !is_one_clause(cut) {
        return Err(Unread::Apart);
    }
    let Ok(numbered) = number_names(alloc, text, cut) else {
        return Err(Unread::Clause(ReadFault::NoMemory));
    };
    let mut reader = Reader::new(alloc);
    match read_clause(
        alloc,
        &mut reader,
        table,
        &numbered.names,
        text,
        cut,
        numbered.numbers.as_slice(),
    ) {
        Ok(nodes) => Ok(ReadTerm {
            names: numbered.names,
            nodes,
        }),
        Err(fault) => Err(Unread::Clause(fault)),
    }
}

/// Why the text isn't read, in words.
fn unread_told(alloc: Global, unread: &Unread) -> Result<String, AllocError> {
    match unread {
        Unread::Table => String::from_str(alloc, "no table"),
        Unread::Cut(fault) => format!(in alloc; "{fault:?}"),
        Unread::Apart => String::from_str(alloc, "more than a clause"),
        Unread::Clause(fault) => format!(in alloc; "{fault:?}"),
    }
}

/// The term that the text is, with two postfix operators more than the opening table has, and
/// without `mode`.
fn read_changed(alloc: Global, text: &str) -> Result<ReadTerm, Unread>
    requires { length text.now ≤ MOST_BYTES }
{
    let changes = [
        ("once_more", OpKind::Xf, 300),
        ("again", OpKind::Yf, 300),
        ("mode", OpKind::Fx, 0),
    ];
    match changed_table(alloc, &changes) {
        Ok(table) => read_term(alloc, &table, text),
        Err(_) => Err(Unread::Table),
    }
}

/// The term in words.
fn term_told(alloc: Global, read: &ReadTerm) -> Result<String, AllocError> {
    let mut out = String::new(alloc);
    write_term(alloc, &mut out, &Term::root(&read.names, &read.nodes))?;
    Ok(out)
}

/// The term that the text reads as, in words, or its error.
pub fn clause_told(alloc: Global, text: &str) -> Result<String, AllocError>
    requires { length text.now ≤ MOST_BYTES }
{
    match read_changed(alloc, text) {
        Ok(read) => term_told(alloc, &read),
        Err(unread) => unread_told(alloc, &unread),
    }
}

/// How many items or arguments the term has.
fn count_parts(term: &Term) -> usize {
    match term.kind() {
        TermKind::List { items } => items.len(),
        TermKind::Tailed { items, .. } => items.len(),
        TermKind::Compound { args, .. } => args.len(),
        _ => 0,
    }
}

/// How many items or arguments the term has that the text reads as, or its error.
pub fn parts_told(alloc: Global, text: &str) -> Result<String, AllocError>
    requires { length text.now ≤ MOST_BYTES }
{
    match read_changed(alloc, text) {
        Ok(read) => {
            let count = count_parts(&Term::root(&read.names, &read.nodes));
            format!(in alloc; "{count}")
        }
        Err(unread) => unread_told(alloc, &unread),
    }
}
