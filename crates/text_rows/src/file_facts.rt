ghost use Rattle.std.specs.Prelude.{◌≤◌, length};
ghost use Rattle.prolog_tokens.specs.declared.limits.TheConstants.{MOST_BYTES};

use crate::pieces::push_made;
use clause_text::{TextFault, cause_text, read_text};
use module_table::{
    Defined, DirectiveGoals, FactFault, FileFacts, GoalArg, Indicator, Load, LoadKind, Meta, facts,
    resolve_name,
};
use prolog_names::Names;
use prolog_terms::Term;
use std::alloc::{AllocError, Global};
use std::thread::Threads;

fn push_indicators(
    alloc: Global,
    out: &mut String,
    mark: &str,
    indicators: &[Indicator],
    end: &str,
) -> Result<(), AllocError> {
    for one in indicators {
        let name = one.name.as_str();
        let (arity, from) = (one.arity, one.from);
        push_made(out, format!(in alloc; "{mark}{name}/{arity}@{from}{end}"))?;
    }
    Ok(())
}

/// The word for a load, with the brackets round its indicators.
fn load_words(kind: LoadKind) -> (&'static str, &'static str, &'static str) {
    match kind {
        LoadKind::UseAll => ("all", "", ""),
        LoadKind::UseSome => ("some", "(", ")"),
        LoadKind::Ensure => ("ensure", "", ""),
    }
}

/// Adds a load, which has indicators only where it takes some of a file.
fn push_load(alloc: Global, out: &mut String, load: &Load) -> Result<(), AllocError> {
    let (word, open, close) = load_words(load.kind);
    let (file, from) = (load.file.as_str(), load.from);
    push_made(out, format!(in alloc; "{word} {file}@{from}{open}"))?;
    push_indicators(alloc, out, "", &load.items, " ")?;
    push_made(out, format!(in alloc; "{close};"))
}

/// Adds the predicate with the number of its clauses, and with its module unless it is that of the
/// file.
fn push_defined(
    alloc: Global,
    out: &mut String,
    facts: &FileFacts,
    predicate: &Defined,
) -> Result<(), AllocError> {
    let owner = facts.names.text(predicate.module);
    let name = facts.names.text(predicate.name);
    let (arity, clauses) = (predicate.arity, predicate.clauses.as_slice().len());
    if owner == facts.module.as_str() {
        return push_made(out, format!(in alloc; "{name}/{arity}:{clauses};"));
    }
    push_made(out, format!(in alloc; "{owner}:{name}/{arity}:{clauses};"))
}

/// Adds an argument as it may be written in a declaration.
fn push_arg(alloc: Global, out: &mut String, arg: &GoalArg) -> Result<(), AllocError> {
    match arg {
        GoalArg::Plain => out.push_str(" ?"),
        GoalArg::Goal(more) => push_made(out, format!(in alloc; " {more}")),
        GoalArg::Caret => out.push_str(" ^"),
        GoalArg::Grammar => out.push_str(" //"),
    }
}

/// Adds a declaration as it may be written, with its offset.
fn push_meta(alloc: Global, out: &mut String, meta: &Meta) -> Result<(), AllocError> {
    let (owner, name, from) = (meta.module.as_str(), meta.name.as_str(), meta.from);
    push_made(out, format!(in alloc; "takes {owner}:{name}"))?;
    for arg in &meta.args {
        push_arg(alloc, out, arg)?;
    }
    push_made(out, format!(in alloc; "@{from};"))
}

/// Adds the goals of a directive.
fn push_goals(
    alloc: Global,
    out: &mut String,
    names: &Names,
    goals: &DirectiveGoals,
) -> Result<(), AllocError> {
    for end in &goals.ends {
        let goal = Term {
            names,
            nodes: goals.list.nodes(),
            end: *end,
        };
        let from = goal.span().from;
        push_made(out, format!(in alloc; "goal@{from};"))?;
    }
    Ok(())
}

/// Adds the module, if the file is one.
fn push_module(alloc: Global, out: &mut String, facts: &FileFacts) -> Result<(), AllocError> {
    if !facts.is_module {
        return Ok(());
    }
    let (name, from) = (facts.module.as_str(), facts.module_from);
    push_made(out, format!(in alloc; "module {name}@{from};"))
}

/// Adds the module with its exports, and the loads.
fn push_outside(alloc: Global, out: &mut String, facts: &FileFacts) -> Result<(), AllocError> {
    push_module(alloc, out, facts)?;
    push_indicators(alloc, out, "+", &facts.exports, ";")?;
    for load in &facts.loads {
        push_load(alloc, out, load)?;
    }
    Ok(())
}

/// Adds each predicate with the number of its clauses, the declarations of goal arguments, and the
/// goals.
fn push_inside(alloc: Global, out: &mut String, facts: &FileFacts) -> Result<(), AllocError> {
    for predicate in &facts.defined {
        push_defined(alloc, out, facts, predicate)?;
    }
    for meta in &facts.metas {
        push_meta(alloc, out, meta)?;
    }
    for goals in &facts.goals {
        push_goals(alloc, out, &facts.names, goals)?;
    }
    Ok(())
}

/// What the file says, or that it says nothing.
fn written(alloc: Global, facts: &FileFacts) -> Result<String, AllocError> {
    let mut out = String::new(alloc);
    push_outside(alloc, &mut out, facts)?;
    push_inside(alloc, &mut out, facts)?;
    if out.is_empty() {
        return String::from_str(alloc, "nothing");
    }
    Ok(out)
}

/// Adds a predicate with the offsets of its clauses, in their order.
fn push_starts(
    alloc: Global,
    out: &mut String,
    names: &Names,
    predicate: &Defined,
) -> Result<(), AllocError> {
    let (name, arity) = (names.text(predicate.name), predicate.arity);
    push_made(out, format!(in alloc; "{name}/{arity}"))?;
    for clause in predicate.clauses.as_slice() {
        let from = clause.start(names);
        push_made(out, format!(in alloc; " {from}"))?;
    }
    out.push_str(";")
}

/// Each predicate with the offsets of its clauses.
fn starts(alloc: Global, facts: &FileFacts) -> Result<String, AllocError> {
    let mut out = String::new(alloc);
    for predicate in &facts.defined {
        push_starts(alloc, &mut out, &facts.names, predicate)?;
    }
    Ok(out)
}

/// What the text says as the file `d/f.pl`.
fn facts_in<R: Threads + Sync>(rt: &R, alloc: Global, bytes: &[u8]) -> Result<FileFacts, TextFault>
    requires { length bytes.now ≤ MOST_BYTES }
{
    let text = read_text(rt, alloc, bytes)?;
    match facts(alloc, "d/f.pl", text) {
        Ok(found) => Ok(found),
        Err(FactFault::At(cause, offset)) => Err(TextFault::At(cause, offset)),
        Err(FactFault::NoMemory) => Err(TextFault::NoMemory),
    }
}

fn refused_told(alloc: Global, fault: TextFault) -> Result<String, AllocError> {
    match fault {
        TextFault::At(cause, offset) => {
            let text = cause_text(cause);
            format!(in alloc; "{text} at {offset}")
        }
        TextFault::NoMemory => String::from_str(alloc, "no memory"),
    }
}

/// What a file says, or its error.
pub fn facts_told<R: Threads + Sync>(
    rt: &R,
    alloc: Global,
    bytes: &[u8],
) -> Result<String, AllocError>
    requires { length bytes.now ≤ MOST_BYTES }
{
    match facts_in(rt, alloc, bytes) {
        Ok(found) => written(alloc, &found),
        Err(fault) => refused_told(alloc, fault),
    }
}

/// The predicates of a file with the offsets of their clauses, or its error.
pub fn starts_told<R: Threads + Sync>(
    rt: &R,
    alloc: Global,
    bytes: &[u8],
) -> Result<String, AllocError>
    requires { length bytes.now ≤ MOST_BYTES }
{
    match facts_in(rt, alloc, bytes) {
        Ok(found) => starts(alloc, &found),
        Err(fault) => refused_told(alloc, fault),
    }
}

/// The file that a specification leads to from another file, which is before a bar.
pub fn file_told(alloc: Global, text: &str) -> Result<String, AllocError> {
    let (using, spec) = text.split_once('|').unwrap_or(("", text));
    match resolve_name(alloc, using, spec)? {
        Some(name) => String::from_str(alloc, name.as_str()),
        None => String::from_str(alloc, "none"),
    }
}
