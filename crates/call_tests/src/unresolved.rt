//! Roots, and names that are called and mean no predicate.

use crate::programs::library_of;
use call_edges::{GoalStop, check_goals, roots_of, unresolved_of};
use file_library::{Fault, load_all};
use import_rules::{ImportStop, NameView, Program, resolve_all};
use prolog_tokens::Text;
use std::alloc::{AllocError, Global};
use std::process::Abort;
use std::test::Fail;
use std::thread::Threads;

/// The texts of the files `a.pl`, `b.pl` and so on, of which the first is a root, and the output
/// for their program.
type Row = (&'static [&'static [u8]], &'static str);

/// A module with facts, a rule of facts, and a goal within goals; and calls of other modules, of a
/// variable one, and of predicates that take goals.
static CALLS: [Row; 2] = [
    (
        &[
            b":- module(family, [ancestor/2, siblings/2, report/0]).
parent(tom, bob).
ancestor(X, Y) :- parent(X, Y).
ancestor(X, Y) :- parent(X, Z), ancestor(Z, Y).
siblings(X, Y) :- parent(P, X), parent(P, Y), X \\== Y.
report :-
    (   findall(X-Y, siblings(X, Y), L), L = [_|_]
    ->  forall(member(P, L), show(P))
    ;   format(\"none~n\", [])
    ).
show(X-Y) :- format(\"~w ~w~n\", [X, Y]).
",
        ],
        "roots family:ancestor/2 family:report/0 family:siblings/2
family:ancestor/2:
family:parent/2:
family:report/0: family:=/2 family:findall/3 family:forall/2 family:format/2 family:member/2
family:show/1: family:format/2
family:siblings/2: family:\\==/2
",
    ),
    (
        &[
            b"p :- maplist(q, [a]), setof(X, Y^r(X, Y), L), M:s, m:s.
q(_).
r(_, _).
g --> h, {i}, \"a\", !.
",
        ],
        "roots user:g/2 user:p/0 user:q/1 user:r/2
user:g/2: user:h/2 user:i/0
user:p/0: m:s/0 user:maplist/2 user:setof/3
user:q/1:
user:r/2:
",
    ),
];

/// Clauses for other modules. Their bodies are those of the module of the file, and clauses of one
/// predicate are in two files. What a root file defines for any module is a root.
static HEADS: [Row; 5] = [
    (
        &[b":- module(f, [q/0]). user:p :- q, r. q :- s. m:q :- s."],
        "roots f:q/0\nf:q/0: f:s/0\nm:q/0: f:s/0\nuser:p/0: f:r/0\n",
    ),
    (
        &[b":- [b]. p :- q.", b":- module(b, []). user:p :- r."],
        "roots user:p/0\nuser:p/0: b:r/0 user:q/0\n",
    ),
    (
        &[b"m:p. q. :- multifile n:r/0."],
        "roots m:p/0 n:r/0 user:q/0\nm:p/0:\nn:r/0:\nuser:q/0:\n",
    ),
    (
        &[b":- module(f, [p/0]). :- [b].", b"f:p :- q."],
        "roots f:p/0\nf:p/0: user:q/0\n",
    ),
    (
        &[b":- module(m, []). :- [b]. p.", b":- module(m, []). p."],
        "faults b.pl:1:4 TwoModules",
    ),
];

/// Declared goal arguments. There is a row for each thing that a declaration may say of an
/// argument, and for each way in which a declaration doesn't count.
static DECLARED: [Row; 17] = [
    (
        &[b":- meta_predicate t(0). t(_). p :- t(q)."],
        "roots user:p/0 user:t/1\nuser:p/0: user:q/0\nuser:t/1:\n",
    ),
    (
        &[b":- meta_predicate t(2, ?). t(_, _). p :- t(q(a), r)."],
        "roots user:p/0 user:t/2\nuser:p/0: user:q/3\nuser:t/2:\n",
    ),
    (
        &[b":- meta_predicate t(^). t(_). p :- t(X^(q^r))."],
        "roots user:p/0 user:t/1\nuser:p/0: user:r/0\nuser:t/1:\n",
    ),
    (
        &[b":- meta_predicate t(//). t(_). p :- t((q, {r}))."],
        "roots user:p/0 user:t/1\nuser:p/0: user:q/2 user:r/0\nuser:t/1:\n",
    ),
    (
        &[b":- meta_predicate t(?). t(_). p :- t(q)."],
        "roots user:p/0 user:t/1\nuser:p/0:\nuser:t/1:\n",
    ),
    (
        &[b":- meta_predicate call(0, ?). call(_, _). p :- call(q, r)."],
        "roots user:call/2 user:p/0\nuser:call/2:\nuser:p/0: user:q/0\n",
    ),
    (
        &[b"call(_, _). p :- call(q, r)."],
        "roots user:call/2 user:p/0\nuser:call/2:\nuser:p/0: user:q/1\n",
    ),
    (
        &[b":- meta_predicate m:t(0). m:t(_). t(_). p :- m:t(q), t(r)."],
        "roots m:t/1 user:p/0 user:t/1\nm:t/1:\nuser:p/0: m:q/0\nuser:t/1:\n",
    ),
    (
        &[b":- meta_predicate t(0). p :- t(q)."],
        "roots user:p/0\nuser:p/0: user:t/1\n",
    ),
    (
        &[b":- meta_predicate t(0, 0). t(_). p :- t(q)."],
        "roots user:p/0 user:t/1\nuser:p/0:\nuser:t/1:\n",
    ),
    (
        &[b":- meta_predicate t(0), t(?). t(_). p :- t(q)."],
        "roots user:p/0 user:t/1\nuser:p/0: user:q/0\nuser:t/1:\n",
    ),
    (
        &[b":- [b]. t(_). p :- t(q).", b":- meta_predicate t(0)."],
        "roots user:p/0 user:t/1\nuser:p/0: user:q/0\nuser:t/1:\n",
    ),
    (
        &[
            b":- [b]. t(_). p :- t(q). :- meta_predicate t(?).",
            b":- meta_predicate t(0).",
        ],
        "roots user:p/0 user:t/1\nuser:p/0:\nuser:t/1:\n",
    ),
    (
        &[
            b":- [b]. p :- t(q).",
            b":- module(b, [t/1]). :- meta_predicate t(0). t(_).",
        ],
        "roots user:p/0\nb:t/1:\nuser:p/0: user:q/0\n",
    ),
    (
        &[b":- module(a, []). :- meta_predicate t(0). t(_). q. :- t(q)."],
        "roots a:q/0 a:t/1\na:q/0:\na:t/1:\n",
    ),
    (
        &[b":- meta_predicate t(0).\nt(_).\np :- t(3).\n"],
        "faults a.pl:3:8 NotCallable",
    ),
    (
        &[b":- meta_predicate t(0).\nt(_).\n:- t(3).\n"],
        "faults a.pl:3:6 NotCallable",
    ),
];

/// Adds the name after a space.
fn push_name(alloc: Global, out: &mut String, name: NameView<'_>) -> Result<(), AllocError> {
    let (owner, own) = (name.module, name.name);
    let arity = name.arity;
    let text = format!(in alloc; " {owner}:{own}/{arity}")?;
    out.push_str(&text)
}

/// For each predicate of the program a line with its name and with the names that it calls and that
/// mean no predicate.
fn push_unresolved(alloc: Global, out: &mut String, program: &Program) -> Result<(), AllocError> {
    for node in 0..program.count() {
        let mut line = String::new(alloc);
        push_name(alloc, &mut line, program.name_of(node))?;
        line.push_str(":")?;
        for name in &unresolved_of(alloc, program, node)? {
            push_name(alloc, &mut line, name.view())?;
        }
        out.push_str(line.trim_start())?;
        out.push_str("\n")?;
    }
    Ok(())
}

/// The roots of the program in a line, and a line for each predicate.
fn told(alloc: Global, program: &Program) -> Result<String, AllocError> {
    let mut out = String::from_str(alloc, "roots")?;
    for node in roots_of(alloc, program)? {
        if node < program.count() {
            push_name(alloc, &mut out, program.name_of(node))?;
        }
    }
    out.push_str("\n")?;
    push_unresolved(alloc, &mut out, program)?;
    Ok(out)
}

/// Each error as the file, the line, the column and the cause.
fn told_faults(alloc: Global, faults: &[Fault]) -> Result<String, AllocError> {
    let mut out = String::from_str(alloc, "faults")?;
    for fault in faults {
        let file = fault.file.as_str();
        let (line, column) = (fault.place.line, fault.place.column);
        let cause = fault.cause;
        let text = format!(in alloc; " {file}:{line}:{column} {cause:?}")?;
        out.push_str(&text)?;
    }
    Ok(out)
}

/// The output for a program, or for its goals if one isn't callable.
fn told_checked<R: Threads + Sync>(
    rt: &R,
    alloc: Global,
    program: &Program,
) -> Result<String, AllocError> {
    match check_goals(rt, alloc, program) {
        Ok(()) => told(alloc, program),
        Err(GoalStop::Faults(faults)) => told_faults(alloc, &faults),
        Err(GoalStop::NoMemory) => String::from_str(alloc, "no memory"),
    }
}

/// The output for the files with these texts.
fn told_of<R: Threads + Sync>(
    rt: &R,
    alloc: Global,
    texts: &[&[u8]],
) -> Result<String, AllocError> {
    let mut library = library_of(alloc, texts)?;
    let mut roots = Vec::new(alloc);
    roots.push(Text::new(alloc, "a.pl")?)?;
    let Ok(loaded) = load_all(rt, alloc, &roots, &mut library) else {
        return String::from_str(alloc, "not loaded");
    };
    match resolve_all(alloc, loaded) {
        Ok(program) => told_checked(rt, alloc, &program),
        Err(ImportStop::Faults(faults)) => told_faults(alloc, &faults),
        Err(_) => String::from_str(alloc, "no program"),
    }
}

fn expect_rows<R: Threads + Sync + Abort>(rt: &R, alloc: Global, rows: &[Row]) -> Result<(), Fail> {
    for (texts, wanted) in rows {
        let found = told_of(rt, alloc, texts)?;
        assert_eq!(rt; found.as_str(), *wanted);
    }
    Ok(())
}

#[test]
fn tells_names_that_mean_nothing(rt: HostRuntime) -> Result<(), Fail> {
    expect_rows(&rt, rt.alloc(), &CALLS)
}

#[test]
fn takes_bodies_in_the_module_of_their_file(rt: HostRuntime) -> Result<(), Fail> {
    expect_rows(&rt, rt.alloc(), &HEADS)
}

#[test]
fn heeds_the_first_declaration_of_a_predicate(rt: HostRuntime) -> Result<(), Fail> {
    expect_rows(&rt, rt.alloc(), &DECLARED)
}
