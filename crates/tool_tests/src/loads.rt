//! Files that are read on demand: in which order, and how that ends.

use crate::runs::{library_of, push_names, words_of};
use file_library::{Fault, LoadStop, Loaded, MemoryLibrary, load_all};
use prolog_tokens::Text;
use std::alloc::{AllocError, Global};
use std::process::Abort;
use std::test::Fail;
use std::thread::Threads;

/// The files, the reads that fail and the roots, and what is expected: the names in the order in
/// which they are read, and the end.
type LoadRun = (
    &'static [(&'static str, &'static [u8])],
    &'static [u32],
    &'static [&'static str],
    &'static str,
    &'static str,
);

/// The names of the roots, of the files with facts, of the texts (each with its number of bytes),
/// and of the files that aren't there.
fn told_loaded(alloc: Global, loaded: &Loaded) -> Result<String, AllocError> {
    let mut out = String::from_str(alloc, "roots")?;
    push_names(&mut out, &loaded.roots)?;
    out.push_str("; facts")?;
    for facts in &loaded.files {
        out.push_str(" ")?;
        out.push_str(facts.file.as_str())?;
    }
    out.push_str("; texts")?;
    for (name, bytes) in &loaded.texts {
        let name = name.as_str();
        let size = bytes.len();
        let text = format!(in alloc; " {name}:{size}")?;
        out.push_str(&text)?;
    }
    out.push_str("; absent")?;
    push_names(&mut out, &loaded.absent)?;
    Ok(out)
}

/// Each error as the file, the line, the column, the byte offset and the cause.
fn told_faults(alloc: Global, faults: &[Fault]) -> Result<String, AllocError> {
    let mut out = String::from_str(alloc, "faults")?;
    for fault in faults {
        let file = fault.file.as_str();
        let (line, column) = (fault.place.line, fault.place.column);
        let (offset, cause) = (fault.offset, fault.cause);
        let text = format!(in alloc; " {file}:{line}:{column}@{offset} {cause:?};")?;
        out.push_str(&text)?;
    }
    Ok(out)
}

/// A word and a file's name.
fn told_name(alloc: Global, word: &str, name: &Text) -> Result<String, AllocError> {
    let mut out = String::from_str(alloc, word)?;
    out.push_str(" ")?;
    out.push_str(name.as_str())?;
    Ok(out)
}

/// What was loaded, or why nothing was.
pub fn told_end(alloc: Global, end: &Result<Loaded, LoadStop>) -> Result<String, AllocError> {
    match end {
        Ok(loaded) => told_loaded(alloc, loaded),
        Err(LoadStop::Faults(faults)) => told_faults(alloc, faults),
        Err(LoadStop::ReadFault(name)) => told_name(alloc, "unread", name),
        Err(LoadStop::TooManyFiles) => String::from_str(alloc, "too many files"),
        Err(LoadStop::FileTooLarge(name)) => told_name(alloc, "too large", name),
        Err(LoadStop::TooMuchText) => String::from_str(alloc, "too much text"),
        Err(LoadStop::NoMemory) => String::from_str(alloc, "no memory"),
    }
}

/// Loads from the roots, and compares which names were read and the end.
fn expect_load<R: Threads + Sync + Abort>(
    rt: &R,
    alloc: Global,
    roots: &[Text],
    library: &mut MemoryLibrary,
    asked: &str,
    end: &str,
) -> Result<(), Fail> {
    let found = load_all(rt, alloc, roots, library);
    let found = told_end(alloc, &found)?;
    let mut names = String::new(alloc);
    push_names(&mut names, library.asked())?;
    assert_eq!(rt; (names.as_str(), found.as_str()), (asked, end));
    Ok(())
}

/// Loads from the roots of each row.
fn expect_loads<R: Threads + Sync + Abort>(
    rt: &R,
    alloc: Global,
    rows: &[LoadRun],
) -> Result<(), Fail> {
    for (files, failing, roots, asked, end) in rows {
        let mut library = library_of(alloc, files, failing)?;
        let roots = words_of(alloc, roots)?;
        expect_load(rt, alloc, &roots, &mut library, asked, end)?;
    }
    Ok(())
}

/// Files that load each other.
static WITH_LOADS: [LoadRun; 9] = [
    (&[], &[], &[], "", "roots; facts; texts; absent"),
    (
        &[("a.pl", b"p.\n")],
        &[],
        &["a.pl", "a.pl"],
        " a.pl",
        "roots a.pl; facts a.pl; texts a.pl:3; absent",
    ),
    (
        &[(
            "a.pl",
            b":- ensure_loaded('a.pl'), use_module(library(b)).\n",
        )],
        &[],
        &["a.pl"],
        " a.pl",
        "roots a.pl; facts a.pl; texts a.pl:50; absent",
    ),
    (
        &[
            ("a.pl", b":- ensure_loaded('b.pl').\n"),
            ("b.pl", b":- ensure_loaded('a.pl').\n"),
        ],
        &[],
        &["a.pl"],
        " a.pl b.pl",
        "roots a.pl; facts a.pl b.pl; texts a.pl:26 b.pl:26; absent",
    ),
    (
        &[("a.pl", b":- use_module(b).\n"), ("c.pl", b"")],
        &[],
        &["a.pl"],
        " a.pl b.pl",
        "roots a.pl; facts a.pl; texts a.pl:18; absent b.pl",
    ),
    (
        &[
            ("a.pl", b":- use_module([c, b]).\n"),
            ("b.pl", b":- use_module(d, []).\n"),
            ("c.pl", b":- [d].\n"),
            ("d.pl", b""),
        ],
        &[],
        &["a.pl"],
        " a.pl b.pl c.pl d.pl",
        "roots a.pl; facts a.pl b.pl c.pl d.pl; texts a.pl:23 b.pl:22 c.pl:8 d.pl:0; absent",
    ),
    (
        &[
            ("a.pl", b":- [z].\n"),
            ("b.pl", b"p.\n"),
            ("z.pl", b":- [b, x, a].\n"),
        ],
        &[],
        &["a.pl"],
        " a.pl z.pl b.pl x.pl",
        "roots a.pl; facts a.pl b.pl z.pl; texts a.pl:8 b.pl:3 z.pl:14; absent x.pl",
    ),
    (
        &[
            ("a-b.pl", b""),
            ("a.pl", b""),
            ("a/b.pl", b""),
            ("B.pl", b""),
            ("\u{E9}.pl", b""),
        ],
        &[],
        &["\u{E9}.pl", "a/b.pl", "a.pl", "B.pl", "a-b.pl"],
        " B.pl a-b.pl a.pl a/b.pl \u{E9}.pl",
        "roots B.pl a-b.pl a.pl a/b.pl \u{E9}.pl; facts B.pl a-b.pl a.pl a/b.pl \u{E9}.pl; texts B.pl:0 a-b.pl:0 a.pl:0 a/b.pl:0 \u{E9}.pl:0; absent",
    ),
    (
        &[("b.pl", b"p.\n"), ("lib/a.pl", b":- ['../b', b].\n")],
        &[],
        &["lib/a.pl"],
        " lib/a.pl b.pl lib/b.pl",
        "roots lib/a.pl; facts b.pl lib/a.pl; texts b.pl:3 lib/a.pl:16; absent lib/b.pl",
    ),
];

#[test]
fn loads_files_by_waves(rt: HostRuntime) -> Result<(), Fail> {
    expect_loads(&rt, rt.alloc(), &WITH_LOADS)
}

/// Files with errors, and roots that aren't there.
static WITH_FAULTS: [LoadRun; 6] = [
    (
        &[("b.pl", b"p :- q\n")],
        &[],
        &["b.pl", "a.pl"],
        " a.pl b.pl",
        "faults a.pl:0:0@0 NoRoot; b.pl:2:1@7 NoEnd;",
    ),
    (
        &[("a.pl", b"p.\n'\\q.\n")],
        &[],
        &["b.pl", "a.pl"],
        " a.pl b.pl",
        "faults a.pl:2:2@4 BadEscape; b.pl:0:0@0 NoRoot;",
    ),
    (
        &[("a.pl", b":- [b].\n")],
        &[],
        &["a.pl", "b.pl"],
        " a.pl b.pl",
        "faults b.pl:0:0@0 NoRoot;",
    ),
    (
        &[("a.pl", b":- ensure_loaded(b).\n7.\n"), ("b.pl", b"p.\n")],
        &[],
        &["a.pl"],
        " a.pl",
        "faults a.pl:2:1@21 BadHead;",
    ),
    (
        &[
            ("a.pl", b":- include(x).\n"),
            ("m.pl", b":- [a, x].\n"),
            ("z.pl", b":- [y].\np, q.\n"),
        ],
        &[],
        &["m.pl", "z.pl"],
        " m.pl z.pl a.pl x.pl",
        "faults a.pl:1:4@3 NotInProfile; z.pl:2:1@8 ControlHead;",
    ),
    (
        &[("a.pl", b"\xFF7.\n")],
        &[],
        &["a.pl"],
        " a.pl",
        "faults a.pl:1:1@0 NotUtf8;",
    ),
];

#[test]
fn tells_the_faults_of_all_files(rt: HostRuntime) -> Result<(), Fail> {
    expect_loads(&rt, rt.alloc(), &WITH_FAULTS)
}

/// Reads that fail.
static UNREAD: [LoadRun; 4] = [
    (
        &[("a.pl", b"p.\n")],
        &[1],
        &["a.pl"],
        " a.pl",
        "unread a.pl",
    ),
    (&[], &[2], &["b.pl", "a.pl"], " a.pl b.pl", "unread b.pl"),
    (
        &[
            ("a.pl", b":- [c, b].\n"),
            ("b.pl", b":- [d].\n"),
            ("c.pl", b":- [d].\n"),
            ("d.pl", b""),
        ],
        &[3],
        &["a.pl"],
        " a.pl b.pl c.pl",
        "unread c.pl",
    ),
    (
        &[("a.pl", b"7.\n"), ("b.pl", b":- [c].\n")],
        &[3],
        &["a.pl", "b.pl"],
        " a.pl b.pl c.pl",
        "unread c.pl",
    ),
];

#[test]
fn stops_at_a_read_that_fails(rt: HostRuntime) -> Result<(), Fail> {
    expect_loads(&rt, rt.alloc(), &UNREAD)
}
