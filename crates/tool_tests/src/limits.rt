//! Runs that reach the limits of files, of bytes and of predicates.

use crate::runs::{library_of, shown, words_of};
use file_library::MemoryLibrary;
use group_tool::{MemorySink, OpenGate, run_groups};
use prolog_tokens::Text;
use std::alloc::{AllocError, Global};
use std::process::Abort;
use std::sync::Wait;
use std::test::Fail;
use std::thread::Threads;

const EMPTY: &str = "predicates 0 groups 0 recursive 0 levels 0\n";

/// Runs with the arguments, and compares the status, how many names were read, and how what both
/// sinks have taken begins.
fn expect_start<R: Threads + Wait + Sync + Abort>(
    rt: &R,
    alloc: Global,
    words: &[Text],
    library: &mut MemoryLibrary,
    wanted: (u8, usize),
    on_out: &str,
    on_err: &str,
) -> Result<(), Fail> {
    let mut out = MemorySink::with_room(alloc, 1000)?;
    let mut err = MemorySink::with_room(alloc, 100000)?;
    let status = run_groups(rt, alloc, words, library, &mut out, &mut err, &OpenGate);
    assert_eq!(rt; (status, library.asked().len()), wanted);
    assert!(rt; shown(&out).starts_with(on_out));
    assert!(rt; shown(&err).starts_with(on_err));
    assert_eq!(rt;
        (out.bytes().len() == 0, err.bytes().len() == 0),
        (on_out == "", on_err == "")
    );
    Ok(())
}

/// This many names of files.
fn numbered(alloc: Global, count: u32) -> Result<Vec<Text>, AllocError> {
    let mut names = Vec::new(alloc);
    for number in 0..count {
        names.push(Text::from_string(format!(in alloc; "f{number}.pl")?))?;
    }
    Ok(names)
}

/// A directive that loads this many files.
fn loading(alloc: Global, count: u32) -> Result<String, AllocError> {
    let mut text = String::from_str(alloc, ":- [f0")?;
    for number in 1..count {
        let more = format!(in alloc; ", f{number}")?;
        text.push_str(&more)?;
    }
    text.push_str("].")?;
    Ok(text)
}

#[test]
fn takes_so_many_files(rt: HostRuntime) -> Result<(), Fail> {
    let alloc = rt.alloc();
    for (count, status, asked, on_err) in [
        (
            1024,
            3,
            1024,
            "f0.pl: no such file\nf1.pl: no such file\nf10.pl: ",
        ),
        (1025, 6, 0, "groups: more than 1024 files\n"),
    ] {
        let words = numbered(alloc, count)?;
        let mut library = library_of(alloc, &[], &[])?;
        expect_start(
            &rt,
            alloc,
            &words,
            &mut library,
            (status, asked),
            "",
            on_err,
        )?;
    }
    for (count, status, asked, on_err) in [
        (
            1023,
            3,
            1024,
            "a.pl:1:5: no such file\na.pl:1:9: no such file\n",
        ),
        (1024, 6, 1, "groups: more than 1024 files\n"),
    ] {
        let text = loading(alloc, count)?;
        let words = words_of(alloc, &["a.pl"])?;
        let mut library = library_of(alloc, &[("a.pl", text.as_bytes())], &[])?;
        expect_start(
            &rt,
            alloc,
            &words,
            &mut library,
            (status, asked),
            "",
            on_err,
        )?;
    }
    Ok(())
}

/// Runs on files `a.pl` and so on, each with this many spaces.
fn expect_sizes<R: Threads + Wait + Sync + Abort>(
    rt: &R,
    alloc: Global,
    sizes: &[usize],
    wanted: (u8, usize),
    on_out: &str,
    on_err: &str,
) -> Result<(), Fail> {
    let bytes = vec![in alloc; b' '; 8388609]?;
    let names = ["a.pl", "b.pl", "c.pl", "d.pl", "e.pl", "f.pl"];
    let mut files = Vec::new(alloc);
    for (name, size) in names.iter().zip(sizes) {
        files.push((*name, &bytes[..(*size).min(8388609)]))?;
    }
    let mut library = library_of(alloc, &files, &[])?;
    let words = words_of(alloc, &names[..sizes.len().min(6)])?;
    expect_start(rt, alloc, &words, &mut library, wanted, on_out, on_err)
}

#[test]
fn takes_so_many_bytes(rt: HostRuntime) -> Result<(), Fail> {
    let alloc = rt.alloc();
    let most = 8388608;
    expect_sizes(
        &rt,
        alloc,
        &[0, most + 1, 0],
        (6, 2),
        "",
        "groups: b.pl is larger than 8388608 bytes\n",
    )?;
    expect_sizes(&rt, alloc, &[most, most, most, most], (0, 4), EMPTY, "")?;
    expect_sizes(
        &rt,
        alloc,
        &[most, most, most, most, 1, 0],
        (6, 5),
        "",
        "groups: more than 33554432 bytes of text\n",
    )
}

/// The facts `p0` and so on that are numbered from the first to before the second.
fn facts(alloc: Global, from: u32, to: u32) -> Result<String, AllocError> {
    let mut text = String::new(alloc);
    for number in from..to {
        let fact = format!(in alloc; "p{number}.\n")?;
        text.push_str(&fact)?;
    }
    Ok(text)
}

/// Only one root is reported, so that the report is short.
#[test]
fn takes_so_many_predicates(rt: HostRuntime) -> Result<(), Fail> {
    let alloc = rt.alloc();
    let words = words_of(alloc, &["--roots", "p1048575/0", "a.pl", "b.pl"])?;
    let first = facts(alloc, 0, 524288)?;
    for (count, status, on_out, on_err) in [
        (
            1048576,
            0,
            "predicates 1 groups 1 recursive 0 levels 1\n0 plain user:p1048575/0\n",
            "",
        ),
        (1048577, 6, "", "groups: more than 1048576 predicates\n"),
    ] {
        let second = facts(alloc, 524288, count)?;
        let files = [("a.pl", first.as_bytes()), ("b.pl", second.as_bytes())];
        let mut library = library_of(alloc, &files, &[])?;
        expect_start(
            &rt,
            alloc,
            &words,
            &mut library,
            (status, 2),
            on_out,
            on_err,
        )?;
    }
    Ok(())
}
