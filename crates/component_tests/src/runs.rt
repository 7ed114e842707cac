//! Whole runs over a text in memory.

use component_tool::{MemorySource, OpenGate, run_components};
use prolog_tokens::Text;
use std::alloc::{AllocError, Global};
use std::process::Abort;
use std::sync::Wait;
use std::test::Fail;
use std::thread::Threads;
use tool_run::MemorySink;

/// Arguments, the name of the one text and its bytes; and what is expected: the status and the
/// bytes on both sinks.
type Run = (
    &'static [&'static str],
    &'static str,
    &'static str,
    u8,
    &'static str,
    &'static str,
);

const USAGE: &str =
    "usage: components [--jobs N] [--roots NAME].. [--order] [--json] [--loops] [--from-json] [FILE]\n";

static RUNS: [Run; 33] = [
    (
        &[],
        "-",
        "p q\nq p\n",
        0,
        "nodes 2 groups 1 recursive 1 levels 1\n0 recursive p q\n",
        "",
    ),
    (
        &["f"],
        "f",
        "c b\nb b\na",
        0,
        "nodes 3 groups 3 recursive 1 levels 2\n0 plain a\n0 recursive b\n1 plain c\n",
        "",
    ),
    (
        &["--order", "-"],
        "-",
        "a b\nb c\nd\n",
        0,
        "nodes 4 groups 4 recursive 0 levels 3\n0 plain c\n1 plain b\n2 plain a\n0 plain d\n",
        "",
    ),
    (
        &["--order"],
        "-",
        "",
        0,
        "nodes 0 groups 0 recursive 0 levels 0\n",
        "",
    ),
    (&["f"], "-", "", 4, "", "components: cannot read f\n"),
    (&[], "f", "", 4, "", "components: cannot read -\n"),
    (&["f", "g"], "f", "", 2, "", USAGE),
    (&["--order", "--order"], "-", "", 2, "", USAGE),
    (&["--loops", "--loops"], "-", "", 2, "", USAGE),
    (
        &["--loops"],
        "-",
        "a b\nb c\nc a b\nd d\ne d\n",
        0,
        "nodes 5 groups 3 recursive 2 levels 2\n0 recursive a b c\n0 recursive d\n1 plain e\nloop a b c\nloop d\n",
        "",
    ),
    (
        &["--json", "--loops", "--roots=a", "--order"],
        "-",
        "a b\nb a\nc c\n",
        0,
        "{\"nodes\":2,\"groups\":1,\"recursive\":1,\"levels\":1}\n{\"id\":0,\"height\":0,\"recursive\":true,\"members\":[\"a\",\"b\"]}\n{\"loop\":[\"a\",\"b\"]}\n",
        "",
    ),
    (
        &["--jobs", "4"],
        "-",
        "a b\nb c\nc a d\n",
        0,
        "nodes 4 groups 2 recursive 1 levels 2\n0 plain d\n1 recursive a b c\n",
        "",
    ),
    (
        &["--order", "--jobs=02", "--roots", "c"],
        "-",
        "a b\nb c\nc a d\n",
        0,
        "nodes 4 groups 2 recursive 1 levels 2\n0 plain d\n1 recursive a b c\n",
        "",
    ),
    (&["--jobs"], "-", "", 2, "", USAGE),
    (&["--jobs="], "-", "", 2, "", USAGE),
    (&["--jobs", "0"], "-", "", 2, "", USAGE),
    (&["--jobs=65"], "-", "", 2, "", USAGE),
    (&["--jobs", "1", "--jobs=1"], "-", "", 2, "", USAGE),
    (&["--roots"], "-", "", 2, "", USAGE),
    (&["--roots", "-x"], "-", "", 2, "", USAGE),
    (&["--roots="], "-", "", 2, "", USAGE),
    (&[""], "-", "", 2, "", USAGE),
    (
        &["f", "--order"],
        "f",
        "",
        0,
        "nodes 0 groups 0 recursive 0 levels 0\n",
        "",
    ),
    (
        &["--", "--order"],
        "--order",
        "a\n",
        0,
        "nodes 1 groups 1 recursive 0 levels 1\n0 plain a\n",
        "",
    ),
    (
        &["--roots", "b", "f", "--roots=-x"],
        "f",
        "a b\nb c\nd\n-x c\n",
        0,
        "nodes 3 groups 3 recursive 0 levels 2\n0 plain c\n1 plain -x\n1 plain b\n",
        "",
    ),
    (
        &["--roots", "b", "--roots", "y", "--roots", "x"],
        "-",
        "a b\n",
        2,
        "",
        "components: no node y\n",
    ),
    (
        &["--roots", "a", "--roots", "a"],
        "-",
        "a b\nc a\n",
        0,
        "nodes 2 groups 2 recursive 0 levels 2\n0 plain b\n1 plain a\n",
        "",
    ),
    (
        &["--json", "--roots", "b"],
        "-",
        "a b\n",
        0,
        "{\"nodes\":1,\"groups\":1,\"recursive\":0,\"levels\":1}\n{\"id\":0,\"height\":0,\"recursive\":false,\"members\":[\"b\"]}\n",
        "",
    ),
    (
        &["--from-json"],
        "-",
        "{\"from\":\"a\",\"to\":\"b\"}\n\n{\"to\":\"a\",\"from\":\"b\"}\n{ \"from\" : \"c\", \"weight\": 1.5 }\n",
        0,
        "nodes 3 groups 2 recursive 1 levels 1\n0 recursive a b\n0 plain c\n",
        "",
    ),
    (
        &["--from-json", "--json"],
        "-",
        "{\"from\":\"a b\",\"to\":\"\\u00e9\\n\"}",
        0,
        "{\"nodes\":2,\"groups\":2,\"recursive\":0,\"levels\":2}\n{\"id\":0,\"height\":0,\"recursive\":false,\"members\":[\"é\\u000a\"]}\n{\"id\":1,\"height\":1,\"recursive\":false,\"members\":[\"a b\"]}\n",
        "",
    ),
    (
        &["--from-json"],
        "-",
        "{\"from\":\"a\"}\n{\"from\":1}\n",
        3,
        "",
        "-:2:1: line is not an edge\n",
    ),
    (
        &["f", "--from-json"],
        "f",
        "a b\n",
        3,
        "",
        "f:1:1: line is not an edge\n",
    ),
    (&["--roots", "d"], "-", "", 2, "", "components: no node d\n"),
];

/// The bytes that the sink has taken as text, or no text.
fn shown(sink: &MemorySink) -> &str {
    match str::from_utf8(sink.bytes()) {
        Ok(text) => text,
        Err(_) => "no text",
    }
}

/// The arguments of a command line.
fn words_of(alloc: Global, words: &[&str]) -> Result<Vec<Text>, AllocError> {
    let mut found = Vec::new(alloc);
    for word in words {
        found.push(Text::new(alloc, word)?)?;
    }
    Ok(found)
}

/// Runs over the text with sinks that take so many bytes, and compares the status and what both
/// sinks have taken.
fn expect_run<R: Threads + Wait + Sync + Abort>(
    rt: &R,
    alloc: Global,
    words: &[&str],
    text: (&str, Vec<u8>),
    rooms: (u32, u32),
    wanted: (u8, &str, &str),
) -> Result<(), Fail> {
    let words = words_of(alloc, words)?;
    let mut source = MemorySource::new(alloc, Text::new(alloc, text.0)?, text.1);
    let mut out = MemorySink::failing_after(alloc, rooms.0)?;
    let mut err = MemorySink::failing_after(alloc, rooms.1)?;
    let status = run_components(
        rt,
        alloc,
        &words,
        &mut source,
        &mut out,
        &mut err,
        &OpenGate,
    );
    assert_eq!(rt; (status, shown(&out), shown(&err)), wanted);
    Ok(())
}

#[test]
fn runs_write_what_is_right(rt: HostRuntime) -> Result<(), Fail> {
    let alloc = rt.alloc();
    for (words, name, text, status, on_out, on_err) in &RUNS {
        let bytes = text.as_bytes().to_vec(alloc)?;
        let wanted = (*status, *on_out, *on_err);
        expect_run(&rt, alloc, words, (*name, bytes), (4000, 4000), wanted)?;
    }
    Ok(())
}

#[test]
fn a_name_that_is_too_long_is_told_with_its_place(rt: HostRuntime) -> Result<(), Fail> {
    let alloc = rt.alloc();
    let mut bytes = b"a b\n c ".to_vec(alloc)?;
    let long = vec![in alloc; b'n'; 65_537]?;
    bytes.extend_from_slice(&long)?;
    let wanted = (3, "", "-:2:4: name is longer than 65536 bytes\n");
    expect_run(&rt, alloc, &["-"], ("-", bytes), (4000, 4000), wanted)
}

#[test]
fn a_sink_that_fails_ends_the_run(rt: HostRuntime) -> Result<(), Fail> {
    let alloc = rt.alloc();
    let text = b"p q\n".to_vec(alloc)?;
    expect_run(&rt, alloc, &[], ("-", text), (9, 9), (5, "nodes 2 g", ""))?;
    let text = b"p q\n".to_vec(alloc)?;
    expect_run(
        &rt,
        alloc,
        &["f"],
        ("-", text),
        (9, 9),
        (5, "", "component"),
    )
}
