//! Workers that expand nodes at the same time, and runs that never wait.

use crate::crowd::CrowdGate;
use crate::runs::{library_of, shown, words_of};
use group_tool::{Gate, MeetGate, MemorySink, OpenGate, parse_words, run_alone, run_groups};
use std::alloc::Global;
use std::process::Abort;
use std::sync::Wait;
use std::test::Fail;
use std::thread::Threads;

/// Two cycles, of which one calls the other, with a chain between them and a predicate that calls
/// itself.
const TEXT: &str = "a :- b. b :- a, c. c :- d. d :- e, f. e :- d. f :- f. g :- a, f.";

/// Two predicates that call nothing.
const TWO: &str = ":- module(x, [p/0, q/0]).\np.\nq.\n";

const TWO_REPORT: &str =
    "predicates 2 groups 2 recursive 0 levels 1\n0 plain x:p/0\n0 plain x:q/0\n";

/// Three predicates that call nothing.
const THREE: &str = ":- module(x, [p/0, q/0, r/0]).\np.\nq.\nr.\n";

const THREE_REPORT: &str =
    "predicates 3 groups 3 recursive 0 levels 1\n0 plain x:p/0\n0 plain x:q/0\n0 plain x:r/0\n";

const REPORT: &str =
    "predicates 7 groups 5 recursive 3 levels 5\n0 recursive user:f/0\n1 recursive user:d/0 user:e/0\n2 plain user:c/0\n3 recursive user:a/0 user:b/0\n4 plain user:g/0\n";

/// The output of a run with the arguments over one file `f.pl`. The gate is called for its
/// predicates as they are expanded. It ends with status 0.
fn report_of<R: Threads + Wait + Sync + Abort, G: Gate>(
    rt: &R,
    alloc: Global,
    words: &[&str],
    text: &str,
    gate: &G,
) -> Result<MemorySink, Fail> {
    let words = words_of(alloc, words)?;
    let mut library = library_of(alloc, &[("f.pl", text.as_bytes())], &[])?;
    let mut out = MemorySink::with_room(alloc, 1000)?;
    let mut err = MemorySink::with_room(alloc, 10)?;
    let status = run_groups(rt, alloc, &words, &mut library, &mut out, &mut err, gate);
    assert_eq!(rt; (status, shown(&err)), (0, ""));
    Ok(out)
}

/// The report is that of one job. No single search has both nodes at the gate at once.
#[test]
fn opens_two_nodes_at_once_with_two_workers(rt: HostRuntime) -> Result<(), Fail> {
    let alloc = rt.alloc();
    let gate = MeetGate::new(50_000_000);
    let out = report_of(&rt, alloc, &["--jobs", "2", "f.pl"], TWO, &gate)?;
    assert!(rt; gate.met());
    assert_eq!(rt; shown(&out), TWO_REPORT);
    let alone = report_of(&rt, alloc, &["--jobs", "1", "f.pl"], TWO, &OpenGate)?;
    assert_eq!(rt; shown(&alone), TWO_REPORT);
    Ok(())
}

/// Each of the three must be expanded by a worker of its own.
#[test]
fn opens_three_nodes_at_once_with_three_workers(rt: HostRuntime) -> Result<(), Fail> {
    let alloc = rt.alloc();
    let gate = CrowdGate::new();
    let out = report_of(&rt, alloc, &["--jobs", "3", "f.pl"], THREE, &gate)?;
    assert_eq!(rt; gate.met(), 3);
    assert_eq!(rt; shown(&out), THREE_REPORT);
    Ok(())
}

/// With a stream the groups may be in any order, so the head of the report and its length are
/// compared.
#[test]
fn opens_three_nodes_at_once_while_levels_are_found(rt: HostRuntime) -> Result<(), Fail> {
    let alloc = rt.alloc();
    let words = ["--jobs", "3", "--order", "--stream", "f.pl"];
    let gate = CrowdGate::new();
    let out = report_of(&rt, alloc, &words, THREE, &gate)?;
    assert_eq!(rt; gate.met(), 3);
    assert!(rt; shown(&out).starts_with("predicates 3 groups 3 recursive 0 levels 1\n0 plain x:"));
    assert_eq!(rt; shown(&out).len(), THREE_REPORT.len());
    Ok(())
}

#[test]
fn answers_options_without_waiting(rt: HostRuntime) -> Result<(), Fail> {
    let alloc = rt.alloc();
    let words = words_of(alloc, &["--searches", "2", "--seed", "1", "f.pl"])?;
    let mut library = library_of(alloc, &[("f.pl", TEXT.as_bytes())], &[])?;
    let mut out = MemorySink::with_room(alloc, 1000)?;
    let mut err = MemorySink::with_room(alloc, 10)?;
    match parse_words(alloc, &words) {
        Ok(options) => {
            assert!(rt; options.searches.is_some());
            assert!(rt; !options.stream);
            let status = run_alone(&rt, alloc, &options, &mut library, &mut out, &mut err);
            assert_eq!(rt; (status, shown(&out), shown(&err)), (0, REPORT, ""));
        }
        Err(_) => assert!(rt; false),
    }
    Ok(())
}
