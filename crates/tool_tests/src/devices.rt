//! Runs whose devices fail: a read, a sink that takes no more, a flush.

use crate::asking::{RING, RING_REPORT};
use crate::rows::{CHAIN, CHAIN_REPORT};
use crate::runs::{library_of, words_of};
use group_tool::{MemorySink, OpenGate, run_groups};
use std::alloc::{AllocError, Global};
use std::process::Abort;
use std::sync::Wait;
use std::test::Fail;
use std::thread::Threads;

/// The capacity of each sink of these runs in bytes.
const AMPLE: u32 = 1000;

/// What fails in a run with one argument over files in memory: reads by their numbers, a sink after
/// it has taken this many bytes, or the flush of standard output.
#[derive(Drop)]
struct Failing {
    word: &'static str,
    files: &'static [(&'static str, &'static [u8])],
    reads: &'static [u32],
    out: u32,
    flush: bool,
    err: u32,
}

/// How a run ends: its status, and what both sinks have taken.
#[derive(Drop)]
struct Ending {
    status: u8,
    out: &'static str,
    err: &'static str,
}

const NOTHING: Failing = Failing {
    word: "a.pl",
    files: RING,
    reads: &[],
    out: AMPLE,
    flush: false,
    err: AMPLE,
};

/// A module that loads a file which isn't there, and imports what another one doesn't export.
const GONE: &[(&str, &[u8])] = &[
    (
        "m.pl",
        b":- module(m, []).\n:- use_module(gone).\n:- use_module(c, [z/9]).\n:- use_module(library(lists)).\n",
    ),
    ("c.pl", b":- module(c, [s/0]).\ns.\n"),
];

const UNREAD: u8 = 4;

const CUT_OFF: u8 = 5;

static RUNS: [(Failing, Ending); 6] = [
    (
        Failing {
            reads: &[1],
            word: "a.pl",
            files: RING,
            out: AMPLE,
            flush: false,
            err: AMPLE,
        },
        Ending {
            status: UNREAD,
            out: "",
            err: "groups: cannot read a.pl\n",
        },
    ),
    (
        Failing {
            reads: &[2],
            word: "a.pl",
            files: RING,
            out: AMPLE,
            flush: false,
            err: AMPLE,
        },
        Ending {
            status: UNREAD,
            out: "",
            err: "groups: cannot read b.pl\n",
        },
    ),
    (
        Failing {
            reads: &[3],
            word: "a.pl",
            files: RING,
            out: AMPLE,
            flush: false,
            err: AMPLE,
        },
        Ending {
            status: UNREAD,
            out: "",
            err: "groups: cannot read c.pl\n",
        },
    ),
    // (the second wave is c.pl and gone.pl, in this order)
    (
        Failing {
            reads: &[3],
            word: "m",
            files: GONE,
            out: AMPLE,
            flush: false,
            err: AMPLE,
        },
        Ending {
            status: UNREAD,
            out: "",
            err: "groups: cannot read gone.pl\n",
        },
    ),
    (
        Failing {
            reads: &[],
            word: "f.pl",
            files: CHAIN,
            out: AMPLE,
            flush: true,
            err: AMPLE,
        },
        Ending {
            status: CUT_OFF,
            out: CHAIN_REPORT,
            err: "",
        },
    ),
    (
        Failing {
            reads: &[],
            word: "m",
            files: GONE,
            out: AMPLE,
            flush: false,
            err: 5,
        },
        Ending {
            status: CUT_OFF,
            out: "",
            err: "m.pl:",
        },
    ),
];

fn make_sink(alloc: Global, most: u32, flush_fails: bool) -> Result<MemorySink, AllocError> {
    if flush_fails {
        return MemorySink::failing_flush(alloc, most);
    }
    MemorySink::failing_after(alloc, most)
}

/// Runs with the argument, and compares the status and the bytes on both sinks.
fn expect_end<R: Threads + Wait + Sync + Abort>(
    rt: &R,
    alloc: Global,
    failing: &Failing,
    status: u8,
    on_out: &[u8],
    on_err: &[u8],
) -> Result<(), Fail> {
    let words = words_of(alloc, &[failing.word])?;
    let mut library = library_of(alloc, failing.files, failing.reads)?;
    let mut out = make_sink(alloc, failing.out, failing.flush)?;
    let mut err = make_sink(alloc, failing.err, false)?;
    let ended = run_groups(
        rt,
        alloc,
        &words,
        &mut library,
        &mut out,
        &mut err,
        &OpenGate,
    );
    assert_eq!(rt; (ended, out.bytes(), err.bytes()), (status, on_out, on_err));
    Ok(())
}

/// One table, in which the sink of a report is too small by each number of bytes.
#[test]
fn ends_as_devices_fail(rt: HostRuntime) -> Result<(), Fail> {
    let alloc = rt.alloc();
    for (failing, ending) in &RUNS {
        let (out, err) = (ending.out.as_bytes(), ending.err.as_bytes());
        expect_end(&rt, alloc, failing, ending.status, out, err)?;
    }
    for most in 0..RING_REPORT.len() {
        let failing = Failing {
            out: most as u32,
            ..NOTHING
        };
        expect_end(
            &rt,
            alloc,
            &failing,
            CUT_OFF,
            &RING_REPORT.as_bytes()[..most],
            b"",
        )?;
    }
    Ok(())
}
