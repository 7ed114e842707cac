//! Which files runs read, and files that can't be read.

use crate::runs::{FilesRun, expect_files};
use std::test::Fail;

/// Modules that import each other, and one that both import.
pub const RING: &[(&str, &[u8])] = &[
    (
        "a.pl",
        b":- module(a, [p/0]).\n:- use_module(b).\n:- use_module(c).\np :- q, s.\n",
    ),
    (
        "b.pl",
        b":- module(b, [q/0]).\n:- use_module(a).\n:- use_module(c).\nq :- p.\n",
    ),
    ("c.pl", b":- module(c, [s/0]).\ns.\n"),
];

pub const RING_REPORT: &str =
    "predicates 3 groups 2 recursive 1 levels 2\n0 plain c:s/0\n1 recursive a:p/0 b:q/0\nimport-loop a b\n";

const LOOP: &[(&str, &[u8])] = &[("f.pl", b"p :- p.\n")];

const REPORT: &str = "predicates 1 groups 1 recursive 1 levels 1\n0 recursive user:p/0\n";

/// Runs that read each name once, a wave at a time and in order, and none if the arguments ask for
/// a generated program.
static ASKED: [FilesRun; 6] = [
    (&["a.pl"], RING, &[], " a.pl b.pl c.pl", 0, RING_REPORT, ""),
    (
        &["c", "b"],
        RING,
        &[],
        " b.pl c.pl a.pl",
        0,
        RING_REPORT,
        "",
    ),
    (
        &["g", "f", "./e.pl", "x/..//f"],
        LOOP,
        &[],
        " e.pl f.pl g.pl",
        3,
        "",
        "e.pl: no such file\ng.pl: no such file\n",
    ),
    (
        &["/t/../b", ".pl", "\u{E9}.pl"],
        &[("/b.pl", b""), (".pl", b""), ("\u{E9}.pl", b"")],
        &[],
        " .pl /b.pl \u{E9}.pl",
        0,
        "predicates 0 groups 0 recursive 0 levels 0\n",
        "",
    ),
    (
        &["f.pl", "--roots", "p:q/0"],
        LOOP,
        &[],
        " f.pl",
        2,
        "",
        "groups: no predicate p:q/0\n",
    ),
    (
        &["--make", "1"],
        &[("gen.pl", b"p :- 3.\n")],
        &[1],
        "",
        0,
        "predicates 1 groups 1 recursive 0 levels 1\n",
        "",
    ),
];

#[test]
fn asks_for_each_name_once(rt: HostRuntime) -> Result<(), Fail> {
    expect_files(&rt, rt.alloc(), &ASKED)
}

/// Reads that fail in the first wave, or in a later one.
static UNREAD: [FilesRun; 5] = [
    (&["f.pl"], LOOP, &[2], " f.pl", 0, REPORT, ""),
    (
        &["f.pl"],
        LOOP,
        &[1],
        " f.pl",
        4,
        "",
        "groups: cannot read f.pl\n",
    ),
    (
        &["g", "f"],
        LOOP,
        &[2],
        " f.pl g.pl",
        4,
        "",
        "groups: cannot read g.pl\n",
    ),
    (
        &["g", "f"],
        LOOP,
        &[1],
        " f.pl",
        4,
        "",
        "groups: cannot read f.pl\n",
    ),
    (
        &["m.pl", "f"],
        &[("f.pl", b"7.\n"), ("m.pl", b":- [gone, c].\n")],
        &[4],
        " f.pl m.pl c.pl gone.pl",
        4,
        "",
        "groups: cannot read gone.pl\n",
    ),
];

#[test]
fn tells_a_file_that_cannot_be_read(rt: HostRuntime) -> Result<(), Fail> {
    expect_files(&rt, rt.alloc(), &UNREAD)
}
