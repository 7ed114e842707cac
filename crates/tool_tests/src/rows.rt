//! Whole runs that each show one more part of the report. More of them are rows of `checks/rows/`.

use crate::runs::{FilesRun, expect_files};
use std::test::Fail;

const FAMILY: &[u8] = b"/* Family facts. */
:- module(family, [ancestor/2, siblings/2, report/0]).
:- use_module(library(lists)).
:- dynamic parent/2.

parent(tom, bob).
parent(bob, \"ann\").

% ancestor(A, D): A is above D.
ancestor(X, Y) :- parent(X, Y).
ancestor(X, Y) :- parent(X, Z), ancestor(Z, Y).

siblings(X, Y) :- parent(P, X), parent(P, Y), X \\== Y.

report :-
    (   findall(X-Y, siblings(X, Y), L), L = [_|_]
    ->  forall(member(P, L), show(P))
    ;   format(\"none~n\", [])
    ).

show(X-Y) :- format(\"~w ~w~n\", [X, Y]).
";

const FAMILY_REPORT: &str = "predicates 5 groups 5 recursive 1 levels 3
0 plain family:parent/2
0 plain family:show/1
1 recursive family:ancestor/2
1 plain family:siblings/2
2 plain family:report/0
";

/// Groups that hold no root are reported too.
pub const CHAIN: &[(&str, &[u8])] = &[("f.pl", b":- module(a, [p/0]).\np :- q, r.\nq :- r.\nr.\n")];

pub const CHAIN_REPORT: &str =
    "predicates 3 groups 3 recursive 0 levels 3\n0 plain a:r/0\n1 plain a:q/0\n2 plain a:p/0\n";

const GRAMMAR: &[(&str, &[u8])] = &[(
    "f.pl",
    b"greeting --> [hello], name, { log(x) }.\nname --> [bob].\nlog(_).\n",
)];

const GRAMMAR_REPORT: &str = "predicates 3 groups 3 recursive 0 levels 2
0 plain user:log/1
0 plain user:name/2
1 plain user:greeting/2
";

const UNREACHED: &[(&str, &[u8])] = &[(
    "f.pl",
    b":- module(m, []).\n:- initialization(main).\nmain :- w.\nw.\nx.\n",
)];

const UNREACHED_REPORT: &str = "predicates 2 groups 2 recursive 0 levels 2
0 plain m:w/0
1 plain m:main/0
unreached m:x/0
";

const NAMES: &[(&str, &[u8])] = &[(
    "f.pl",
    b"\xC3\xA9t\xC3\xA9(X) :- \xC3\x91u = X.\n'hello world'.\n'it''s'.\n",
)];

const NAMES_REPORT: &str = "predicates 3 groups 3 recursive 0 levels 1
0 plain user:'hello world'/0
0 plain user:'it\\'s'/0
0 plain user:\u{E9}t\u{E9}/1
";

/// Two modules that export the same name, one of which exports what it doesn't define.
const TWICE: &[(&str, &[u8])] = &[
    ("a.pl", b":- module(a, [x/0]).\nx.\n"),
    ("b.pl", b":- module(b, [x/0, y/1]).\nx.\n"),
    (
        "m.pl",
        b":- module(m, [p/0]).\n:- use_module(a).\n:- use_module(b).\np :- x.\n",
    ),
    (
        "n.pl",
        b":- module(m, [p/0]).\n:- use_module(a).\n:- use_module(b).\np :- x.\nx.\n",
    ),
];

static ROWS: [FilesRun; 8] = [
    (
        &["family.pl"],
        &[("family.pl", FAMILY)],
        &[],
        " family.pl",
        0,
        FAMILY_REPORT,
        "",
    ),
    (&["f.pl"], CHAIN, &[], " f.pl", 0, CHAIN_REPORT, ""),
    (
        &["--order", "f.pl"],
        CHAIN,
        &[],
        " f.pl",
        0,
        CHAIN_REPORT,
        "",
    ),
    (&["f.pl"], GRAMMAR, &[], " f.pl", 0, GRAMMAR_REPORT, ""),
    (
        &["--unreached", "f.pl"],
        UNREACHED,
        &[],
        " f.pl",
        0,
        UNREACHED_REPORT,
        "",
    ),
    (&["f.pl"], NAMES, &[], " f.pl", 0, NAMES_REPORT, ""),
    (
        &["m.pl"],
        TWICE,
        &[],
        " m.pl a.pl b.pl",
        3,
        "",
        "b.pl:1:20: exported predicate is not defined\nm.pl:3:15: predicate is imported from two modules\n",
    ),
    (
        &["n.pl"],
        TWICE,
        &[],
        " n.pl a.pl b.pl",
        3,
        "",
        "b.pl:1:20: exported predicate is not defined\n",
    ),
];

#[test]
fn reports_what_each_layer_finds(rt: HostRuntime) -> Result<(), Fail> {
    expect_files(&rt, rt.alloc(), &ROWS)
}
