//! The call graph as it is computed node by node, reports in one list, and how names are spelled.

use crate::programs::program_of;
use call_edges::Calls;
use graph_law::Opener;
use import_rules::Program;
use loop_report::{order_report, quote_atom, report};
use std::alloc::{AllocError, Global};
use std::test::Fail;
use std::thread::Threads;

const TEXT: &[u8] = b"a :- c, d. b. c :- a. d.";

/// For each predicate the numbers of those that it calls.
const LISTS: &str = " 2 3\n\n 0\n\n";

/// The report on no groups.
const REPORT: &[u8] = b"predicates 0 groups 0 recursive 0 levels 0
unreached user:a/0
unreached user:b/0
unreached user:c/0
unreached user:d/0
";

/// Names, and how reports spell them.
const SPELLED: [(&str, &str); 6] = [
    ("abc", "abc"),
    ("Abc", "'Abc'"),
    ("", "''"),
    ("it's", "'it\\'s'"),
    ("a\nb", "'a\\nb'"),
    ("\u{1}", "'\\x01\\'"),
];

/// The numbers of the predicates that each predicate calls, a line for each.
fn lists_of(alloc: Global, program: &Program) -> Result<String, AllocError> {
    let calls = Calls::new(program);
    let mut text = String::new(alloc);
    for node in 0..calls.count() {
        let mut callees = Vec::new(alloc);
        calls.expand(node, &mut callees)?;
        for callee in &callees {
            let number = format!(in alloc; " {callee}")?;
            text.push_str(&number)?;
        }
        text.push_str("\n")?;
    }
    Ok(text)
}

/// The same of a text.
fn lists_in<R: Threads + Sync>(rt: &R, alloc: Global, text: &[u8]) -> Result<String, AllocError> {
    match program_of(rt, alloc, text)? {
        Some(program) => lists_of(alloc, &program),
        None => String::from_str(alloc, "no program"),
    }
}

/// The report on no groups of the program of a text, with the lines in order, or as they are given.
fn report_in<R: Threads + Sync>(
    rt: &R,
    alloc: Global,
    text: &[u8],
    given: bool,
) -> Result<Vec<u8>, AllocError> {
    let Some(program) = program_of(rt, alloc, text)? else {
        return Ok(Vec::new(alloc));
    };
    if given {
        return order_report(alloc, &program, &[], &[], true);
    }
    report(alloc, &program, &[], &[], true)
}

#[test]
fn expands_nodes_one_by_one(rt: HostRuntime) -> Result<(), Fail> {
    let lists = lists_in(&rt, rt.alloc(), TEXT)?;
    assert_eq!(&rt; lists.as_str(), LISTS);
    Ok(())
}

#[test]
fn reports_in_one_list(rt: HostRuntime) -> Result<(), Fail> {
    for given in [false, true] {
        let bytes = report_in(&rt, rt.alloc(), TEXT, given)?;
        assert_eq!(&rt; bytes.as_slice(), REPORT);
    }
    Ok(())
}

#[test]
fn spells_names_as_reports_do(rt: HostRuntime) -> Result<(), Fail> {
    for (name, wanted) in SPELLED {
        let mut text = Vec::new(rt.alloc());
        quote_atom(rt.alloc(), name, &mut text)?;
        assert_eq!(&rt; text.as_slice(), wanted.as_bytes());
    }
    Ok(())
}
