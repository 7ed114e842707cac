//! Searches that run one after another until they are suspended or have released their nodes: what
//! is on the stacks and in the book after each step.

ghost use Rattle.std.specs.Prelude.{◌≡◌, OnOk};

use crate::graphs::graph_of_lists;
use crate::lead::{next_search, take_step};
use crate::text::{book_shown, stack_shown};
use graph_law::Graph;
use group_release::Book;
use std::alloc::Global;
use std::test::Fail;

/// A graph, how many times a search begins or goes on, and the trace. It has a line for each step:
/// the stack, its frames, where it is cut at each of its nodes, and the book.
struct Row {
    lists: &'static [&'static [u32]],
    roots: &'static [u32],
    searches: u32,
    trace: &'static str,
}

fn rows() -> &'static [Row] {
    &[
        // A node that calls itself. It is a group only once that edge has begun.
        Row {
            lists: &[&[0]],
            roots: &[0],
            searches: 1,
            trace: "\
[0] [(0, 0)] cuts [(0, 0)] ripe false
held [] ready false released [] []
[0] [(0, 0)] cuts [(0, 0)] ripe true
held [] ready false released [] []
held [] ready false released [0] [[0]]
",
        },
        // The members of a group come ascending. Nodes that no root reaches are in none.
        Row {
            lists: &[&[], &[3], &[], &[1]],
            roots: &[3, 0],
            searches: 2,
            trace: "\
[3] [(0, 0)] cuts [(0, 0)] ripe false
held [] ready false released [] []
[3, 1] [(0, 0), (1, 1)] cuts [(0, 0), (1, 1)] ripe false
held [] ready false released [] []
[3, 1] [(0, 0), (1, 0)] cuts [(0, 0), (0, 0)] ripe false
held [] ready false released [] []
[3, 1] [(0, 0)] cuts [(0, 0), (0, 0)] ripe true
held [] ready false released [] []
held [] ready false released [1, 3] [[1, 3]]
[0] [(0, 0)] cuts [(0, 0)] ripe true
held [] ready false released [1, 3] [[1, 3]]
held [] ready false released [0, 1, 3] [[1, 3], [0]]
",
        },
        // The suspended search is moved whole, since a low in its upper part is below where it
        // would be cut.
        Row {
            lists: &[&[2], &[2], &[3], &[1, 0]],
            roots: &[1, 0],
            searches: 2,
            trace: "\
[1] [(0, 0)] cuts [(0, 0)] ripe false
held [] ready false released [] []
[1, 2] [(0, 0), (1, 1)] cuts [(0, 0), (1, 1)] ripe false
held [] ready false released [] []
[1, 2, 3] [(0, 0), (1, 1), (2, 2)] cuts [(0, 0), (1, 1), (2, 2)] ripe false
held [] ready false released [] []
[1, 2, 3] [(0, 0), (1, 1), (2, 0)] cuts [(0, 0), (0, 0), (0, 0)] ripe false
held [] ready false released [] []
held [1, 2, 3] ready false released [] []
[0] [(0, 0)] cuts [(0, 0)] ripe false
held [1, 2, 3] ready false released [] []
[0, 1, 2, 3] [(0, 0), (1, 1), (2, 2), (3, 0)] cuts [(0, 0), (0, 0), (0, 0), (0, 0)] ripe false
held [] ready false released [] []
[0, 1, 2, 3] [(0, 0), (1, 1), (2, 0)] cuts [(0, 0), (0, 0), (0, 0), (0, 0)] ripe false
held [] ready false released [] []
[0, 1, 2, 3] [(0, 0), (1, 0)] cuts [(0, 0), (0, 0), (0, 0), (0, 0)] ripe false
held [] ready false released [] []
[0, 1, 2, 3] [(0, 0)] cuts [(0, 0), (0, 0), (0, 0), (0, 0)] ripe true
held [] ready false released [] []
held [] ready false released [0, 1, 2, 3] [[0, 1, 2, 3]]
",
        },
        // The rest of a suspended search stays suspended. It waits for the node that it led to,
        // until that is released.
        Row {
            lists: &[&[2], &[2], &[3], &[1, 0], &[1]],
            roots: &[4, 0],
            searches: 3,
            trace: "\
[4] [(0, 0)] cuts [(0, 0)] ripe false
held [] ready false released [] []
[4, 1] [(0, 0), (1, 1)] cuts [(0, 0), (1, 1)] ripe false
held [] ready false released [] []
[4, 1, 2] [(0, 0), (1, 1), (2, 2)] cuts [(0, 0), (1, 1), (2, 2)] ripe false
held [] ready false released [] []
[4, 1, 2, 3] [(0, 0), (1, 1), (2, 2), (3, 3)] cuts [(0, 0), (1, 1), (2, 2), (3, 3)] ripe false
held [] ready false released [] []
[4, 1, 2, 3] [(0, 0), (1, 1), (2, 2), (3, 1)] cuts [(0, 0), (1, 1), (1, 1), (1, 1)] ripe false
held [] ready false released [] []
held [1, 2, 3, 4] ready false released [] []
[0] [(0, 0)] cuts [(0, 0)] ripe false
held [1, 2, 3, 4] ready false released [] []
[0, 1, 2, 3] [(0, 0), (1, 1), (2, 2), (3, 0)] cuts [(0, 0), (0, 0), (0, 0), (0, 0)] ripe false
held [4] ready false released [] []
[0, 1, 2, 3] [(0, 0), (1, 1), (2, 0)] cuts [(0, 0), (0, 0), (0, 0), (0, 0)] ripe false
held [4] ready false released [] []
[0, 1, 2, 3] [(0, 0), (1, 0)] cuts [(0, 0), (0, 0), (0, 0), (0, 0)] ripe false
held [4] ready false released [] []
[0, 1, 2, 3] [(0, 0)] cuts [(0, 0), (0, 0), (0, 0), (0, 0)] ripe true
held [4] ready false released [] []
held [4] ready true released [0, 1, 2, 3] [[0, 1, 2, 3]]
[4] [(0, 0)] cuts [(0, 0)] ripe true
held [] ready false released [0, 1, 2, 3] [[0, 1, 2, 3]]
held [] ready false released [0, 1, 2, 3, 4] [[0, 1, 2, 3], [4]]
",
        },
        // Three searches, each of which waits for the next in a cycle: the last one moves both
        // others on top of itself.
        Row {
            lists: &[&[1], &[2], &[0]],
            roots: &[1, 2, 0],
            searches: 3,
            trace: "\
[1] [(0, 0)] cuts [(0, 0)] ripe false
held [] ready false released [] []
held [1] ready false released [] []
[2] [(0, 0)] cuts [(0, 0)] ripe false
held [1] ready false released [] []
held [1, 2] ready false released [] []
[0] [(0, 0)] cuts [(0, 0)] ripe false
held [1, 2] ready false released [] []
[0, 1, 2] [(0, 0), (1, 1), (2, 0)] cuts [(0, 0), (0, 0), (0, 0)] ripe false
held [] ready false released [] []
[0, 1, 2] [(0, 0), (1, 0)] cuts [(0, 0), (0, 0), (0, 0)] ripe false
held [] ready false released [] []
[0, 1, 2] [(0, 0)] cuts [(0, 0), (0, 0), (0, 0)] ripe true
held [] ready false released [] []
held [] ready false released [0, 1, 2] [[0, 1, 2]]
",
        },
    ]
}

#[test]
fn searches_run_as_traced(rt: HostRuntime) -> Result<(), Fail> {
    let alloc = rt.alloc();
    for row in rows() {
        let graph = graph_of_lists(alloc, row.lists, row.roots)?;
        let seen = trace(alloc, &graph, row.searches)?;
        assert_eq!(rt; seen.as_str(), row.trace);
    }
    Ok(())
}

/// The trace of a graph.
fn trace(alloc: Global, graph: &Graph, searches: u32) -> Result<String, Fail> {
    let mut seen = String::new(alloc);
    let mut book = Book::make(alloc, graph, graph.roots())?;
    'searches: for _search in 0..searches {
        run_next(alloc, graph, &mut book, &mut seen)?;
    }
    Ok(seen)
}

/// Runs the next search until it is suspended or has released its nodes, and writes what is seen
/// before each step and after the last one.
fn run_next(alloc: Global, graph: &Graph, book: &mut Book, seen: &mut String) -> Result<(), Fail>
    requires { book.old.lists ≡ graph.now.lists }
    ensures { OnOk result (book.new.lists ≡ graph.now.lists) }
{
    let mut search = next_search(alloc, graph, book)?;
    'steps: for _step in 0..20u32 {
        seen.push_str(stack_shown(alloc, &search)?.as_str())?;
        seen.push_str(book_shown(alloc, graph, book)?.as_str())?;
        match take_step(alloc, graph, book, search)? {
            Some(after) => search = after,
            None => {
                seen.push_str(book_shown(alloc, graph, book)?.as_str())?;
                return Ok(());
            }
        }
    }
    Err("the search takes too many steps".into())
}
