//! Searches that run one after another with a book, step by step.

ghost use Rattle.std.specs.Prelude.{◌≡◌, ◌⊎◌, [], None, slice_index_or, OnOk, IfOk, IfSome};
ghost use Rattle.std.specs.Bool.{OnTrue};
ghost use Rattle.search_stack.specs.Search.{IsDone, IsLastBegun, IsOn, IsRipe, pushed};
ghost use Rattle.search_stack.specs.Stack.{size};
ghost use Rattle.group_release.specs.Book.{RunsBeside};
ghost use Rattle.search_tests.specs.Led.{IsFreeIn, LeadsTo};

use blocked_table::Suspended;
use graph_law::{Graph, Opener};
use group_release::Book;
use search_stack::{Opening, Search};
use std::alloc::Global;
use std::test::Fail;

/// A search that goes on: a suspended one that is ready, or else one that has pushed the next root,
/// which no other search holds.
pub(crate) fn next_search(alloc: Global, graph: &Graph, book: &mut Book) -> Result<Search, Fail>
    requires { book.old.lists ≡ graph.now.lists }
    ensures same { IfOk result (λ _. book.new.lists ≡ graph.now.lists) }
    ensures runs { IfOk result (RunsBeside book.new) }
{
    match book.take_ready() {
        Some(search) => Ok(search),
        None => start(alloc, graph, book),
    }
}

/// A search that has pushed the next root.
fn start(alloc: Global, graph: &Graph, book: &mut Book) -> Result<Search, Fail>
    requires { book.old.lists ≡ graph.now.lists }
    ensures same { IfOk result (λ _. book.new.lists ≡ graph.now.lists) }
    ensures runs { IfOk result (RunsBeside book.new) }
{
    let Some(root) = book.next_root() else {
        return Err("all roots were given out".into());
    };
    if !is_free(book, root) {
        return Err("the root isn't free".into());
    }
    let mut search = Search::with_room(alloc, 1)?;
    push(alloc, graph, root, &mut search)?;
    Ok(search)
}

/// Whether no suspended search holds the node, and no group has it.
fn is_free(book: &Book, node: u32) -> bool
    ensures { OnTrue result (IsFreeIn book.now node) }
{
    if book.released().holds(node) {
        return false;
    }
    match book.blocked().holder(node) {
        Some(_) => false,
        None => true,
    }
}

/// Pushes a node with its successors.
fn push(alloc: Global, graph: &Graph, node: u32, search: &mut Search) -> Result<(), Fail>
    requires wants_nothing { search.old.wanted ≡ None }
    requires fresh { IsOn search.old.stack node → ⊥ }
    requires led { (size search.old.stack ≡ 0) ⊎ IsLastBegun search.old.stack node }
    ensures wants_nothing { OnOk result (search.new.wanted ≡ None) }
    ensures pushed { OnOk result (search.new.stack ≡ pushed search.old.stack node (slice_index_or graph.now.lists node [])) }
{
    if node >= graph.count() {
        return Err("no such node".into());
    }
    let mut succs = Vec::new(alloc);
    graph.expand(node, &mut succs)?;
    search.reserve(1)?;
    search.push(Opening { node, succs });
    Ok(())
}

/// The search after its next step. None if it is suspended then, or has released its nodes.
pub(crate) fn take_step(
    alloc: Global,
    graph: &Graph,
    book: &mut Book,
    mut search: Search,
) -> Result<Option<Search>, Fail>
    requires lists { book.old.lists ≡ graph.now.lists }
    requires runs { RunsBeside book.old search }
    ensures same { IfOk result (λ _. book.new.lists ≡ book.old.lists) }
    ensures runs { IfOk result (λ after. IfSome after (RunsBeside book.new)) }
{
    match search.begin() {
        Some(node) => follow(alloc, graph, book, search, node),
        None => finish(book, search),
    }
}

/// Follows an edge that has begun: back to a node of the search, or to a free node, which is
/// pushed. A root is left to the search that begins there. So at a root, or a node of a suspended
/// search, the search is suspended too, or goes on with what it waited for on top.
fn follow(
    alloc: Global,
    graph: &Graph,
    book: &mut Book,
    mut search: Search,
    node: u32,
) -> Result<Option<Search>, Fail>
    requires lists { book.old.lists ≡ graph.now.lists }
    requires leads { LeadsTo book.old search node }
    ensures same { IfOk result (λ _. book.new.lists ≡ book.old.lists) }
    ensures runs { IfOk result (λ after. IfSome after (RunsBeside book.new)) }
{
    if search.holds(node) {
        search.back(node);
        return Ok(Some(search));
    }
    if book.roots().contains(&node) || !is_free(book, node) {
        return wait(book, search, node);
    }
    push(alloc, graph, node, &mut search)?;
    Ok(Some(search))
}

/// Suspends a search until the node is finished to which its last edge leads. The search if it goes
/// on with what it waited for on top.
fn wait(book: &mut Book, search: Search, node: u32) -> Result<Option<Search>, Fail>
    requires leads { LeadsTo book.old search node }
    requires off { IsOn search.stack node → ⊥ }
    ensures same { IfOk result (λ _. book.new.lists ≡ book.old.lists) }
    ensures runs { IfOk result (λ after. IfSome after (RunsBeside book.new)) }
{
    if book.released().holds(node) {
        return Err("the search need not wait".into());
    }
    match book.suspend(search, node) {
        Ok(Suspended::Kept) => Ok(None),
        Ok(Suspended::Moved(after)) => Ok(Some(after)),
        Err((error, _)) => Err(error.into()),
    }
}

/// Joins the top segment to the one below, or releases it if it is a group.
fn finish(book: &mut Book, mut search: Search) -> Result<Option<Search>, Fail>
    requires runs { RunsBeside book.old search }
    requires done { IsDone search.stack }
    ensures same { IfOk result (λ _. book.new.lists ≡ book.old.lists) }
    ensures runs { IfOk result (λ after. IfSome after (RunsBeside book.new)) }
{
    if search.is_ripe() {
        release(book, search)?;
        return Ok(None);
    }
    search.retreat();
    Ok(Some(search))
}

/// Releases the top segment of a search, which is all of it.
fn release(book: &mut Book, mut search: Search) -> Result<(), Fail>
    requires runs { RunsBeside book.old search }
    requires ripe { IsRipe search.stack }
    ensures { OnOk result (book.new.lists ≡ book.old.lists) }
{
    if search.frame_count() > 1 {
        return Err("the search goes on below the group".into());
    }
    search.len();
    book.keeps();
    let group = search.take_ripe()?;
    book.release(group);
    Ok(())
}
