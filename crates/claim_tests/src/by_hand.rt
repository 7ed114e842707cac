//! A search that is led by hand, with the claims of its pass, and released under the lock.

ghost use Rattle.std.specs.Prelude.{◌≡◌, ◌⊎◌, ◌<◌, ◌≤◌, true, false, [], ◌∷◌, Some, length, Contains, IfOk, OnOk};
ghost use Rattle.std.specs.Bool.{OnTrue};
ghost use Rattle.graph_law.specs.Graph.{Calls};
ghost use Rattle.graph_law.specs.Reach.{IsReached};
ghost use Rattle.list_laws.specs.Counts.{times};
ghost use Rattle.search_stack.specs.Search.{IsLastBegun, IsOn};
ghost use Rattle.search_stack.specs.Stack.{size};
ghost use Rattle.search_pool.specs.Driving.{IsIdlePass};
ghost use Rattle.search_pool.specs.Worker.{IsSearching, IsWorking};

use graph_law::{Graph, Opener};
use node_claims::{Claimed, Claims, Looked, Pass};
use search_stack::{Opening, Search};
use std::alloc::Global;
use std::sync::Wait;
use std::test::Fail;

/// A search that has pushed the root, which the pass has won.
pub(crate) fn start(
    alloc: Global,
    graph: &Graph,
    claims: &Claims,
    pass: &mut Pass,
    root: u32,
) -> Result<Search, Fail>
    requires made { claims.now.lists ≡ graph.now.lists }
    requires idle { IsIdlePass claims.now pass.old }
    requires below { root < length claims.now.lists }
    requires root { Contains claims.now.roots root }
    ensures { IfOk result (λ search. IsSearching claims.now pass.new search false) }
{
    let Claimed::Won = claims.claim(pass, root) else {
        return Err("another pass has the root".into());
    };
    let mut search = Search::with_room(alloc, 1)?;
    push(alloc, graph, claims, pass, &mut search, root)?;
    Ok(search)
}

/// Pushes a node that the pass has won, with its successors.
fn push(
    alloc: Global,
    graph: &Graph,
    claims: &Claims,
    pass: &Pass,
    search: &mut Search,
    node: u32,
) -> Result<(), Fail>
    requires made { claims.now.lists ≡ graph.now.lists }
    requires working { IsWorking claims.now pass.now search.old (Some node) true }
    requires below { node < length claims.now.lists }
    requires away { IsOn search.old.stack node → ⊥ }
    requires led { (size search.old.stack ≡ 0) ⊎ IsLastBegun search.old.stack node }
    requires reached { size search.old.stack ≡ 0 → IsReached (Calls claims.now.lists) claims.now.roots node }
    ensures { OnOk result (IsSearching claims.now pass.now search.new false) }
{
    let mut succs = Vec::new(alloc);
    graph.expand(node, &mut succs)?;
    search.reserve(1)?;
    search.push(Opening { node, succs });
    Ok(())
}

/// Claims a node that the pass has already.
fn claim_again(claims: &Claims, pass: &mut Pass, search: &Search, node: u32) -> Result<(), Fail>
    requires runs { IsSearching claims.now pass.old search.now false }
    requires below { node < length claims.now.lists }
    ensures { OnOk result (IsSearching claims.now pass.new search.now false) }
{
    let Claimed::Held = claims.claim(pass, node) else {
        return Err("the node isn't held".into());
    };
    Ok(())
}

/// Looks at a node that no pass has claimed.
fn look_unseen(claims: &Claims, pass: &mut Pass, search: &Search, node: u32) -> Result<(), Fail>
    requires runs { IsSearching claims.now pass.old search.now false }
    requires below { node < length claims.now.lists }
    ensures { OnOk result (IsSearching claims.now pass.new search.now false) }
{
    let Looked::Unseen = claims.look(pass, node) else {
        return Err("the node was claimed".into());
    };
    Ok(())
}

/// Begins the next edge, which must lead to the node.
fn begin(claims: &Claims, pass: &Pass, search: &mut Search, node: u32) -> Result<(), Fail>
    requires { IsSearching claims.now pass.now search.old false }
    ensures runs { OnOk result (IsSearching claims.now pass.now search.new true) }
    ensures last { OnOk result (IsLastBegun search.new.stack node) }
{
    let Some(next) = search.begin() else {
        return Err("all edges have begun".into());
    };
    if next != node {
        return Err("the edge leads to another node".into());
    }
    Ok(())
}

/// Follows the next edge to a node that no pass has claimed, and pushes it.
fn enter(
    alloc: Global,
    graph: &Graph,
    claims: &Claims,
    pass: &mut Pass,
    search: &mut Search,
    node: u32,
) -> Result<(), Fail>
    requires made { claims.now.lists ≡ graph.now.lists }
    requires runs { IsSearching claims.now pass.old search.old false }
    requires below { node < length claims.now.lists }
    ensures { OnOk result (IsSearching claims.now pass.new search.new false) }
{
    begin(claims, pass, search, node)?;
    let Claimed::Won = claims.claim(pass, node) else {
        return Err("another pass has the node".into());
    };
    push(alloc, graph, claims, pass, search, node)
}

/// Follows the next edge back to a node of the search.
fn back(claims: &Claims, pass: &Pass, search: &mut Search, node: u32) -> Result<(), Fail>
    requires { IsSearching claims.now pass.now search.old false }
    ensures { OnOk result (IsSearching claims.now pass.now search.new false) }
{
    begin(claims, pass, search, node)?;
    if !search.back(node) {
        return Err("the node isn't on the search".into());
    }
    Ok(())
}

/// Joins the top segment to the one below.
fn join(claims: &Claims, pass: &Pass, search: &mut Search) -> Result<(), Fail>
    requires { IsSearching claims.now pass.now search.old false }
    ensures { OnOk result (IsSearching claims.now pass.now search.new false) }
{
    let None = search.begin() else {
        return Err("an edge of the top segment had not begun".into());
    };
    if search.is_ripe() {
        return Err("the top segment is a group".into());
    }
    search.retreat();
    Ok(())
}

/// Releases a search that is the whole cycle. Its nodes are closed before the lock is released, so
/// every pass finds them finished from then on.
pub(crate) fn release_ring(
    rt: &impl Wait,
    claims: &Claims,
    pass: Pass,
    mut search: Search,
) -> Result<Pass, Fail>
    requires { IsSearching claims.now pass search false }
    ensures { IfOk result (IsIdlePass claims.now) }
{
    if !search.is_ripe() {
        return Err("the top segment is no group yet".into());
    }
    let group = search.take_ripe()?;
    if !search.is_empty() {
        return Err("there is more on the search".into());
    }
    if !is_ring(&group) {
        return Err("another group".into());
    }
    let mut turn = claims.turn(rt, pass);
    turn.book().release(group);
    turn.close(0);
    turn.close(1);
    turn.close(2);
    Ok(turn.give(&search, None))
}

/// Whether these are the nodes of the cycle.
fn is_ring(nodes: &[u32]) -> bool
    ensures { OnTrue result (nodes.now ≡ 0 ∷ 1 ∷ 2 ∷ []) }
{
    nodes == [0, 1, 2].as_slice()
}

/// Searches the cycle from its root on, which the search has pushed: claims the root again, looks at
/// the next node, enters it and the one after it, and goes back to the root. Then the whole cycle is
/// the top segment.
pub(crate) fn lead(
    alloc: Global,
    graph: &Graph,
    claims: &Claims,
    pass: &mut Pass,
    search: &mut Search,
) -> Result<(), Fail>
    requires made { claims.now.lists ≡ graph.now.lists }
    requires nodes { 3 ≤ length claims.now.lists }
    requires runs { IsSearching claims.now pass.old search.old false }
    ensures { OnOk result (IsSearching claims.now pass.new search.new false) }
{
    claim_again(claims, pass, search, 0)?;
    look_unseen(claims, pass, search, 1)?;
    enter(alloc, graph, claims, pass, search, 1)?;
    enter(alloc, graph, claims, pass, search, 2)?;
    back(claims, pass, search, 0)?;
    join(claims, pass, search)?;
    join(claims, pass, search)
}

/// Finds two nodes finished, by a look at the one and a claim of the root, which the pass has seen
/// then.
pub(crate) fn see_done(claims: &Claims, pass: &mut Pass) -> Result<(), Fail>
    requires idle { IsIdlePass claims.now pass.old }
    requires nodes { 2 ≤ length claims.now.lists }
    ensures idle { OnOk result (IsIdlePass claims.now pass.new) }
    ensures seen { OnOk result (0 < times 0 pass.new.view.seen) }
{
    let Looked::Done = claims.look(pass, 1) else {
        return Err("the node isn't finished".into());
    };
    claim_done(claims, pass, 0)
}

/// Claims a node that is finished, which the pass has seen then.
fn claim_done(claims: &Claims, pass: &mut Pass, node: u32) -> Result<(), Fail>
    requires idle { IsIdlePass claims.now pass.old }
    requires below { node < length claims.now.lists }
    ensures idle { OnOk result (IsIdlePass claims.now pass.new) }
    ensures seen { OnOk result (0 < times node pass.new.view.seen) }
{
    let Claimed::Done = claims.claim(pass, node) else {
        return Err("the node isn't finished".into());
    };
    Ok(())
}
