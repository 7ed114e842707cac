ghost use Rattle.std.specs.Prelude.{◌≡◌, ◌⊎◌, ◌<◌, ℕ, true, false, None, Some, length, IfOk, IfErr};
ghost use Rattle.graph_law.specs.Graph.{Calls};
ghost use Rattle.graph_law.specs.Reach.{IsReached};
ghost use Rattle.search_stack.specs.Search.{IsLastBegun, IsOn};
ghost use Rattle.search_stack.specs.Stack.{size};
ghost use Rattle.list_laws.specs.Counts.{times};
ghost use Rattle.search_pool.specs.Edges.{SettlesEdge};
ghost use Rattle.search_pool.specs.Worker.{IsSearching, IsWorking, StopsAt};

use crate::crew::Crew;
use crate::gate::Gate;
use crate::stopped::Stopped;
use graph_law::Opener;
use node_claims::{Claimed, Claims, Pass};
use search_stack::{Opening, Search};
use std::alloc::{AllocError, Global};
use std::sync::Wait;

// From how many nodes on a search gets more capacity than it needs, and for how many nodes at most.
const LARGE: u32 = 256;

const MOST_ROOM: u32 = 262_144;

/// Runs a search without the lock until its top segment is an SCC, it has to wait for another
/// search, or memory runs out. It claims the node of each edge, expands those that it wins, and
/// settles the others.
pub(crate) fn run_free<O: Opener, G: Gate>(
    rt: &impl Wait,
    alloc: Global,
    claims: &Claims,
    pass: &mut Pass,
    search: &mut Search,
    opener: &O,
    gate: &G,
    crew: &Crew,
) -> Stopped
    requires made { claims.now.lists ≡ O.lists opener.now }
    requires running { IsSearching claims.now pass.old search.old false }
    ensures stops { StopsAt claims.now pass.new search.new result }
    ensures seen { (x : ℕ) → 0 < times x pass.old.view.seen → 0 < times x pass.new.view.seen }
{
    let count = opener.count();
    'edges: for _ in rt.forever() {
        if search.reserve(room_for(search.len(), count)).is_err() {
            return Stopped::NoRoom;
        }
        let Some(node) = search.begin() else {
            if search.is_ripe() {
                return Stopped::Ripe;
            }
            search.retreat();
            continue;
        };
        if let Some(stopped) = settle(alloc, claims, pass, search, opener, gate, crew, node) {
            return stopped;
        }
    }
    unreachable!()
}

// How much capacity a search of this many nodes of the graph should have. Whenever a large one has
// doubled, it gets capacity for eight times as many. In a table that is hardly larger than its
// content, distant nodes compete for slots. There are never more nodes than the rest of the graph.
fn room_for(nodes: u32, count: u32) -> u32
    ensures { 0 < result }
{
    if nodes < LARGE {
        return 1;
    }
    if nodes & (nodes - 1) != 0 {
        return 1;
    }
    let more = nodes.saturating_mul(8).min(MOST_ROOM);
    more.min(count.saturating_sub(nodes)).max(1)
}

/// Claims the node of the last edge that the top has begun, and settles the edge if no lock is
/// needed. Otherwise it returns why the search stops.
fn settle<O: Opener, G: Gate>(
    alloc: Global,
    claims: &Claims,
    pass: &mut Pass,
    search: &mut Search,
    opener: &O,
    gate: &G,
    crew: &Crew,
    node: u32,
) -> Option<Stopped>
    requires made { claims.now.lists ≡ O.lists opener.now }
    requires below { node < length claims.now.lists }
    requires running { IsSearching claims.now pass.old search.old true }
    requires room { 0 < search.old.spare }
    requires last { IsLastBegun search.old.stack node }
    ensures goes_on { SettlesEdge claims.now pass.new search.new result }
    ensures seen { (x : ℕ) → 0 < times x pass.old.view.seen → 0 < times x pass.new.view.seen }
{
    match claims.claim(pass, node) {
        Claimed::Won => match open_node(alloc, claims, pass, search, opener, gate, crew, node) {
            Ok(()) => None,
            Err(_) => Some(Stopped::Unopened(node)),
        },
        Claimed::Held => {
            if search.back(node) {
                return None;
            }
            Some(Stopped::Wants(node))
        }
        Claimed::Done => {
            search.back(node);
            None
        }
    }
}

/// Expands a node that the pass has won, and pushes it. If memory runs out, nothing has changed.
/// For the crew, calling the gate is a part of the expansion.
pub(crate) fn open_node<O: Opener, G: Gate>(
    alloc: Global,
    claims: &Claims,
    pass: &Pass,
    search: &mut Search,
    opener: &O,
    gate: &G,
    crew: &Crew,
    node: u32,
) -> Result<(), AllocError>
    requires made { claims.now.lists ≡ O.lists opener.now }
    requires working { IsWorking claims.now pass.now search.old (Some node) true }
    requires below { node < length claims.now.lists }
    requires room { 0 < search.old.spare }
    requires away { IsOn search.old.stack node → ⊥ }
    requires led { (size search.old.stack ≡ 0) ⊎ IsLastBegun search.old.stack node }
    requires reached { size search.old.stack ≡ 0 → IsReached (Calls claims.now.lists) claims.now.roots node }
    ensures running { IfOk result (λ _. IsSearching claims.now pass.now search.new false) }
    ensures unchanged { IfErr result (λ _. search.new ≡ search.old) }
{
    let mut succs = Vec::new(alloc);
    crew.step();
    gate.opened(node);
    opener.expand(node, &mut succs)?;
    crew.step();
    search.push(Opening { node, succs });
    Ok(())
}
