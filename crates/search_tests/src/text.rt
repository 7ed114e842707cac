//! The results of tests as text.

ghost use Rattle.std.specs.Prelude.{ℕ};
ghost use Rattle.graph_law.specs.Classes.{HasMember};
ghost use Rattle.graph_law.specs.Graph.{Calls, lists_of};
ghost use Rattle.graph_law.specs.LegalOrder.{IsLegalOrder};
ghost use Rattle.graph_law.specs.Reach.{IsReached};

use graph_law::{Graph, Opener};
use group_release::{Book, levels};
use search_stack::Search;
use std::alloc::{AllocError, Global};

/// The height of each group and whether it is recursive.
pub(crate) fn levels_shown(
    alloc: Global,
    graph: &Graph,
    groups: &[Vec<u32>],
) -> Result<String, AllocError>
    requires legal { IsLegalOrder (Calls graph.now.lists) (lists_of groups.now) }
    requires reached { (v : ℕ) → HasMember (lists_of groups.now) v → IsReached (Calls graph.now.lists) graph.now.roots v }
{
    let _roots = graph.roots();
    let mut pairs = Vec::new(alloc);
    for level in &levels(alloc, graph, groups)? {
        pairs.push((level.height, level.recursive))?;
    }
    format!(in alloc; "{pairs:?}")
}

/// The nodes on the stack of a search, its frames, each with its position and its low, where it is
/// cut at each node, and whether its top segment is ripe.
pub(crate) fn stack_shown(alloc: Global, search: &Search) -> Result<String, AllocError> {
    let mut nodes = Vec::new(alloc);
    let mut cuts = Vec::new(alloc);
    for position in 0..search.len() {
        let node = search.node_at(position);
        nodes.push(node)?;
        if let Some(cut) = search.cut(node) {
            cuts.push((cut.position, cut.frame))?;
        }
    }
    let mut frames = Vec::new(alloc);
    for at in 0..search.frame_count() {
        let frame = search.frame_at(at);
        frames.push((frame.position, frame.low))?;
    }
    let ripe = search.is_ripe();
    format!(in alloc; "{nodes:?} {frames:?} cuts {cuts:?} ripe {ripe}\n")
}

/// The nodes of suspended searches, whether one of these is ready, the released nodes, and the
/// groups.
pub(crate) fn book_shown(alloc: Global, graph: &Graph, book: &Book) -> Result<String, AllocError> {
    let mut held = Vec::new(alloc);
    let mut released = Vec::new(alloc);
    for node in 0..=graph.count() {
        if book.blocked().holder(node).is_some() {
            held.push(node)?;
        }
        if book.released().holds(node) {
            released.push(node)?;
        }
    }
    let ready = book.has_ready();
    let groups = book.released().groups();
    format!(in alloc; "held {held:?} ready {ready} released {released:?} {groups:?}\n")
}
