ghost use Rattle.std.specs.Prelude.{IsTrue, ◌≡◌, ◌<◌, ◌+◌, ◌↔◌, ℕ, List, not, true, false, length, slice_index, slice_index_or, count_by};
ghost use Rattle.std.specs.Prelude.{All, Contains, MatchOption, IfOk, OnOk};
ghost use Rattle.std.specs.List.Sorted.{IsStrictlyIncreasing};
ghost use Rattle.graph_law.specs.Graph.{Calls};
ghost use Rattle.loop_paths.specs.Found.{IsFound};
ghost use Rattle.loop_paths.specs.Grown.{AreSeen, IsGrown};
ghost use Rattle.loop_paths.specs.Lists.{IsLeast};
ghost use Rattle.loop_paths.specs.Paths.{IsLead};

use crate::tree::Tree;
use graph_law::{Opener, stamp};
use std::alloc::{AllocError, Global};

/// Puts the nodes that `node` calls into `callees`, strictly ascending.
fn open<O: Opener>(opener: &O, node: u32, callees: &mut Vec<u32>) -> Result<(), AllocError>
    requires { node < length (O.lists opener.now) }
    ensures ascending { OnOk result (IsStrictlyIncreasing callees.new.items) }
    ensures calls { OnOk result ((q : ℕ) → Contains callees.new.items q ↔ Calls (O.lists opener.now) node q) }
{
    callees.clear();
    opener.expand(node, callees)?;
    callees.sort_unstable();
    callees.dedup();
    Ok(())
}

/// Whether the node is one of these.
fn has(nodes: &[u32], node: u32) -> bool
    ensures { IsTrue result ↔ Contains nodes.now node }
{
    nodes.contains(&node)
}

/// Adds the callees of the node at `place` that weren't reached before, and marks them.
fn meet(tree: &mut Tree, seen: &mut [bool], place: usize, callees: &[u32]) -> Result<(), AllocError>
    requires ascending { IsStrictlyIncreasing callees.now }
    requires below { All (λ callee. callee < length seen.old) callees.now }
    ensures each { OnOk result (length seen.new ≡ length seen.old) }
    ensures balance { OnOk result (count_by (λ mark. not mark) seen.new + length tree.new.nodes.items
        ≡ count_by (λ mark. not mark) seen.old + length tree.old.nodes.items) }
    ensures grown { OnOk result ((lists : List (List ℕ)) (from to : ℕ)
        → IsGrown (Calls lists) from to tree.old.nodes.items tree.old.callers.items seen.old place
        → place < length tree.old.nodes.items
        → ((q : ℕ) → Contains callees.now q ↔ Calls lists (slice_index tree.old.nodes.items place) q)
        → (Contains callees.now to → ⊥)
        → IsGrown (Calls lists) from to tree.new.nodes.items tree.new.callers.items seen.new (place + 1)) }
{
    for &callee in callees {
        if seen[callee as usize] {
            continue;
        }
        tree.push(callee, place)?;
        seen[callee as usize] = true;
    }
    Ok(())
}

/// Expands the nodes of the tree one after another until one calls `to`, and returns its index.
fn grow<O: Opener>(
    alloc: Global,
    opener: &O,
    to: u32,
    tree: &mut Tree,
    seen: &mut [bool],
) -> Result<Option<usize>, AllocError>
    requires each { length seen.old ≡ length (O.lists opener.now) }
    requires begun { (from : ℕ) × IsGrown (Calls (O.lists opener.now)) from to tree.old.nodes.items tree.old.callers.items seen.old 0 }
    ensures each { IfOk result (λ _. length seen.new ≡ length seen.old) }
    ensures found { IfOk result (λ found. (from : ℕ)
        → IsGrown (Calls (O.lists opener.now)) from to tree.old.nodes.items tree.old.callers.items seen.old 0
        → IsFound (O.lists opener.now) from to tree.new.nodes.items tree.new.callers.items seen.new found) }
{
    // The contract of `count` states that successors are nodes.
    let _count = opener.count();
    let mut callees = Vec::new(alloc);
    let mut place = 0;
    while place < tree.nodes.len() {
        open(opener, tree.nodes[place], &mut callees)?;
        if has(&callees, to) {
            return Ok(Some(place));
        }
        meet(tree, seen, place, &callees)?;
        place += 1;
    }
    Ok(None)
}

/// The least path from `from` whose last node calls `to`, or None. No node is marked before and
/// after.
pub(crate) fn lead<O: Opener>(
    alloc: Global,
    opener: &O,
    from: u32,
    to: u32,
    seen: &mut [bool],
) -> Result<Option<Vec<u32>>, AllocError>
    requires below { from < length (O.lists opener.now) }
    requires each { length seen.old ≡ length (O.lists opener.now) }
    requires clear { (q : ℕ) → slice_index_or seen.old q false ≡ true → ⊥ }
    ensures each { IfOk result (λ _. length seen.new ≡ length seen.old) }
    ensures clear { IfOk result (λ _. (q : ℕ) → slice_index_or seen.new q false ≡ true → ⊥) }
    ensures lead { IfOk result (λ found. MatchOption found
        ((path : List ℕ) → IsLead (Calls (O.lists opener.now)) from to path → ⊥)
        (λ path. IsLeast (IsLead (Calls (O.lists opener.now)) from to) path.items)) }
{
    let mut tree = Tree::of(alloc, from)?;
    seen[from as usize] = true;
    let found = grow(alloc, opener, to, &mut tree, seen)?;
    stamp(seen, &tree.nodes, false);
    let Some(place) = found else {
        return Ok(None);
    };
    Ok(Some(tree.path(alloc, place)?))
}
