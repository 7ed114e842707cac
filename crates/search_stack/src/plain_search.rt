ghost use Rattle.std.specs.Prelude.{◌≡◌, ◌⊎◌, ◌+◌, ◌<◌, ◌≤◌, ℕ, Bool, true, false, is_some, List, [], length, slice_index_or, slice_set, All, IfOk};
ghost use Rattle.std.specs.Prelude.{IfSome, IfNone, OnOk};
ghost use Rattle.graph_law.specs.Graph.{Calls, IsClosed, lists_of};
ghost use Rattle.graph_law.specs.Reach.{IsReached};
ghost use Rattle.graph_law.specs.Classes.{HasMember};
ghost use Rattle.graph_law.specs.LegalOrder.{IsComplete, IsLegalOrder};
ghost use Rattle.search_stack.specs.Stack.{size, height};
ghost use Rattle.search_stack.specs.GoodSearch.{IsGood};
ghost use Rattle.search_stack.specs.Search.{IsLastBegun, IsDone, pushed};
ghost use Rattle.search_stack.specs.PlainSearch.{IsUnderWay, IsSeen, top_succs};

use crate::array_search::ArraySearch;
use graph_law::Opener;
use std::alloc::{AllocError, Global};

/// The SCCs of all that the roots reach in reverse topological order, with the members of each
/// ascending.
///
/// It runs one search after another. The steps are linear in the nodes and edges, except for
/// sorting the members. It uses no recursion, so a long chain of calls doesn't overflow the
/// machine's stack. Fails only if memory runs out, here or in the opener.
pub fn groups_plain<O: Opener>(
    alloc: Global,
    opener: &O,
    roots: &[u32],
) -> Result<Vec<Vec<u32>>, AllocError>
    requires { All (λ root. root < length (O.lists opener.now)) roots.now }
    ensures legal { IfOk result (λ groups. IsLegalOrder (Calls (O.lists opener.now)) (lists_of groups.items)) }
    ensures complete { IfOk result (λ groups. IsComplete roots.now (lists_of groups.items)) }
    ensures reached { IfOk result (λ groups. (v : ℕ) → HasMember (lists_of groups.items) v
        → IsReached (Calls (O.lists opener.now)) roots.now v) }
{
    let count = opener.count();
    let mut search = ArraySearch::make(alloc, count)?;
    let mut list = Vec::new(alloc);
    let mut groups = Vec::with_capacity(alloc, count as usize)?;
    for &root in roots {
        if search.has_met(root) {
            continue;
        }
        open_node(opener, root, &mut search, &mut list)?;
        run_out(alloc, opener, &mut search, &mut list, &mut groups)?;
    }
    Ok(groups)
}

/// Runs the search until its stack is empty. `list` is a buffer for the successors of one node at a
/// time.
fn run_out<O: Opener>(
    alloc: Global,
    opener: &O,
    search: &mut ArraySearch,
    list: &mut Vec<u32>,
    groups: &mut Vec<Vec<u32>>,
) -> Result<(), AllocError>
    requires closed { IsClosed (O.lists opener.now) }
    requires under_way { (roots : List ℕ)
        × IsUnderWay (O.lists opener.now) roots search.old.seen (lists_of groups.old.items) false search.old.stack }
    ensures ended { OnOk result (size search.new.stack ≡ 0) }
    ensures seen { OnOk result ((v : ℕ) → IsSeen search.old.seen v → IsSeen search.new.seen v) }
    ensures under_way { OnOk result ((roots : List ℕ)
        → IsUnderWay (O.lists opener.now) roots search.old.seen (lists_of groups.old.items) false search.old.stack
        → IsUnderWay (O.lists opener.now) roots search.new.seen (lists_of groups.new.items) false search.new.stack) }
{
    'steps: while !search.is_empty() {
        match next_unmet(search) {
            Some(node) => open_node(opener, node, search, list)?,
            None => finish_top(alloc, search, groups)?,
        }
    }
    Ok(())
}

/// Begins edges of the top node until one leads to a node that wasn't met. None if all have begun.
fn next_unmet(search: &mut ArraySearch) -> Option<u32>
    requires some { 0 < size search.old.stack }
    requires within { All (λ node. node < length search.old.seen) (top_succs search.old.stack) }
    ensures seen { search.new.seen ≡ search.old.seen }
    ensures size { size search.new.stack ≡ size search.old.stack }
    ensures height { height search.new.stack ≡ height search.old.stack }
    ensures unmet { IfSome result (λ node. (node < length search.new.seen) × (slice_index_or search.new.seen node false ≡ false)) }
    ensures last { IfSome result (IsLastBegun search.new.stack) }
    ensures done { IfNone result (IsDone search.new.stack) }
    ensures under_way { (lists : List (List ℕ)) (roots : List ℕ) (groups : List (List ℕ))
        → IsUnderWay lists roots search.old.seen groups false search.old.stack
        → IsUnderWay lists roots search.new.seen groups (is_some result) search.new.stack }
{
    'edges: while let Some(node) = search.begin() {
        if !search.has_met(node) {
            return Some(node);
        }
        search.back(node);
    }
    None
}

/// Expands a node that wasn't met, and pushes it.
fn open_node<O: Opener>(
    opener: &O,
    node: u32,
    search: &mut ArraySearch,
    list: &mut Vec<u32>,
) -> Result<(), AllocError>
    requires below { node < length (O.lists opener.now) }
    requires counted { length search.old.seen ≡ length (O.lists opener.now) }
    requires unmet { slice_index_or search.old.seen node false ≡ false }
    requires led { (size search.old.stack ≡ 0) ⊎ IsLastBegun search.old.stack node }
    ensures pushed { OnOk result (search.new.stack ≡ pushed search.old.stack node (slice_index_or (O.lists opener.now) node [])) }
    ensures met { OnOk result (search.new.seen ≡ slice_set search.old.seen node true) }
    ensures good { OnOk result ((roots done : List ℕ) → IsGood (O.lists opener.now) roots done true search.old.stack
        → (size search.old.stack ≡ 0 → IsReached (Calls (O.lists opener.now)) roots node)
        → IsGood (O.lists opener.now) roots done false search.new.stack) }
{
    list.clear();
    opener.expand(node, list)?;
    search.push(node, list)
}

/// Removes the top segment as a group if it is complete (ripe), and otherwise joins it to the one
/// below.
fn finish_top(
    alloc: Global,
    search: &mut ArraySearch,
    groups: &mut Vec<Vec<u32>>,
) -> Result<(), AllocError>
    requires { IsDone search.old.stack }
    ensures seen { OnOk result (search.new.seen ≡ search.old.seen) }
    ensures height { OnOk result (height search.new.stack + 1 ≡ height search.old.stack) }
    ensures under_way { OnOk result ((lists : List (List ℕ)) (roots : List ℕ) (seen : List Bool)
        → IsUnderWay lists roots seen (lists_of groups.old.items) false search.old.stack
        → IsUnderWay lists roots seen (lists_of groups.new.items) false search.new.stack) }
{
    if !search.is_ripe() {
        search.retreat();
        return Ok(());
    }
    let mut group = search.take_ripe(alloc)?;
    group.sort_unstable();
    groups.push(group)?;
    Ok(())
}
