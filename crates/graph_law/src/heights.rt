ghost use Rattle.std.specs.Prelude.{◌≡◌, ℕ, ◌<◌, length, slice_index, All, Contains, IfOk};
ghost use Rattle.graph_law.specs.Graph.{Calls, lists_of};
ghost use Rattle.graph_law.specs.Classes.{AreClasses};
ghost use Rattle.graph_law.specs.Heights.{HaveHeights};
ghost use Rattle.graph_law.specs.CallOrder.{IsJustAbove, LeadsTo, MembersLeadTo};

use crate::call_order::callees_first;
use crate::graph::Graph;
use crate::opener::Opener;
use crate::places::group_places;
use std::alloc::{AllocError, Global};

/// The height of each group: 0 if it calls no other group, and otherwise one more than the greatest
/// height of the groups that it calls.
///
/// The groups are the SCCs of what the roots reach, in any order. It is slow and for tests: it
/// searches the nodes that each group reaches.
pub fn heights_slow(
    alloc: Global,
    graph: &Graph,
    groups: &[Vec<u32>],
) -> Result<Vec<u32>, AllocError>
    requires { AreClasses (Calls graph.now.lists) graph.now.roots (lists_of groups.now) }
    ensures { IfOk result (λ heights. HaveHeights (Calls graph.now.lists) (lists_of groups.now) heights.items) }
{
    let places = group_places(alloc, graph.count() as usize, groups)?;
    let order = callees_first(alloc, graph, groups)?;
    let mut heights = vec![in alloc; 0u32; groups.len()]?;
    for &place in &order {
        heights[place] = height_of(graph, &groups[place], place, &places, &heights);
    }
    Ok(heights)
}

/// The height of the group at `place`, if those of the other groups that it calls are known.
fn height_of(graph: &Graph, group: &[u32], place: usize, places: &[usize], heights: &[u32]) -> u32
    requires members { All (λ member. member < length graph.now.lists) group.now }
    requires counted { length places.now ≡ length graph.now.lists }
    requires known { (p q : ℕ) → Contains group.now p → Calls graph.now.lists p q
        → slice_index places.now q < length heights.now }
    requires low { All (λ height. height < 4294967295) heights.now }
    ensures { IsJustAbove (MembersLeadTo graph.now.lists places.now place group.now) heights.now result }
{
    let mut height = 0u32;
    for &member in group {
        let over = height_over(graph.successors(member), place, places, heights);
        height = height.max(over);
    }
    height
}

/// One more than the greatest height of another group that one of the callees is in, or 0.
fn height_over(callees: &[u32], place: usize, places: &[usize], heights: &[u32]) -> u32
    requires within { All (λ callee. callee < length places.now) callees.now }
    requires known { All (λ callee. slice_index places.now callee < length heights.now) callees.now }
    requires low { All (λ height. height < 4294967295) heights.now }
    ensures { IsJustAbove (LeadsTo places.now place callees.now) heights.now result }
{
    let mut height = 0u32;
    for &callee in callees {
        let other = places[callee as usize];
        if other == place {
            continue;
        }
        height = height.max(heights[other] + 1);
    }
    height
}
