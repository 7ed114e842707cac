ghost use Rattle.std.specs.Prelude.{◌≡◌, length, map, count_by, All, IfOk};
ghost use Rattle.graph_law.specs.Graph.{Calls, lists_of};
ghost use Rattle.graph_law.specs.Classes.{IsClass};
ghost use Rattle.graph_law.specs.CallOrder.{AreApart, IsCalleesFirst};
ghost use Rattle.graph_law.specs.Ranked.{AreRanked};

use crate::graph::Graph;
use crate::reach::reached_from;
use std::alloc::{AllocError, Global};

/// The index of a group, and how many nodes it reaches. A group that another one calls reaches
/// fewer.
#[derive(Clone, Copy)]
struct Ranked {
    place: usize,
    rank: usize,
}

/// The indices of the groups, each after those of the groups that it calls.
pub(crate) fn callees_first(
    alloc: Global,
    graph: &Graph,
    groups: &[Vec<u32>],
) -> Result<Vec<usize>, AllocError>
    requires classes { All (IsClass (Calls graph.now.lists)) (lists_of groups.now) }
    requires apart { AreApart (length graph.now.lists) (lists_of groups.now) }
    ensures { IfOk result (λ order. IsCalleesFirst (Calls graph.now.lists) (lists_of groups.now) order.items) }
{
    let mut ranked = ranked_groups(alloc, graph, groups)?;
    ranked.sort_by_key(|each| each.rank)?;
    places_in(alloc, &ranked)
}

/// The groups with how many nodes they reach, in their own order.
fn ranked_groups(
    alloc: Global,
    graph: &Graph,
    groups: &[Vec<u32>],
) -> Result<Vec<Ranked>, AllocError>
    requires { AreApart (length graph.now.lists) (lists_of groups.now) }
    ensures { IfOk result (λ ranked.
        AreRanked (Calls graph.now.lists) (length graph.now.lists) (lists_of groups.now) (length groups.now) ranked.items) }
{
    let mut ranked = Vec::new(alloc);
    for (place, group) in groups.iter().enumerate() {
        let marks = reached_from(alloc, graph, group)?;
        let rank = count_marks(&marks);
        ranked.push(Ranked { place, rank })?;
    }
    Ok(ranked)
}

fn count_marks(marks: &[bool]) -> usize
    ensures { result ≡ count_by (λ mark. mark) marks.now }
{
    marks.iter().filter(|&&mark| mark).count()
}

fn places_in(alloc: Global, ranked: &[Ranked]) -> Result<Vec<usize>, AllocError>
    ensures { IfOk result (λ places. places.items ≡ map (λ each. each.place) ranked.now) }
{
    ranked.iter().map(|each| each.place).collect(alloc)
}
