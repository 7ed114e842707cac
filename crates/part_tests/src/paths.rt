ghost use Rattle.std.specs.Prelude.{ℕ, ◌<◌, length, IfOk};
ghost use Rattle.graph_law.specs.Classes.{HasMember};
ghost use Rattle.graph_law.specs.Graph.{Calls, lists_of};
ghost use Rattle.graph_law.specs.LegalOrder.{IsLegalOrder};

use crate::walks::{least_circuit, least_walk};
use graph_law::{Graph, Opener};
use loop_paths::{circuit, circuits, shortest};
use search_stack::groups_plain;
use std::alloc::{AllocError, Global};

/// The groups of a graph, callees first.
pub fn groups(alloc: Global, graph: &Graph) -> Result<Vec<Vec<u32>>, AllocError>
    ensures legal { IfOk result (λ groups. IsLegalOrder (Calls graph.now.lists) (lists_of groups.items)) }
    ensures nodes { IfOk result (λ groups. (p : ℕ) → HasMember (lists_of groups.items) p → p < length graph.now.lists) }
{
    let roots = graph.roots();
    let groups = groups_plain(alloc, graph, roots)?;
    Ok(groups)
}

/// Whether the least path between any two nodes is the least walk of no call or more.
pub fn paths_agree(alloc: Global, rows: &[u32], graph: &Graph) -> Result<bool, AllocError> {
    for from in 0..graph.count() {
        if !paths_from_agree(alloc, rows, graph, from)? {
            return Ok(false);
        }
    }
    Ok(true)
}

fn paths_from_agree(
    alloc: Global,
    rows: &[u32],
    graph: &Graph,
    from: u32,
) -> Result<bool, AllocError>
    requires { from < length graph.now.lists }
{
    for to in 0..graph.count() {
        if shortest(alloc, graph, from, to)? != least_walk(alloc, rows, from, to, 0)? {
            return Ok(false);
        }
    }
    Ok(true)
}

/// Whether the least cycle of each node and of each group's least member is the least walk back to
/// it of one call or more.
pub fn circuits_agree(alloc: Global, rows: &[u32], graph: &Graph) -> Result<bool, AllocError> {
    for node in 0..graph.count() {
        if circuit(alloc, graph, node)? != least_circuit(alloc, rows, node)? {
            return Ok(false);
        }
    }
    group_circuits_agree(alloc, rows, graph)
}

fn group_circuits_agree(alloc: Global, rows: &[u32], graph: &Graph) -> Result<bool, AllocError> {
    let groups = groups(alloc, graph)?;
    let circuits = circuits(alloc, graph, &groups)?;
    for (group, circuit) in groups.iter().zip(&circuits) {
        let Some(&least) = group.first() else {
            return Ok(false);
        };
        if *circuit != least_circuit(alloc, rows, least)? {
            return Ok(false);
        }
    }
    Ok(true)
}
