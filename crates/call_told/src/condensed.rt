//! The condensed graph: a node for each group, and for each predicate that is in none.

ghost use Rattle.std.specs.Prelude.{◌≡◌, ◌<◌, ◌++◌, All, IfOk, OnOk, length, slice_index};
ghost use Rattle.std.specs.List.{flat_map};
ghost use Rattle.std.specs.String.{string_bytes};
ghost use Rattle.call_edges.specs.Successors.{successor_lists};
ghost use Rattle.call_told.specs.Condensed.{AreEdges, TellsCondensed, edge_lines, node_lines_of, node_of};
ghost use Rattle.call_told.specs.EdgeLists.{AreBelow, edge_to, edges_from};
ghost use Rattle.call_told.specs.Told.{IsTold};
ghost use Rattle.call_writer.specs.Dot.{condensed_node};
ghost use Rattle.graph_law.specs.Classes.{group_at, least_member};
ghost use Rattle.graph_law.specs.Graph.{lists_of};

use crate::told::Told;
use call_edges::CallLists;
use call_writer::{push_condensed_edge, push_condensed_node};
use graph_law::Opener;
use std::alloc::{AllocError, Global};

/// An edge of the condensed graph, from the node with one number to that with another. The number of
/// a group's node is the group's least member. Edges are ordered by these fields in this order.
#[derive(Clone, Copy, Debug, PartialEq, Eq, PartialOrd, Ord)]
pub struct Edge {
    pub from: u32,
    pub to: u32,
}

/// The first member of the group at the index, which is its least one.
fn least_at(groups: &[Vec<u32>], place: usize) -> u32
    requires inhabited { All (λ members. 0 < length members) (lists_of groups.now) }
    requires within { place < length groups.now }
    ensures { result ≡ least_member (group_at (lists_of groups.now) place) }
{
    groups[place][0]
}

/// The number of the node that a predicate is in.
fn node_of(told: &Told<'_>, node: u32) -> u32
    requires told { IsTold told.now }
    requires below { node < length told.now.program.now.predicates }
    ensures { result ≡ node_of (lists_of told.now.groups.items) told.now.places.items node }
{
    let place = told.places[node as usize];
    if place == 0 {
        return node;
    }
    least_at(&told.groups, place - 1)
}

/// Adds the edge from a node to that of a predicate, if it is another one.
fn push_edge_to(
    told: &Told<'_>,
    from: u32,
    callee: u32,
    edges: &mut Vec<Edge>,
) -> Result<(), AllocError>
    requires told { IsTold told.now }
    requires below { callee < length told.now.program.now.predicates }
    ensures { OnOk result (edges.new.items
        ≡ edges.old.items ++ edge_to (lists_of told.now.groups.items) told.now.places.items from callee) }
{
    let to = node_of(told, callee);
    if from == to {
        return Ok(());
    }
    edges.push(Edge { from, to })?;
    Ok(())
}

/// Adds the edges from a node to those of these predicates.
fn push_edges_to(
    told: &Told<'_>,
    from: u32,
    callees: &[u32],
    edges: &mut Vec<Edge>,
) -> Result<(), AllocError>
    requires told { IsTold told.now }
    requires below { All (λ p. p < length told.now.program.now.predicates) callees.now }
    ensures { OnOk result (edges.new.items
        ≡ edges.old.items ++ flat_map (edge_to (lists_of told.now.groups.items) told.now.places.items from) callees.now) }
{
    for callee in callees {
        push_edge_to(told, from, *callee, edges)?;
    }
    Ok(())
}

/// Adds the edges from the node of a predicate to those of what it calls. What `callees` had is lost.
fn push_edges_from(
    told: &Told<'_>,
    calls: &CallLists<'_>,
    node: u32,
    callees: &mut Vec<u32>,
    edges: &mut Vec<Edge>,
) -> Result<(), AllocError>
    requires told { IsTold told.now }
    requires calls { calls.now ≡ told.now.program.now }
    requires below { node < length told.now.program.now.predicates }
    ensures { OnOk result (edges.new.items
        ≡ edges.old.items ++ edges_from (successor_lists told.now.program.now) (lists_of told.now.groups.items) told.now.places.items node) }
{
    callees.clear();
    calls.expand(node, callees)?;
    push_edges_to(told, node_of(told, node), callees, edges)
}

/// The edges from the nodes of all predicates that are listed, predicate by predicate.
fn all_edges(alloc: Global, told: &Told<'_>, calls: &CallLists<'_>) -> Result<Vec<Edge>, AllocError>
    requires told { IsTold told.now }
    requires calls { calls.now ≡ told.now.program.now }
    ensures { IfOk result (λ edges. edges.items
        ≡ flat_map (edges_from (successor_lists told.now.program.now) (lists_of told.now.groups.items) told.now.places.items) told.now.nodes.items) }
{
    let mut edges = Vec::new(alloc);
    let mut callees = Vec::new(alloc);
    for node in &told.nodes {
        push_edges_from(told, calls, *node, &mut callees, &mut edges)?;
    }
    Ok(edges)
}

/// The edges of the condensed graph, in order and each once.
fn edges_of(alloc: Global, told: &Told<'_>, calls: &CallLists<'_>) -> Result<Vec<Edge>, AllocError>
    requires told { IsTold told.now }
    requires calls { calls.now ≡ told.now.program.now }
    ensures are { IfOk result (λ edges. AreEdges (successor_lists told.now.program.now) (lists_of told.now.groups.items) told.now.places.items
        told.now.nodes.items edges.items) }
    ensures below { IfOk result (λ edges. All (AreBelow (length told.now.program.now.predicates)) edges.items) }
{
    let mut edges = all_edges(alloc, told, calls)?;
    edges.sort_unstable();
    edges.dedup();
    Ok(edges)
}

/// Adds the node of a predicate or of its group, if the predicate is the group's least member.
fn push_node_of(text: &mut String, told: &Told<'_>, node: u32) -> Result<(), AllocError>
    requires told { IsTold told.now }
    requires below { node < length told.now.program.now.predicates }
    ensures { OnOk result (string_bytes text.new ≡ string_bytes text.old
        ++ condensed_node told.now.program.now.predicates (lists_of told.now.groups.items) node (slice_index told.now.places.items node)) }
{
    let place = told.places[node as usize];
    push_condensed_node(text, told.program, &told.groups, node, place)
}

/// Adds all nodes.
fn push_all_nodes(text: &mut String, told: &Told<'_>) -> Result<(), AllocError>
    requires { IsTold told.now }
    ensures { OnOk result (string_bytes text.new ≡ string_bytes text.old
        ++ node_lines_of told.now.program.now (lists_of told.now.groups.items) told.now.places.items told.now.nodes.items) }
{
    for node in &told.nodes {
        push_node_of(text, told, *node)?;
    }
    Ok(())
}

/// Adds these edges.
fn push_edge_lines(text: &mut String, places: &[usize], edges: &[Edge]) -> Result<(), AllocError>
    requires { All (AreBelow (length places.now)) edges.now }
    ensures { OnOk result (string_bytes text.new ≡ string_bytes text.old ++ edge_lines places.now edges.now) }
{
    for edge in edges {
        push_condensed_edge(text, places, edge.from, edge.to)?;
    }
    Ok(())
}

/// The condensed graph.
pub(crate) fn condensed_text(
    alloc: Global,
    told: &Told<'_>,
    calls: &CallLists<'_>,
) -> Result<String, AllocError>
    requires told { IsTold told.now }
    requires calls { calls.now ≡ told.now.program.now }
    ensures { IfOk result (λ text. TellsCondensed told.now.program.now (lists_of told.now.groups.items) told.now.places.items
        told.now.nodes.items (string_bytes text)) }
{
    let edges = edges_of(alloc, told, calls)?;
    let mut text = String::from_str(alloc, "digraph calls {\n")?;
    push_all_nodes(&mut text, told)?;
    push_edge_lines(&mut text, &told.places, &edges)?;
    text.push_str("}\n")?;
    Ok(text)
}
