ghost use Rattle.std.specs.Prelude.{◌<◌, ◌↔◌, length, All, IfOk, IsTrue};
ghost use Rattle.graph_law.specs.Graph.{Calls, lists_of};
ghost use Rattle.graph_law.specs.Classes.{AreClasses, IsRecursive};
ghost use Rattle.graph_law.specs.Reached.{AreMarkedWith, AreRows, HasEarlier, IsSquare, MarkEachOther};

use crate::graph::Graph;
use crate::opener::Opener;
use crate::reach::reached_from;
use std::alloc::{AllocError, Global};

/// The SCCs of the nodes that the roots reach: members ascending, SCCs in the order of their least
/// member. It is slow and for tests: it stores a row of marks for each node.
pub fn classes_slow(alloc: Global, graph: &Graph) -> Result<Vec<Vec<u32>>, AllocError>
    ensures { IfOk result (λ classes. AreClasses (Calls graph.now.lists) graph.now.roots (lists_of classes.items)) }
{
    let reached = reached_from(alloc, graph, graph.roots())?;
    let rows = reach_rows(alloc, graph)?;
    let mut classes = Vec::new(alloc);
    for node in 0..graph.count() {
        if !reached[node as usize] {
            continue;
        }
        if has_earlier(&rows, node) {
            continue;
        }
        classes.push(class_of(alloc, &rows, node)?)?;
    }
    Ok(classes)
}

/// Whether the group has two members or its one member calls itself.
pub fn is_recursive(graph: &Graph, group: &[u32]) -> bool
    requires { All (λ member. member < length graph.now.lists) group.now }
    ensures { IsTrue result ↔ IsRecursive (Calls graph.now.lists) group.now }
{
    if group.len() == 1 {
        return graph.successors(group[0]).contains(&group[0]);
    }
    group.len() > 1
}

/// For each node, a mark for each node that it reaches.
fn reach_rows(alloc: Global, graph: &Graph) -> Result<Vec<Vec<bool>>, AllocError>
    ensures { IfOk result (λ rows.
        AreRows (Calls graph.now.lists) (length graph.now.lists) (length graph.now.lists) (lists_of rows.items)) }
{
    let mut rows = Vec::new(alloc);
    for node in 0..graph.count() {
        rows.push(reached_from(alloc, graph, &[node])?)?;
    }
    Ok(rows)
}

/// Whether the rows of two nodes mark each other.
fn reach_each_other(rows: &[Vec<bool>], first: u32, second: u32) -> bool
    requires square { IsSquare (lists_of rows.now) }
    requires first { first < length rows.now }
    requires second { second < length rows.now }
    ensures { IsTrue result ↔ MarkEachOther (lists_of rows.now) first second }
{
    rows[first as usize][second as usize] && rows[second as usize][first as usize]
}

/// Whether a lesser node is in the SCC of this one.
fn has_earlier(rows: &[Vec<bool>], node: u32) -> bool
    requires square { IsSquare (lists_of rows.now) }
    requires within { node < length rows.now }
    ensures { IsTrue result ↔ HasEarlier (lists_of rows.now) node }
{
    for earlier in 0..node {
        if reach_each_other(rows, node, earlier) {
            return true;
        }
    }
    false
}

/// The nodes of the SCC of this one, ascending.
fn class_of(alloc: Global, rows: &[Vec<bool>], node: u32) -> Result<Vec<u32>, AllocError>
    requires square { IsSquare (lists_of rows.now) }
    requires within { node < length rows.now }
    ensures { IfOk result (λ class. AreMarkedWith (lists_of rows.now) node (length rows.now) class.items) }
{
    let mut class = Vec::new(alloc);
    for other in 0..rows.len() as u32 {
        if !reach_each_other(rows, node, other) {
            continue;
        }
        class.push(other)?;
    }
    Ok(class)
}
