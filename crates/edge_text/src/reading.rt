//! What was read as a graph, and texts of edges as graphs.

ghost use Rattle.std.specs.Prelude.{◌≡◌, ◌<◌, ◌≤◌, ◌^◌, length, map, All, IfOk};
ghost use Rattle.edge_text.specs.declared.limits.TheConstants.{MOST_BYTES};
ghost use Rattle.flat_graph.specs.Edges.{IsBelow};
ghost use Rattle.edge_text.specs.Ranked.{ranked_edge};
ghost use Rattle.edge_text.specs.EdgeGraph.{Said, said_in};
ghost use Rattle.edge_text.specs.Read.{IsWholeRead};
ghost use Rattle.edge_text.specs.Readings.{IsReading};

use crate::limits::MOST_NODES;
use crate::reader::Reader;
use byte_names::rank;
use flat_graph::{Edge, FlatGraph, graph_of_edges};
use std::alloc::{AllocError, Global};

/// The different names that were read in the order of their bytes, and the graph whose nodes are their
/// indices.
#[derive(Drop)]
pub struct EdgeGraph<'a> {
    pub names: Vec<&'a [u8]>,
    pub graph: FlatGraph,
}

/// The graph of what was read, or the limit that it is past.
#[derive(Drop)]
pub enum Reading<'a> {
    Graph(EdgeGraph<'a>),
    TooManyEdges,
    TooManyNodes,
}

/// Puts the rank of each end of an edge in its place.
fn rank_edges(ranks: &[u32], edges: &mut [Edge])
    requires { All (IsBelow (length ranks.now)) edges.old }
    ensures { edges.new ≡ map (ranked_edge ranks.now) edges.old }
{
    for edge in edges.iter_mut() {
        let from = ranks[edge.from as usize];
        let to = ranks[edge.to as usize];
        *edge = Edge { from, to };
    }
}

/// The graph of all that was read, or that it has too many nodes.
///
/// Fewer than 4,294,967,296 names and calls were read. Fails only if memory runs out. It takes the
/// steps to sort the names and the callees of each.
pub fn graph_of_read<'a>(alloc: Global, reader: Reader<'a>) -> Result<Reading<'a>, AllocError>
    requires names { length reader.names < 2 ^ 32 }
    requires calls { length reader.calls < 2 ^ 32 }
    ensures { IfOk result (λ reading. (said : Said) → IsWholeRead said reader.entry → IsReading said reading) }
{
    let Reader { names, mut edges } = reader;
    let ranked = rank(alloc, names.names())?;
    if ranked.names.len() > MOST_NODES {
        return Ok(Reading::TooManyNodes);
    }
    rank_edges(&ranked.ranks, &mut edges);
    let graph = graph_of_edges(alloc, ranked.names.len() as u32, &edges)?;
    Ok(Reading::Graph(EdgeGraph {
        names: ranked.names,
        graph,
    }))
}

/// The graph of a text of at most 1,073,741,824 bytes, or the limit that it is past. How long its
/// names are isn't looked at.
///
/// Fails only if memory runs out. It takes steps linear in the bytes of the text, and those to sort
/// the names and the callees of each.
pub fn read_edges<'a>(alloc: Global, text: &'a [u8]) -> Result<Reading<'a>, AllocError>
    requires { length text.now ≤ MOST_BYTES }
    ensures { IfOk result (IsReading (said_in text.now)) }
{
    let mut reader = Reader::new(alloc)?;
    let whole = reader.read_lines(text)?;
    if !whole {
        return Ok(Reading::TooManyEdges);
    }
    let reading = graph_of_read(alloc, reader)?;
    Ok(reading)
}
