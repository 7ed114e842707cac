ghost use Rattle.std.specs.Prelude.{◌≡◌, ◌<◌, ◌↔◌, [], length, slice_index_or, All, IsTrue, OnOk, OnErr};
ghost use Rattle.std.specs.Option.{SomeIff};
ghost use Rattle.graph_law.specs.Graph.{IsClosed, IsGraph, graph_of};

use crate::opener::Opener;
use std::alloc::AllocError;
use std::marker::Model;

/// How many nodes a graph has at most.
pub const MOST_NODES: usize = 1_048_576;

/// A graph in memory: the successors of each node, and the roots.
#[derive(Drop)]
pub struct Graph {
    succs: Vec<Vec<u32>>,
    roots: Vec<u32>,
}

impl Model for Graph {
    ghost use Rattle.graph_law.specs.Graph.{CallGraph, IsGraph, graph_of};

    ghost Value = { CallGraph };

    ghost view = { λ graph. graph_of graph.succs.items graph.roots.items };

    ghost invariant = { λ graph. IsGraph (graph_of graph.succs.items graph.roots.items) };
}

impl Graph {
    /// The graph of these successor lists and roots. None if a successor or a root isn't below the
    /// number of lists, or if there are more than 1,048,576 lists.
    pub fn new(succs: Vec<Vec<u32>>, roots: Vec<u32>) -> Option<Graph>
        ensures { SomeIff result (IsGraph (graph_of succs.items roots.items)) (graph_of succs.items roots.items) }
    {
        if succs.len() > MOST_NODES {
            return None;
        }
        let count = succs.len() as u32;
        for list in &succs {
            if !all_below(list, count) {
                return None;
            }
        }
        if !all_below(&roots, count) {
            return None;
        }
        Some(Graph { succs, roots })
    }

    /// The nodes at which a search begins.
    pub fn roots(&self) -> &[u32]
        ensures roots { result.now ≡ self.now.roots }
        ensures graph { IsGraph self.now }
    {
        &self.roots
    }

    /// The nodes that `node` calls.
    pub(crate) fn successors(&self, node: u32) -> &[u32]
        requires { node < length self.now.lists }
        ensures successors { result.now ≡ slice_index_or self.now.lists node [] }
        ensures graph { IsGraph self.now }
    {
        &self.succs[node as usize]
    }
}

impl Opener for Graph {
    ghost lists = { λ graph. graph.lists };

    fn count(&self) -> u32
        ensures count { result ≡ length self.now.lists }
        ensures closed { IsClosed self.now.lists }
        ensures graph { IsGraph self.now }
    {
        self.succs.len() as u32
    }

    fn expand(&self, node: u32, out: &mut Vec<u32>) -> Result<(), AllocError> {
        out.extend_from_slice(self.successors(node))
    }
}

/// Whether each of the nodes is below `count`.
fn all_below(nodes: &[u32], count: u32) -> bool
    ensures { IsTrue result ↔ All (λ node. node < count) nodes.now }
{
    nodes.iter().all(|&node| node < count)
}
