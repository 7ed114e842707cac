use graph_law::{Graph, Opener};
use std::alloc::AllocError;

/// A graph that finds no memory for the successors of one node.
#[derive(Drop)]
pub(crate) struct Starved<'a> {
    pub(crate) graph: &'a Graph,
    pub(crate) node: u32,
}

impl<'a> Opener for Starved<'a> {
    ghost lists = { λ starved. starved.graph.now.lists };

    fn count(&self) -> u32 {
        self.graph.count()
    }

    fn expand(&self, node: u32, out: &mut Vec<u32>) -> Result<(), AllocError> {
        if node == self.node {
            return Err(AllocError);
        }
        self.graph.expand(node, out)
    }
}
