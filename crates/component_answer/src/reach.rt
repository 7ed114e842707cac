//! What a search is over.

ghost use Rattle.std.specs.Prelude.{◌<◌, All, length};

use flat_graph::FlatGraph;

/// A graph, and the nodes of it at which a search begins.
#[derive(Drop)]
pub struct Reach<'a> {
    pub graph: &'a FlatGraph,
    pub starts: &'a [u32],
    pub ghost within: { All (λ start. start < length graph.now) starts.now },
}
