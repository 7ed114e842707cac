use graph_law::Graph;
use std::alloc::{AllocError, Global};
use std::test::Fail;

/// The graph of these successor lists and roots.
pub(crate) fn graph_of(alloc: Global, lists: &[&[u32]], roots: &[u32]) -> Result<Graph, Fail> {
    let mut succs = Vec::new(alloc);
    for list in lists {
        succs.push(list.to_vec(alloc)?)?;
    }
    make_graph(succs, roots.to_vec(alloc)?)
}

fn make_graph(succs: Vec<Vec<u32>>, roots: Vec<u32>) -> Result<Graph, Fail> {
    match Graph::new(succs, roots) {
        Some(graph) => Ok(graph),
        None => Err("refused".into()),
    }
}

/// What the nodes of a graph call.
#[derive(Clone, Copy)]
pub(crate) enum Shape {
    /// Nothing.
    Loose,
    /// The node before.
    Chain,
    /// The first node calls all others, and they call it.
    Star,
    /// Four nodes that are far apart, so that nearly all nodes are one group.
    Tangle,
    /// Up to three nodes, drawn with this seed.
    Random(u32),
}

/// The graph of `count` nodes of this shape, all of which are roots.
pub(crate) fn graph_with(alloc: Global, shape: Shape, count: u32) -> Result<Graph, Fail> {
    let mut succs = Vec::new(alloc);
    for node in 0..count {
        succs.push(callees(alloc, shape, count, node)?)?;
    }
    make_graph(succs, range(alloc, 0, count)?)
}

fn callees(alloc: Global, shape: Shape, count: u32, node: u32) -> Result<Vec<u32>, AllocError> {
    match shape {
        Shape::Loose => Ok(Vec::new(alloc)),
        Shape::Chain => range(alloc, node.saturating_sub(1), node),
        Shape::Star => star_callees(alloc, count, node),
        Shape::Tangle => multiples(alloc, &[7, 13, 31, 61], count, node),
        Shape::Random(seed) => random_callees(alloc, seed, count, node),
    }
}

fn star_callees(alloc: Global, count: u32, node: u32) -> Result<Vec<u32>, AllocError> {
    if node == 0 {
        return range(alloc, 1, count);
    }
    range(alloc, 0, 1)
}

fn random_callees(alloc: Global, seed: u32, count: u32, node: u32) -> Result<Vec<u32>, AllocError> {
    let first = draw(seed, node);
    let second = draw(first, node);
    let drawn = [first, second, draw(second, node)];
    let some = (first >> 8) % 4;
    multiples(alloc, &drawn[..some as usize], count, node)
}

/// A pseudorandom number.
pub(crate) fn draw(seed: u32, number: u32) -> u32 {
    let mixed = (u64::from(seed) << 32 | u64::from(number))
        .wrapping_mul(6_364_136_223_846_793_005)
        .wrapping_add(1_442_695_040_888_963_407);
    (mixed >> 32) as u32
}

fn range(alloc: Global, first: u32, past: u32) -> Result<Vec<u32>, AllocError> {
    let mut nodes = Vec::new(alloc);
    for node in first..past {
        nodes.push(node)?;
    }
    Ok(nodes)
}

/// For each factor a node that is as many times as far from the first one as this node, around a
/// circle.
fn multiples(
    alloc: Global,
    factors: &[u32],
    count: u32,
    node: u32,
) -> Result<Vec<u32>, AllocError> {
    let mut nodes = Vec::new(alloc);
    for factor in factors {
        let far = node.wrapping_mul(*factor).wrapping_add(*factor);
        nodes.push(far.checked_rem(count).unwrap_or(0))?;
    }
    Ok(nodes)
}
