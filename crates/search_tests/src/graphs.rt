ghost use Rattle.std.specs.Prelude.{◌≡◌, IfOk};
ghost use Rattle.search_tests.specs.Graphs.{tailed_ring_lists};

use graph_law::Graph;
use std::alloc::{AllocError, Global};
use std::test::Fail;

/// A cycle of 0 and 1, of which 1 calls 2 too, and 3, which calls 0 and is the root.
pub(crate) fn tailed_ring(alloc: Global) -> Result<Graph, Fail>
    ensures { IfOk result (λ graph. graph.lists ≡ tailed_ring_lists) }
{
    let succs = vec![in alloc;
        vec![in alloc; 1]?,
        vec![in alloc; 2, 0]?,
        Vec::new(alloc),
        vec![in alloc; 0]?,
    ]?;
    let graph = Graph::new(succs, vec![in alloc; 3]?).ok_or("refused")?;
    Ok(graph)
}

/// The graph of these successor lists and roots.
pub(crate) fn graph_of_lists(
    alloc: Global,
    lists: &[&[u32]],
    roots: &[u32],
) -> Result<Graph, Fail> {
    let mut succs = Vec::new(alloc);
    for list in lists {
        succs.push(Vec::from_slice(alloc, list)?)?;
    }
    let graph = Graph::new(succs, Vec::from_slice(alloc, roots)?).ok_or("refused")?;
    Ok(graph)
}

/// A graph by bits, lowest first: for each node, which nodes it calls. All nodes are roots.
pub(crate) fn small_graph(
    alloc: Global,
    count: u32,
    mut edges: u32,
) -> Result<Option<Graph>, AllocError> {
    let mut succs = Vec::new(alloc);
    let mut roots = Vec::new(alloc);
    for p in 0..count {
        let mut list = Vec::new(alloc);
        for q in 0..count {
            if edges & 1 == 1 {
                list.push(q)?;
            }
            edges >>= 1;
        }
        succs.push(list)?;
        roots.push(p)?;
    }
    Ok(Graph::new(succs, roots))
}
