use graph_law::Graph;
use std::alloc::Global;
use std::test::Fail;

/// The graph of these successor lists and roots.
pub(crate) fn graph_of(alloc: Global, lists: &[&[u32]], roots: &[u32]) -> Result<Graph, Fail> {
    let mut succs = Vec::new(alloc);
    for list in lists {
        succs.push(list.to_vec(alloc)?)?;
    }
    let graph = Graph::new(succs, roots.to_vec(alloc)?).ok_or("refused")?;
    Ok(graph)
}
