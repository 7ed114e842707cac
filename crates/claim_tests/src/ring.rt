ghost use Rattle.std.specs.Prelude.{◌≡◌, IfOk};
ghost use Rattle.claim_tests.specs.Ring.{ring_lists};

use graph_law::Graph;
use std::alloc::Global;
use std::test::Fail;

/// A cycle of 0, 1 and 2, with the root 0.
pub(crate) fn ring(alloc: Global) -> Result<Graph, Fail>
    ensures { IfOk result (λ graph. graph.lists ≡ ring_lists) }
{
    let succs = vec![in alloc; vec![in alloc; 1]?, vec![in alloc; 2]?, vec![in alloc; 0]?]?;
    let graph = Graph::new(succs, vec![in alloc; 0]?).ok_or("refused")?;
    Ok(graph)
}
