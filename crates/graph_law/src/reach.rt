ghost use Rattle.std.specs.Prelude.{◌<◌, length, All, IfOk};
ghost use Rattle.graph_law.specs.Graph.{Calls};
ghost use Rattle.graph_law.specs.Reached.{AreReached};

use crate::graph::Graph;
use crate::opener::Opener;
use std::alloc::{AllocError, Global};

/// For each node, whether one of `starts` reaches it.
pub(crate) fn reached_from(
    alloc: Global,
    graph: &Graph,
    starts: &[u32],
) -> Result<Vec<bool>, AllocError>
    requires { All (λ start. start < length graph.now.lists) starts.now }
    ensures { IfOk result (λ marks. AreReached (Calls graph.now.lists) (length graph.now.lists) starts.now marks.items) }
{
    let mut marks = vec![in alloc; false; graph.count() as usize]?;
    let mut pending = Vec::from_slice(alloc, starts)?;
    while let Some(node) = pending.pop() {
        if marks[node as usize] {
            continue;
        }
        marks[node as usize] = true;
        pending.extend_from_slice(graph.successors(node))?;
    }
    Ok(marks)
}
