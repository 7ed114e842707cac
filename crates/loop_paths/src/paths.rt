ghost use Rattle.std.specs.Prelude.{◌<◌, ◌++◌, ◌∷◌, [], ℕ, List, length, MatchOption, IfOk};
ghost use Rattle.graph_law.specs.Graph.{Calls};
ghost use Rattle.loop_paths.specs.Lists.{IsLeast};
ghost use Rattle.loop_paths.specs.Paths.{IsClosedWalk, IsPath};

use crate::breadth::lead;
use graph_law::Opener;
use std::alloc::{AllocError, Global};

/// The least path from one node to another, both included. None if and only if the first doesn't
/// reach the other.
///
/// The shorter path is less, and then the one with the lesser node at the first difference. The
/// search is breadth-first, and expands each node at most once.
pub fn shortest<O: Opener>(
    alloc: Global,
    opener: &O,
    from: u32,
    to: u32,
) -> Result<Option<Vec<u32>>, AllocError>
    requires from { from < length (O.lists opener.now) }
    requires to { to < length (O.lists opener.now) }
    ensures { IfOk result (λ found. MatchOption found
        ((path : List ℕ) → IsPath (Calls (O.lists opener.now)) from to path → ⊥)
        (λ path. IsLeast (λ nodes. IsPath (Calls (O.lists opener.now)) from to nodes) path.items)) }
{
    if from == to {
        return Ok(Some(vec![in alloc; from; 1]?));
    }
    let mut seen = vec![in alloc; false; opener.count() as usize]?;
    let Some(mut path) = lead(alloc, opener, from, to, &mut seen)? else {
        return Ok(None);
    };
    path.push(to)?;
    Ok(Some(path))
}

/// The least cycle of a node: its least closed walk without the last node, which is the first
/// again. None if and only if no calls lead back to the node. Each node is expanded at most once.
pub fn circuit<O: Opener>(
    alloc: Global,
    opener: &O,
    node: u32,
) -> Result<Option<Vec<u32>>, AllocError>
    requires { node < length (O.lists opener.now) }
    ensures { IfOk result (λ found. MatchOption found
        ((walk : List ℕ) → IsClosedWalk (Calls (O.lists opener.now)) node walk → ⊥)
        (λ circuit. IsLeast (λ walk. IsClosedWalk (Calls (O.lists opener.now)) node walk) (circuit.items ++ node ∷ []))) }
{
    let mut seen = vec![in alloc; false; opener.count() as usize]?;
    let found = lead(alloc, opener, node, node, &mut seen)?;
    Ok(found)
}
