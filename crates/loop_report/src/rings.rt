ghost use Rattle.std.specs.Prelude.{◌≡◌, ◌≢◌, ◌<◌, ◌↔◌, ◌∷◌, [], IfOk, IsTrue, All, codes, length};
ghost use Rattle.std.specs.List.{range_with_len};
ghost use Rattle.graph_law.specs.Graph.{Calls, lists_of};
ghost use Rattle.graph_law.specs.Classes.{IsRecursive};
ghost use Rattle.loop_report.specs.ImportLoops.{names_at};
ghost use Rattle.loop_report.specs.ModuleGraph.{AreRings, texts_of};

use graph_law::{Graph, is_recursive};
use search_stack::groups_plain;
use std::alloc::{AllocError, Global};

/// Whether the SCC is only the module `user`.
fn is_user(modules: &[&str], class: &[u32]) -> bool
    requires { All (λ module_place. module_place < length modules.now) class.now }
    ensures { IsTrue result ↔ (names_at (texts_of modules.now) class.now ≡ codes "user" ∷ []) }
{
    if class.len() != 1 {
        return false;
    }
    modules[class[0] as usize] == "user"
}

/// Whether the SCC is an import cycle: several modules that load each other, or one other than
/// `user` that loads itself.
fn is_ring(graph: &Graph, modules: &[&str], class: &[u32]) -> bool
    requires members { All (λ member. member < length graph.now.lists) class.now }
    requires as_many { length modules.now ≡ length graph.now.lists }
    ensures { IsTrue result ↔ (IsRecursive (Calls graph.now.lists) class.now × (names_at (texts_of modules.now) class.now ≢ codes "user" ∷ [])) }
{
    if is_user(modules, class) {
        return false;
    }
    is_recursive(graph, class)
}

/// The SCCs of modules that are import cycles, in order of their least members.
pub(crate) fn rings(
    alloc: Global,
    graph: &Graph,
    modules: &[&str],
) -> Result<Vec<Vec<u32>>, AllocError>
    requires as_many { length modules.now ≡ length graph.now.lists }
    requires all_roots { graph.now.roots ≡ range_with_len 0 (length graph.now.lists) }
    ensures { IfOk result (λ classes. AreRings (texts_of modules.now) graph.now.lists (lists_of classes.items)) }
{
    let groups = groups_plain(alloc, graph, graph.roots())?;
    let mut rings = Vec::new(alloc);
    for group in groups {
        if !is_ring(graph, modules, &group) {
            continue;
        }
        rings.push(group)?;
    }
    rings.sort()?;
    Ok(rings)
}
