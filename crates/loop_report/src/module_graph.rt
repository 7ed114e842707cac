ghost use Rattle.std.specs.Prelude.{◌≡◌, ◌<◌, ◌≤◌, ◌^◌, [], IfOk, OnOk, All, length, map, replicate};
ghost use Rattle.std.specs.List.{range_with_len};
ghost use Rattle.graph_law.specs.Graph.{lists_of};
ghost use Rattle.module_table.specs.Facts.{see_facts};
ghost use Rattle.import_rules.specs.declared.resolve.TheConstants.{MOST_PREDICATES};
ghost use Rattle.loop_report.specs.ImportLoops.{AreModules};
ghost use Rattle.loop_report.specs.ModuleGraph.{AddsLoads, AreLoadLists, AreRising, file_names, texts_of};

use crate::modules::{file_names, module_places, place_of};
use graph_law::Graph;
use module_table::{FileFacts, Load};
use std::alloc::{AllocError, Global};

/// Appends the numbers in `places` of the loaded files to `callees`. A file that isn't among the
/// names has none.
fn push_loads(
    names: &[&str],
    places: &[u32],
    loads: &[Load],
    callees: &mut Vec<u32>,
) -> Result<(), AllocError>
    requires rising { AreRising (texts_of names.now) }
    requires few { length names.now < 2 ^ 32 }
    requires as_many { length places.now ≡ length names.now }
    ensures { OnOk result (AddsLoads (texts_of names.now) places.now (map (λ load. load.file) loads.now) callees.old.items callees.new.items) }
{
    for load in loads {
        let Some(file) = place_of(names, load.file.as_str()) else {
            continue;
        };
        callees.push(places[file as usize])?;
    }
    Ok(())
}

fn empty_lists(alloc: Global, count: usize) -> Result<Vec<Vec<u32>>, AllocError>
    ensures { IfOk result (λ lists. lists_of lists.items ≡ replicate count []) }
{
    let mut lists = Vec::new(alloc);
    for _ in 0..count {
        lists.push(Vec::new(alloc))?;
    }
    Ok(lists)
}

/// For each module the indices of the modules that its files load.
fn load_lists(
    alloc: Global,
    files: &[FileFacts],
    modules: &[&str],
) -> Result<Vec<Vec<u32>>, AllocError>
    requires modules { AreModules (map see_facts files.now) (texts_of modules.now) }
    requires rising { AreRising (file_names (map see_facts files.now)) }
    requires few_files { length files.now < 2 ^ 32 }
    requires few_modules { length modules.now < 2 ^ 32 }
    ensures { IfOk result (λ lists. AreLoadLists (map see_facts files.now) (texts_of modules.now) (lists_of lists.items)) }
{
    let names = file_names(alloc, files)?;
    let places = module_places(alloc, files, modules)?;
    let mut lists = empty_lists(alloc, modules.len())?;
    for file in 0..files.len() {
        let own = places[file] as usize;
        push_loads(&names, &places, &files[file].loads, &mut lists[own])?;
    }
    Ok(lists)
}

/// `count` nodes, ascending.
fn all_nodes(alloc: Global, count: u32) -> Result<Vec<u32>, AllocError>
    ensures { IfOk result (λ nodes. nodes.items ≡ range_with_len 0 count) }
{
    let mut nodes = Vec::new(alloc);
    for node in 0..count {
        nodes.push(node)?;
    }
    Ok(nodes)
}

/// The modules, of which each calls those that its files load. All of them are roots.
pub(crate) fn module_graph(
    alloc: Global,
    files: &[FileFacts],
    modules: &[&str],
) -> Result<Graph, AllocError>
    requires modules { AreModules (map see_facts files.now) (texts_of modules.now) }
    requires rising { AreRising (file_names (map see_facts files.now)) }
    requires few_files { length files.now < 2 ^ 32 }
    requires few_modules { length modules.now ≤ MOST_PREDICATES }
    ensures lists { IfOk result (λ graph. AreLoadLists (map see_facts files.now) (texts_of modules.now) graph.lists) }
    ensures roots { IfOk result (λ graph. graph.roots ≡ range_with_len 0 (length modules.now)) }
{
    let lists = load_lists(alloc, files, modules)?;
    let roots = all_nodes(alloc, modules.len() as u32)?;
    let Some(graph) = Graph::new(lists, roots) else {
        unreachable!()
    };
    Ok(graph)
}
