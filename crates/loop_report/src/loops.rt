ghost use Rattle.std.specs.Prelude.{◌≡◌, ◌<◌, ◌++◌, IfOk, OnOk, All, length, map};
ghost use Rattle.std.specs.List.{flat_map};
ghost use Rattle.std.specs.String.{string_bytes};
ghost use Rattle.graph_law.specs.Graph.{lists_of};
ghost use Rattle.loop_report.specs.ImportLoops.{AreImportLoops, names_at};
ghost use Rattle.loop_report.specs.ModuleGraph.{texts_of};
ghost use Rattle.loop_report.specs.Report.{loop_line, loop_names};

use crate::module_graph::module_graph;
use crate::modules::module_names;
use crate::rings::rings;
use crate::spelled::push_atom;
use import_rules::Program;
use prolog_tokens::Text;
use std::alloc::{AllocError, Global};

/// The names at the indices.
fn names_at(alloc: Global, modules: &[&str], class: &[u32]) -> Result<Vec<Text>, AllocError>
    requires { All (λ member. member < length modules.now) class.now }
    ensures { IfOk result (λ names. names.items ≡ names_at (texts_of modules.now) class.now) }
{
    let mut names = Vec::new(alloc);
    for &member in class {
        names.push(Text::new(alloc, modules[member as usize])?)?;
    }
    Ok(names)
}

/// The names at the indices, SCC by SCC.
fn names_of_classes(
    alloc: Global,
    modules: &[&str],
    classes: &[Vec<u32>],
) -> Result<Vec<Vec<Text>>, AllocError>
    requires { All (All (λ member. member < length modules.now)) (lists_of classes.now) }
    ensures { IfOk result (λ loops. lists_of loops.items ≡ map (names_at (texts_of modules.now)) (lists_of classes.now)) }
{
    let mut loops = Vec::new(alloc);
    for class in classes {
        loops.push(names_at(alloc, modules, class)?)?;
    }
    Ok(loops)
}

/// The import cycles of a program: the SCCs of two or more modules that load each other, and each
/// module other than `user` that loads itself.
///
/// A module loads another if one of its files loads a file of the other. The names of a cycle are
/// strictly ascending, and the cycles are in order of their least names.
pub fn import_loops(alloc: Global, program: &Program) -> Result<Vec<Vec<Text>>, AllocError>
    ensures { IfOk result (λ loops. AreImportLoops program.now.loaded.files (lists_of loops.items)) }
{
    program.is_known();
    let files = program.loaded().files.as_slice();
    let modules = module_names(alloc, files)?;
    let graph = module_graph(alloc, files, &modules)?;
    let classes = rings(alloc, &graph, &modules)?;
    let loops = names_of_classes(alloc, &modules, &classes)?;
    Ok(loops)
}

/// Adds the lines of the import cycles.
pub(crate) fn push_loops(text: &mut String, loops: &[Vec<Text>]) -> Result<(), AllocError>
    ensures { OnOk result (string_bytes text.new
        ≡ string_bytes text.old ++ flat_map loop_line (lists_of loops.now)) }
{
    for names in loops {
        push_loop(text, names)?;
    }
    Ok(())
}

fn push_loop(text: &mut String, names: &[Text]) -> Result<(), AllocError>
    ensures { OnOk result (string_bytes text.new ≡ string_bytes text.old ++ loop_line names.now) }
{
    text.push_str("import-loop")?;
    push_names(text, names)?;
    text.push_str("\n")
}

/// Adds the names, each after a space.
fn push_names(text: &mut String, names: &[Text]) -> Result<(), AllocError>
    ensures { OnOk result (string_bytes text.new ≡ string_bytes text.old ++ loop_names names.now) }
{
    for name in names {
        text.push_str(" ")?;
        push_atom(text, name.as_str())?;
    }
    Ok(())
}
