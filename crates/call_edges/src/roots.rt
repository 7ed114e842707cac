//! The predicates at which reachability begins.

ghost use Rattle.std.specs.Prelude.{◌≡◌, ◌↔◌, ◌<◌, ℕ, Some, All, Contains, IsTrue, length, IfOk, OnOk};
ghost use Rattle.std.specs.List.Sorted.{IsStrictlyIncreasing};
ghost use Rattle.module_table.specs.Facts.{see_facts};
ghost use Rattle.file_library.specs.Asked.{AreInOrder};
ghost use Rattle.call_edges.specs.Goals.{Adds};
ghost use Rattle.call_edges.specs.Calls.{IsAmong};
ghost use Rattle.call_edges.specs.Roots.{AreMarked, HasMarked, IsDefinedByRoot, IsExportOf, IsExportedByRoot, IsGivenByRoot, IsPlainRoot, IsRoot};

use crate::body::goals_of;
use crate::calls::push_called;
use import_rules::Program;
use module_table::{FileFacts, Indicator};
use prolog_tokens::Text;
use std::alloc::{AllocError, Global};

/// Adds the predicates of a module that it exports.
pub fn push_exports(
    program: &Program,
    owner: &str,
    exports: &[Indicator],
    roots: &mut Vec<u32>,
) -> Result<(), AllocError>
    ensures { OnOk result (Adds (IsAmong (IsExportOf program.now owner.now) exports.now) roots.old.items roots.new.items) }
{
    for export in exports {
        let Some(node) = program.find(owner, export.name.as_str(), export.arity) else {
            continue;
        };
        roots.push(node)?;
    }
    Ok(())
}

/// Whether the name is one of the names, which are in order.
fn is_among(names: &[Text], name: &Text) -> bool
    requires { AreInOrder names.now }
    ensures { IsTrue result ↔ Contains names.now name.now }
{
    names.binary_search(name).is_ok()
}

/// Adds the exports of the root files that are module files.
pub fn push_all_exports(program: &Program, roots: &mut Vec<u32>) -> Result<(), AllocError>
    ensures { OnOk result (Adds (IsAmong (IsExportedByRoot program.now) program.now.loaded.files) roots.old.items roots.new.items) }
{
    program.is_known();
    let loaded = program.loaded();
    for file in &loaded.files {
        if !file.is_module {
            continue;
        }
        if !is_among(&loaded.roots, &file.file) {
            continue;
        }
        push_exports(program, file.module.as_str(), &file.exports, roots)?;
    }
    Ok(())
}

/// Whether the file is a root file and no module file. The names of the root files are in order.
fn is_plain_root(roots: &[Text], file: &FileFacts) -> bool
    requires { AreInOrder roots.now }
    ensures { IsTrue result ↔ IsPlainRoot roots.now (see_facts file.now) }
{
    if file.is_module {
        return false;
    }
    is_among(roots, &file.file)
}

/// For each file, whether it is a root file and no module file.
pub fn plain_roots(alloc: Global, program: &Program) -> Result<Vec<bool>, AllocError>
    ensures { IfOk result (λ marks. AreMarked program.now marks.items) }
{
    program.is_known();
    let loaded = program.loaded();
    let mut marks = Vec::with_capacity(alloc, loaded.files.len())?;
    for file in &loaded.files {
        marks.push(is_plain_root(&loaded.roots, file))?;
    }
    Ok(marks)
}

/// Whether one of these definitions is in a marked file.
fn is_marked(marks: &[bool], places: &[(u32, u32)]) -> bool
    requires { All (λ (at : ℕ × ℕ). at.0 < length marks.now) places.now }
    ensures { IsTrue result ↔ HasMarked marks.now places.now }
{
    for place in places {
        if marks[place.0 as usize] {
            return true;
        }
    }
    false
}

/// Adds the predicates that marked files define. They are found by their definitions, so no name is
/// looked up.
pub fn push_marked(
    program: &Program,
    marks: &[bool],
    roots: &mut Vec<u32>,
) -> Result<(), AllocError>
    requires { AreMarked program.now marks.now }
    ensures { OnOk result (Adds (IsAmong (IsDefinedByRoot program.now) program.now.loaded.files) roots.old.items roots.new.items) }
{
    program.is_known();
    for node in 0..program.count() {
        if !is_marked(marks, program.places_of(node)) {
            continue;
        }
        roots.push(node)?;
    }
    Ok(())
}

/// Adds the exports and definitions of the root files that are roots.
fn push_all_given(alloc: Global, program: &Program, roots: &mut Vec<u32>) -> Result<(), AllocError>
    ensures { OnOk result (Adds (IsAmong (IsGivenByRoot program.now) program.now.loaded.files) roots.old.items roots.new.items) }
{
    push_all_exports(program, roots)?;
    let marks = plain_roots(alloc, program)?;
    push_marked(program, &marks, roots)
}

/// The predicates at which reachability begins, strictly ascending: the exports of root files that
/// are module files, all predicates that other root files define, and what goal directives of any
/// file call.
pub fn roots_of(alloc: Global, program: &Program) -> Result<Vec<u32>, AllocError>
    ensures ascending { IfOk result (λ roots. IsStrictlyIncreasing roots.items) }
    ensures roots { IfOk result (λ roots. (q : ℕ) → Contains roots.items q ↔ IsRoot program.now q) }
    ensures below { IfOk result (λ roots. All (λ q. q < length program.now.predicates) roots.items) }
{
    program.is_known();
    let mut roots = Vec::new(alloc);
    push_all_given(alloc, program, &mut roots)?;
    let goals = goals_of(alloc, program)?;
    push_called(program, &goals, &mut roots)?;
    roots.sort_unstable();
    roots.dedup();
    Ok(roots)
}
