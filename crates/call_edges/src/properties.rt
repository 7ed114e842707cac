//! The predicates that directives declare `dynamic` or `multifile`.

ghost use Rattle.std.specs.Prelude.{◌≡◌, ◌↔◌, ◌<◌, ℕ, All, Contains, length, map, IfOk, OnOk};
ghost use Rattle.module_table.specs.Marks.{see_mark};
ghost use Rattle.call_edges.specs.Calls.{IsAmong};
ghost use Rattle.call_edges.specs.Goals.{Adds};
ghost use Rattle.call_edges.specs.Properties.{IsDeclared, IsDeclaredIn, IsDeclaredBy};

use import_rules::Program;
use module_table::{Mark, Property};
use prolog_names::Names;
use std::alloc::{AllocError, Global};

/// Adds the predicates that these marks of a file give the property.
fn push_marked(
    program: &Program,
    property: Property,
    names: &Names,
    marks: &[Mark],
    nodes: &mut Vec<u32>,
) -> Result<(), AllocError>
    ensures { OnOk result (Adds (IsAmong (IsDeclaredBy program.now property) (map (see_mark names.now) marks.now)) nodes.old.items nodes.new.items) }
{
    for mark in marks {
        if mark.property != property {
            continue;
        }
        let owner = names.text(mark.module);
        let Some(node) = program.find(owner, names.text(mark.name), mark.arity) else {
            continue;
        };
        nodes.push(node)?;
    }
    Ok(())
}

/// Adds the predicates that directives of any file give the property.
fn push_declared(
    program: &Program,
    property: Property,
    nodes: &mut Vec<u32>,
) -> Result<(), AllocError>
    ensures { OnOk result (Adds (IsAmong (IsDeclaredIn program.now property) program.now.loaded.files) nodes.old.items nodes.new.items) }
{
    let loaded = program.loaded();
    for file in &loaded.files {
        push_marked(program, property, &file.names, &file.marks, nodes)?;
    }
    Ok(())
}

/// The predicates of which a directive of any file declares the property. The list is in no order,
/// and may have a predicate more than once.
pub fn declared_of(
    alloc: Global,
    program: &Program,
    property: Property,
) -> Result<Vec<u32>, AllocError>
    ensures are { IfOk result (λ nodes. (q : ℕ) → Contains nodes.items q ↔ IsDeclared program.now property q) }
    ensures below { IfOk result (λ nodes. All (λ q. q < length program.now.predicates) nodes.items) }
{
    let mut nodes = Vec::new(alloc);
    push_declared(program, property, &mut nodes)?;
    Ok(nodes)
}
