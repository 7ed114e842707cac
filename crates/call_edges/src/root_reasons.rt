//! Why reachability begins at predicates, and which of them modules export.
//!
//! The lists are in no order, and may have a predicate more than once.

ghost use Rattle.std.specs.Prelude.{◌↔◌, ◌<◌, ℕ, All, Contains, length, IfOk, OnOk};
ghost use Rattle.call_edges.specs.Calls.{IsAmong};
ghost use Rattle.call_edges.specs.Goals.{Adds};
ghost use Rattle.call_edges.specs.RootReasons.{IsExported, IsExportedByModule, IsRootByDirective, IsRootByExport, IsRootByFile};

use crate::body::goals_of;
use crate::calls::push_called;
use crate::roots::{plain_roots, push_all_exports, push_exports, push_marked};
use import_rules::Program;
use std::alloc::{AllocError, Global};

/// Adds what module files export.
fn push_exported(program: &Program, nodes: &mut Vec<u32>) -> Result<(), AllocError>
    ensures { OnOk result (Adds (IsAmong (IsExportedByModule program.now) program.now.loaded.files) nodes.old.items nodes.new.items) }
{
    let loaded = program.loaded();
    for file in &loaded.files {
        if !file.is_module {
            continue;
        }
        push_exports(program, file.module.as_str(), &file.exports, nodes)?;
    }
    Ok(())
}

/// The predicates that module files export.
pub fn exported_of(alloc: Global, program: &Program) -> Result<Vec<u32>, AllocError>
    ensures are { IfOk result (λ nodes. (q : ℕ) → Contains nodes.items q ↔ IsExported program.now q) }
    ensures below { IfOk result (λ nodes. All (λ q. q < length program.now.predicates) nodes.items) }
{
    let mut nodes = Vec::new(alloc);
    push_exported(program, &mut nodes)?;
    Ok(nodes)
}

/// The predicates that root files export which are module files.
pub fn roots_by_export(alloc: Global, program: &Program) -> Result<Vec<u32>, AllocError>
    ensures are { IfOk result (λ nodes. (q : ℕ) → Contains nodes.items q ↔ IsRootByExport program.now q) }
    ensures below { IfOk result (λ nodes. All (λ q. q < length program.now.predicates) nodes.items) }
{
    let mut nodes = Vec::new(alloc);
    push_all_exports(program, &mut nodes)?;
    Ok(nodes)
}

/// The predicates that goal directives of any file call.
pub fn roots_by_directive(alloc: Global, program: &Program) -> Result<Vec<u32>, AllocError>
    ensures are { IfOk result (λ nodes. (q : ℕ) → Contains nodes.items q ↔ IsRootByDirective program.now q) }
    ensures below { IfOk result (λ nodes. All (λ q. q < length program.now.predicates) nodes.items) }
{
    program.is_known();
    let mut nodes = Vec::new(alloc);
    let goals = goals_of(alloc, program)?;
    push_called(program, &goals, &mut nodes)?;
    Ok(nodes)
}

/// The predicates that root files define which are no module files.
pub fn roots_by_file(alloc: Global, program: &Program) -> Result<Vec<u32>, AllocError>
    ensures are { IfOk result (λ nodes. (q : ℕ) → Contains nodes.items q ↔ IsRootByFile program.now q) }
    ensures below { IfOk result (λ nodes. All (λ q. q < length program.now.predicates) nodes.items) }
{
    let marks = plain_roots(alloc, program)?;
    let mut nodes = Vec::new(alloc);
    push_marked(program, &marks, &mut nodes)?;
    Ok(nodes)
}
