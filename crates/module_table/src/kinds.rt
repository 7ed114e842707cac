//! What a file says, by kind.

ghost use Rattle.std.specs.Prelude.{◌≡◌, [], ℕ, List, IfErr, IfOk, OnOk, option_map};
ghost use Rattle.std.specs.Arc.{arc_value};
ghost use Rattle.prolog_terms.specs.declared.node.Node.{Node as NodeOf};
ghost use Rattle.prolog_terms.specs.Terms.{tree_in};
ghost use Rattle.module_table.specs.declared.said.FactFault.TheVariants.{NoMemory};
ghost use Rattle.module_table.specs.Said.{declares, goal, marks, see_module, see_part};
ghost use Rattle.module_table.specs.Kinds.{IsModule, none_said, with_part};
ghost use Rattle.module_table.specs.Kept.{see_kinds};
ghost use Rattle.module_table.specs.Marks.{see_mark};

use crate::defined::Defined;
use crate::file_facts::DirectiveGoals;
use crate::indicator::Indicator;
use crate::load::Load;
use crate::mark::Mark;
use crate::meta::Meta;
use crate::runs::push_bare;
use crate::said::{FactFault, Module, Part};
use kept_clauses::KeptList;
use prolog_tokens::Text;
use std::alloc::{AllocError, Global};
use std::sync::Arc;

/// What a file says, by kind and each kind in the order of the text: of modules only the first, and
/// its definitions as runs. `ends` are those of the goals of the current directive, whose nodes are
/// added later.
#[derive(Drop)]
pub struct Kinds {
    pub declared: Option<Module>,
    pub loads: Vec<Load>,
    pub definitions: Vec<Defined>,
    pub takes: Vec<Meta>,
    pub marks: Vec<Mark>,
    pub goals: Vec<DirectiveGoals>,
    pub ends: Vec<usize>,
}

/// Nothing said so far, with capacity for `room` runs.
pub fn none_said(alloc: Global, room: usize) -> Result<Kinds, AllocError>
    ensures none { IfOk result (λ kinds. (names : List (List ℕ)) (nodes : List NodeOf) → see_kinds names nodes kinds ≡ none_said) }
    ensures ends { IfOk result (λ kinds. kinds.ends.items ≡ []) }
{
    Ok(Kinds {
        declared: None,
        loads: Vec::new(alloc),
        definitions: Vec::with_capacity(alloc, room)?,
        takes: Vec::new(alloc),
        marks: Vec::new(alloc),
        goals: Vec::new(alloc),
        ends: Vec::new(alloc),
    })
}

/// Takes the module, if there was none.
fn keep_module(kinds: &mut Kinds, own: Module)
    ensures { (names : List (List ℕ)) (nodes : List NodeOf) → see_kinds names nodes kinds.new
        ≡ with_part (see_kinds names nodes kinds.old) (declares (see_module own)) }
{
    if kinds.declared.is_some() {
        return;
    }
    kinds.declared = Some(own);
}

/// Adds a module or a load.
pub fn push_part(kinds: &mut Kinds, part: Part) -> Result<(), FactFault>
    ensures ok { OnOk result ((names : List (List ℕ)) (nodes : List NodeOf) → see_kinds names nodes kinds.new
        ≡ with_part (see_kinds names nodes kinds.old) (see_part part)) }
    ensures refused { IfErr result (λ fault. fault ≡ NoMemory) }
{
    match part {
        Part::Module(own) => {
            keep_module(kinds, own);
            Ok(())
        }
        Part::Load(load) => {
            if kinds.loads.push(load).is_err() {
                return Err(FactFault::NoMemory);
            }
            Ok(())
        }
    }
}

/// Adds a property that a directive declares of a predicate, and so the predicate too.
pub fn push_mark(alloc: Global, kinds: &mut Kinds, mark: Mark) -> Result<(), AllocError>
    ensures { OnOk result ((names : List (List ℕ)) (nodes : List NodeOf) → see_kinds names nodes kinds.new
        ≡ with_part (see_kinds names nodes kinds.old) (marks (see_mark names mark))) }
{
    push_bare(
        alloc,
        &mut kinds.definitions,
        mark.module,
        mark.name,
        mark.arity,
    )?;
    kinds.marks.push(mark)?;
    Ok(())
}

/// Adds a goal of the current directive, which ends at the first `end` nodes.
pub fn push_goal(kinds: &mut Kinds, end: usize) -> Result<(), AllocError>
    ensures { OnOk result ((names : List (List ℕ)) (nodes : List NodeOf) → see_kinds names nodes kinds.new
        ≡ with_part (see_kinds names nodes kinds.old) (goal (tree_in names nodes end))) }
{
    kinds.ends.push(end)?;
    Ok(())
}

/// Adds the goals of the current directive with the list that has its nodes, if it has some.
pub fn close_directive(
    alloc: Global,
    kinds: &mut Kinds,
    list: Arc<KeptList>,
) -> Result<(), AllocError>
    ensures same { OnOk result ((names : List (List ℕ)) (others : List NodeOf) → see_kinds names others kinds.new
        ≡ see_kinds names (arc_value list).1 kinds.old) }
    ensures ends { OnOk result (kinds.new.ends.items ≡ []) }
{
    if kinds.ends.is_empty() {
        return Ok(());
    }
    let mut ends = Vec::new(alloc);
    std::mem::swap(&mut ends, &mut kinds.ends);
    kinds.goals.push(DirectiveGoals { list, ends })?;
    Ok(())
}

/// The module that a file belongs to, with what it exports.
#[derive(Drop)]
pub struct Belonging {
    pub name: Text,
    pub is_declared: bool,
    pub from: u32,
    pub exports: Vec<Indicator>,
}

/// The module that a file declares, or `user`.
pub fn module_of_file(alloc: Global, declared: Option<Module>) -> Result<Belonging, AllocError>
    ensures { IfOk result (λ own. IsModule (option_map see_module declared) own.name own.is_declared own.from own.exports.items) }
{
    match declared {
        Some(own) => Ok(Belonging {
            name: own.name,
            is_declared: true,
            from: own.from,
            exports: own.exports,
        }),
        None => Ok(Belonging {
            name: Text::new(alloc, "user")?,
            is_declared: false,
            from: 0,
            exports: Vec::new(alloc),
        }),
    }
}
