//! Runs: a run is a predicate with adjacent clauses of the text. A directive that defines a
//! predicate makes a run without clauses, and no clause joins it.

ghost use Rattle.std.specs.Prelude.{◌≡◌, ◌++◌, ◌∷◌, [], ◌&&◌, ℕ, List, None, nat_eq, flat_map, OnOk};
ghost use Rattle.std.specs.Bool.{OnTrue};
ghost use Rattle.prolog_names.specs.Names.{name_at};
ghost use Rattle.clause_text.specs.Clauses.{clause_tree};
ghost use Rattle.module_table.specs.Defined.{EndIn, defined_by, see_run};

use crate::clauses::Clauses;
use crate::defined::Defined;
use clause_text::Clause;
use std::alloc::{AllocError, Global};

fn is_named(run: &Defined, owner: u32, name: u32, arity: usize) -> bool
    ensures { result ≡ (nat_eq run.now.arity arity && (nat_eq run.now.name name && nat_eq run.now.module owner)) }
{
    run.arity as usize == arity && (run.name == name && run.module == owner)
}

/// Whether the last run has clauses, and is of the predicate with these numbers.
pub fn end_in(runs: &[Defined], owner: u32, name: u32, arity: usize) -> bool
    ensures { OnTrue result (EndIn owner name arity runs.now) }
{
    let Some(last) = runs.last() else {
        return false;
    };
    if last.clauses.as_slice().is_empty() {
        return false;
    }
    is_named(last, owner, name, arity)
}

/// Adds a clause to the last run.
pub fn push_last(alloc: Global, runs: &mut Vec<Defined>, clause: Clause) -> Result<(), AllocError>
    ensures { OnOk result ((names : List (List ℕ)) (owner name arity : ℕ) → EndIn owner name arity runs.old.items
        → flat_map (see_run names) runs.new.items
        ≡ flat_map (see_run names) runs.old.items ++ defined_by (name_at names owner) (name_at names name) arity (clause_tree names clause) ∷ []) }
{
    let Some(last) = runs.last_mut() else {
        return Ok(());
    };
    last.clauses.push(alloc, clause)?;
    Ok(())
}

/// Adds a run of one clause.
pub fn push_run(
    runs: &mut Vec<Defined>,
    owner: u32,
    name: u32,
    arity: u32,
    clause: Clause,
) -> Result<(), AllocError>
    ensures { OnOk result ((names : List (List ℕ)) → flat_map (see_run names) runs.new.items
        ≡ flat_map (see_run names) runs.old.items ++ defined_by (name_at names owner) (name_at names name) arity (clause_tree names clause) ∷ []) }
{
    runs.push(Defined {
        module: owner,
        name,
        arity,
        clauses: Clauses::One([clause]),
    })?;
    Ok(())
}

/// Adds a run without clauses.
pub fn push_bare(
    alloc: Global,
    runs: &mut Vec<Defined>,
    owner: u32,
    name: u32,
    arity: u32,
) -> Result<(), AllocError>
    ensures { OnOk result ((names : List (List ℕ)) → flat_map (see_run names) runs.new.items ≡ flat_map (see_run names) runs.old.items
        ++ record { module_ = name_at names owner; name = name_at names name; arity = arity; clause = None } ∷ []) }
{
    runs.push(Defined {
        module: owner,
        name,
        arity,
        clauses: Clauses::More(Vec::new(alloc)),
    })?;
    Ok(())
}
