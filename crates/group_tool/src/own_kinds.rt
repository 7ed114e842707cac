//! The kinds of effects that predicates have themselves.

ghost use Rattle.std.specs.Prelude.{◌≡◌, ◌<◌, ◌↔◌, ℕ, length, IfOk, IsBitSet};
ghost use Rattle.std.specs.List.{filter_map};
ghost use Rattle.call_edges.specs.Called.{unresolved};
ghost use Rattle.call_edges.specs.Seen.{see_met, see_mets};
ghost use Rattle.group_tool.specs.Parts.{AreOwnKinds, IsOwnKinds, SomeHasKind, kinds_given};

use call_edges::{Met, met_in};
use effect_flow::kinds_of;
use import_rules::Program;
use rayon::prelude::*;
use std::alloc::{AllocError, Global};
use std::thread::Threads;

/// How few predicates are worth a thread of their own.
const FEWEST: usize = 512;

/// The kinds of a call that means no predicate. Few names have a kind, and no other name is looked
/// up in the program.
fn kinds_met(program: &Program, met: Met) -> u64
    ensures { result ≡ kinds_given (unresolved program.now (see_met met.entry)) }
{
    let Met::Call {
        module,
        name,
        arity,
        ..
    } = met
    else {
        return 0;
    };
    let kinds = kinds_of(name, arity);
    if kinds == 0 {
        return 0;
    }
    match program.find(module, name, arity) {
        Some(_) => 0,
        None => kinds,
    }
}

/// The kinds of all calls that mean no predicate.
fn kinds_in(program: &Program, met: &[Met]) -> u64
    ensures { (kind : ℕ) → IsBitSet result kind ↔ SomeHasKind (filter_map (unresolved program.now) (see_mets met.now)) kind }
{
    let mut all = 0;
    for one in met {
        let own = kinds_met(program, *one);
        all |= own;
    }
    all
}

/// The kinds that the predicate with that number has itself: those of the names that it calls and
/// that mean no predicate.
fn kinds_at(alloc: Global, program: &Program, node: u32) -> Result<u64, AllocError>
    requires { node < length program.now.predicates }
    ensures { IfOk result (IsOwnKinds program.now node) }
{
    let met = met_in(alloc, program, node)?;
    Ok(kinds_in(program, &met))
}

/// The kinds that each predicate has itself, as bits of their numbers, in the order of the
/// predicates. The predicates are walked in parallel.
pub fn own_kinds<R: Threads + Sync>(
    rt: &R,
    alloc: Global,
    program: &Program,
) -> Result<Vec<u64>, AllocError>
    ensures { IfOk result (λ own. AreOwnKinds program.now own.items) }
{
    (0..program.count())
        .into_par_iter()
        .with_min_len(FEWEST)
        .map(
            |node: u32| -> Result<u64, AllocError>
                requires { node < length program.now.predicates }
                ensures { IfOk result (IsOwnKinds program.entry.now node) }
            { kinds_at(alloc, program, node) },
        )
        .collect::<Result<Vec<u64>, AllocError>>(rt, alloc)?
}
