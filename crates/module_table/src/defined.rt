ghost use Rattle.std.specs.Prelude.{◌≡◌, ◌++◌, ◌&&◌, ℕ, List, nat_eq, map, flat_map, IfOk, OnOk};
ghost use Rattle.std.specs.Bool.{OnTrue};
ghost use Rattle.std.specs.Cmp.Lexicographic.{slice_cmp};
ghost use Rattle.std.specs.Ordering.{is_lt, nat_cmp};
ghost use Rattle.std.specs.Str.{bytes_eq};
ghost use Rattle.prolog_names.specs.Names.{name_at};
ghost use Rattle.module_table.specs.Defined.{AreApart, AreDefined, Defines, NoneIsAfter, key_of, predicate_cmp, see_defined, see_run};

use crate::clauses::Clauses;
use crate::lead::sort_by_lead;
use prolog_names::Names;
use std::alloc::{AllocError, Global};
use std::cmp::Ordering;

/// A predicate that a file defines, for its own module or for another one, with its clauses in the
/// order of the text. Its module and its name are numbers in the names of the file.
#[derive(Drop)]
pub struct Defined {
    pub module: u32,
    pub name: u32,
    pub arity: u32,
    pub clauses: Clauses,
}

/// The predicates of the runs, each once, in the order of modules, names and arities. Each has its
/// clauses, in the order of the runs.
pub fn group(
    alloc: Global,
    names: &Names,
    mut runs: Vec<Defined>,
) -> Result<Vec<Defined>, AllocError>
    ensures { IfOk result (λ defined. AreDefined (flat_map (see_run names.now) runs.items) (map (see_defined names.now) defined.items)) }
{
    // Mostly the clauses of a predicate are adjacent, so each run is a predicate. And mostly runs
    // are in order once the first bytes of their names are.
    sort_by_lead(names, &mut runs)?;
    if are_apart(names, &runs) {
        return Ok(runs);
    }
    runs.sort_by(|a, b| compare(names, a, b))?;
    if are_apart(names, &runs) {
        return Ok(runs);
    }
    let mut defined = Vec::with_capacity(alloc, runs.len())?;
    for run in runs {
        add(alloc, names, &mut defined, run)?;
    }
    Ok(defined)
}

/// The order of the names of two numbers.
fn compare_names(names: &Names, a: u32, b: u32) -> Ordering
    ensures { result ≡ slice_cmp nat_cmp (name_at names.now a) (name_at names.now b) }
{
    if a == b {
        return Ordering::Equal;
    }
    names.text(a).cmp(names.text(b))
}

fn compare(names: &Names, a: &Defined, b: &Defined) -> Ordering
    ensures { result ≡ predicate_cmp (key_of names.now a.now) (key_of names.now b.now) }
{
    compare_names(names, a.module, b.module).then(compare_names(names, a.name, b.name).then(
        a.arity.cmp(&b.arity),
    ))
}

fn comes_before(names: &Names, a: &Defined, b: &Defined) -> bool
    ensures { result ≡ is_lt (predicate_cmp (key_of names.now a.now) (key_of names.now b.now)) }
{
    compare(names, a, b).is_lt()
}

/// Whether the runs are strictly ascending: each is of a predicate before that of the next one.
fn are_apart(names: &Names, runs: &[Defined]) -> bool
    ensures { OnTrue result (AreApart names.now runs.now) }
{
    runs.is_sorted_by(|a, b| comes_before(names, a, b))
}

/// Adds one more run, of the last predicate or of one after it.
fn add(
    alloc: Global,
    names: &Names,
    defined: &mut Vec<Defined>,
    run: Defined,
) -> Result<(), AllocError>
    ensures { OnOk result ((ds : List Defines) → NoneIsAfter (see_defined names.now run) ds
        → AreDefined ds (map (see_defined names.now) defined.old.items)
        → AreDefined (ds ++ see_run names.now run) (map (see_defined names.now) defined.new.items)) }
{
    let Some(last) = defined.last_mut() else {
        defined.push(run)?;
        return Ok(());
    };
    if is_of(names, &run, last) {
        last.clauses.append(alloc, run.clauses)?;
        return Ok(());
    }
    defined.push(run)?;
    Ok(())
}

/// Whether the names of two numbers are one name.
fn is_one_name(names: &Names, a: u32, b: u32) -> bool
    ensures { result ≡ bytes_eq (name_at names.now a) (name_at names.now b) }
{
    if a == b {
        return true;
    }
    names.text(a) == names.text(b)
}

fn is_of(names: &Names, run: &Defined, predicate: &Defined) -> bool
    ensures { result ≡ (bytes_eq (name_at names.now predicate.now.module) (name_at names.now run.now.module)
        && (bytes_eq (name_at names.now predicate.now.name) (name_at names.now run.now.name) && nat_eq predicate.now.arity run.now.arity)) }
{
    is_one_name(names, predicate.module, run.module)
        && (is_one_name(names, predicate.name, run.name) && predicate.arity == run.arity)
}
