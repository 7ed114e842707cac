//! The predicates at which the searches of a run begin.

ghost use Rattle.std.specs.Prelude.{◌≡◌, ◌<◌, ◌++◌, ◌∷◌, [], OnOk, All, Some, IfOk, IfErr, length};
ghost use Rattle.std.specs.List.{AllZip};
ghost use Rattle.group_words.specs.Settings.{see_options};
ghost use Rattle.tool_run.specs.Roots.{AreRootNumbers, HasRoots, IsNamed, IsRootStop, IsEndStop, AreEnds, asked_names};

use call_edges::roots_of;
use group_words::Options;
use import_rules::{PredName, Program};
use prolog_tokens::Text;
use std::alloc::{AllocError, Global};

/// Why names have no numbers: the first that is no predicate of the program.
#[derive(Drop)]
pub enum RootStop {
    NoPredicate(PredName),
    NoMemory,
}

impl From<AllocError> for RootStop {
    ghost use Rattle.std.specs.Prelude.{◌≡◌};
    ghost use Rattle.tool_run.specs.declared.roots.RootStop.TheVariants.{NoMemory};

    ghost from_gives = { λ _ stop. stop ≡ NoMemory };

    fn from(_error: AllocError) -> RootStop {
        RootStop::NoMemory
    }
}

fn copy_of(alloc: Global, name: &PredName) -> Result<PredName, AllocError>
    ensures { IfOk result (λ copy. copy ≡ name.now) }
{
    Ok(PredName {
        module: Text::new(alloc, name.module.as_str())?,
        name: Text::new(alloc, name.name.as_str())?,
        arity: name.arity,
    })
}

fn push_root(roots: &mut Vec<u32>, node: u32) -> Result<(), AllocError>
    ensures { OnOk result (roots.new.items ≡ roots.old.items ++ node ∷ []) }
{
    roots.push(node)?;
    Ok(())
}

/// The numbers of the predicates that the list names, in its order, or the first name that is no
/// predicate.
fn numbers_of(alloc: Global, program: &Program, list: &[PredName]) -> Result<Vec<u32>, RootStop>
    ensures ok { IfOk result (λ roots. AllZip (IsNamed program.now.predicates) list.now roots.items) }
    ensures err { IfErr result (IsRootStop (Some list.now) program.now) }
{
    let mut roots = Vec::new(alloc);
    for name in list {
        let Some(node) = program.own(name) else {
            return Err(RootStop::NoPredicate(copy_of(alloc, name)?));
        };
        push_root(&mut roots, node)?;
    }
    Ok(roots)
}

/// The numbers of the predicates that the list names, strictly ascending.
fn listed_roots(alloc: Global, program: &Program, list: &[PredName]) -> Result<Vec<u32>, RootStop>
    ensures roots { IfOk result (λ roots. AreRootNumbers (Some list.now) program.now roots.items) }
    ensures below { IfOk result (λ roots. All (λ q. q < length program.now.predicates) roots.items) }
    ensures rooted { IfOk result (λ _. HasRoots (Some list.now) program.now) }
    ensures err { IfErr result (IsRootStop (Some list.now) program.now) }
{
    program.is_known();
    let mut roots = numbers_of(alloc, program, list)?;
    roots.sort_unstable();
    roots.dedup();
    Ok(roots)
}

/// The predicates at which reachability begins, strictly ascending: those that the options list, or
/// those of the program if they list none. Fails at the first name of the list that is no
/// predicate.
pub fn roots_by(alloc: Global, program: &Program, options: &Options) -> Result<Vec<u32>, RootStop>
    ensures roots { IfOk result (λ roots. AreRootNumbers (see_options options.now).roots program.now roots.items) }
    ensures below { IfOk result (λ roots. All (λ q. q < length program.now.predicates) roots.items) }
    ensures rooted { IfOk result (λ _. HasRoots (see_options options.now).roots program.now) }
    ensures err { IfErr result (IsRootStop (see_options options.now).roots program.now) }
{
    match &options.roots {
        Some(list) => listed_roots(alloc, program, list),
        None => Ok(roots_of(alloc, program)?),
    }
}

/// The number of the predicate of that name. Fails if there is none.
fn end_of_path(alloc: Global, program: &Program, name: &PredName) -> Result<u32, RootStop>
    ensures ok { IfOk result (IsNamed program.now.predicates name.now) }
    ensures err { IfErr result (IsEndStop program.now.predicates name.now) }
{
    let Some(node) = program.own(name) else {
        return Err(RootStop::NoPredicate(copy_of(alloc, name)?));
    };
    Ok(node)
}

/// The numbers of the two predicates between which the options ask for a path, or None if they ask
/// for none. Fails at the first of both that is no predicate. The roots of the options must all be
/// predicates.
pub fn ends_by(
    alloc: Global,
    program: &Program,
    options: &Options,
) -> Result<Option<(u32, u32)>, RootStop>
    requires { HasRoots (see_options options.now).roots program.now }
    ensures ends { IfOk result (AreEnds (see_options options.now).path program.now) }
    ensures rooted { IfOk result (λ _. HasRoots (asked_names (see_options options.now).path (see_options options.now).roots) program.now) }
    ensures err { IfErr result (IsRootStop (asked_names (see_options options.now).path (see_options options.now).roots) program.now) }
{
    let Some(both) = &options.path else {
        return Ok(None);
    };
    let from = end_of_path(alloc, program, &both.0)?;
    let to = end_of_path(alloc, program, &both.1)?;
    Ok(Some((from, to)))
}
