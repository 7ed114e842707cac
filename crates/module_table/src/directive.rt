//! What directives say (ISO/IEC 13211-1, 7.4.2).

ghost use Rattle.std.specs.Prelude.{◌≡◌, ℕ, List, IfOk, IfErr, OnOk, Ok};
ghost use Rattle.prolog_names.specs.Names.{name_at};
ghost use Rattle.prolog_terms.specs.Terms.{tree_of};
ghost use Rattle.module_table.specs.Said.{IsWhy};
ghost use Rattle.module_table.specs.declared.kinds.Kinds.{Kinds as KindsOf};
ghost use Rattle.module_table.specs.Kinds.{with_said};
ghost use Rattle.module_table.specs.Kept.{IsAdded, see_kinds};
ghost use Rattle.module_table.specs.Told.{IsTold};
ghost use Rattle.module_table.specs.Directives.{home, use_some_said, one_said, two_said, three_said, shallow_said, directive_said, meta_said};

use crate::dynamic::{Standing, push_dynamic};
use crate::indicator::listed_indicators;
use crate::kinds::{Kinds, push_goal, push_part};
use crate::load::{LoadKind, push_load, push_loads, push_use_all};
use crate::mark::Property;
use crate::meta::push_takes;
use crate::module_directive::module_of;
use crate::said::{FactFault, Part, refusal};
use crate::terms::is_one_of;
use clause_text::Cause;
use prolog_terms::{Term, TermKind, inside, sides, start_of};
use std::alloc::Global;

/// Whether a directive is a goal, which is still to be added, or has been handled.
#[derive(Clone, Copy)]
pub enum Told {
    Goal,
    Done,
}

/// Adds what `meta_predicate` declares.
fn push_meta(
    alloc: Global,
    owner: &str,
    declared: &Term,
    kinds: &mut Kinds,
) -> Result<(), FactFault>
    ensures ok { OnOk result ((names : List (List ℕ)) → IsAdded names kinds.old (meta_said owner.now (tree_of declared.now)) kinds.new) }
    ensures refused { IfErr result (λ fault. IsWhy (meta_said owner.now (tree_of declared.now)) fault) }
{
    push_takes(alloc, owner, declared, &mut kinds.takes)?;
    Ok(())
}

/// Adds what `use_module/2` loads.
fn push_use_some(
    alloc: Global,
    user: &str,
    spec: &Term,
    list: &Term,
    kinds: &mut Kinds,
) -> Result<(), FactFault>
    ensures ok { OnOk result ((names : List (List ℕ)) → IsAdded names kinds.old (use_some_said user.now (tree_of spec.now) (tree_of list.now)) kinds.new) }
    ensures refused { IfErr result (λ fault. IsWhy (use_some_said user.now (tree_of spec.now) (tree_of list.now)) fault) }
{
    match listed_indicators(alloc, list) {
        Ok(items) => push_load(alloc, user, LoadKind::UseSome, items, spec, kinds),
        Err(FactFault::NoMemory) => Err(FactFault::NoMemory),
        Err(FactFault::At(cause, offset)) => {
            push_load(alloc, user, LoadKind::UseSome, Vec::new(alloc), spec, kinds)?;
            Err(FactFault::At(cause, offset))
        }
    }
}

/// Handles a directive of one argument.
fn one_told(
    alloc: Global,
    user: &str,
    owner: u32,
    name: &str,
    argument: &Term,
    directive: &Term,
    kinds: &mut Kinds,
) -> Result<Told, FactFault>
    ensures ok { IfOk result (λ told. IsTold argument.now.names.now told kinds.old
        (one_said (home user.now (name_at argument.now.names.now owner)) name.now (tree_of argument.now) (tree_of directive.now)) (tree_of directive.now)
        kinds.new) }
    ensures refused { IfErr result (λ fault. IsWhy
        (one_said (home user.now (name_at argument.now.names.now owner)) name.now (tree_of argument.now) (tree_of directive.now)) fault) }
{
    if name == "use_module" {
        push_use_all(alloc, user, argument, kinds)?;
        return Ok(Told::Done);
    }
    if is_one_of(&["ensure_loaded", "consult"], name) {
        push_load(
            alloc,
            user,
            LoadKind::Ensure,
            Vec::new(alloc),
            argument,
            kinds,
        )?;
        return Ok(Told::Done);
    }
    if name == "dynamic" {
        push_dynamic(
            alloc,
            Property::Dynamic,
            Standing::Whole,
            owner,
            argument,
            kinds,
        )?;
        return Ok(Told::Done);
    }
    if name == "multifile" {
        push_dynamic(
            alloc,
            Property::Multifile,
            Standing::Whole,
            owner,
            argument,
            kinds,
        )?;
        return Ok(Told::Done);
    }
    if name == "meta_predicate" {
        push_meta(alloc, argument.names.text(owner), argument, kinds)?;
        return Ok(Told::Done);
    }
    let silent = ["discontiguous", "mode", "public", "table"];
    if is_one_of(&silent, name) {
        return Ok(Told::Done);
    }
    if is_one_of(&["if", "elif", "include", "reexport"], name) {
        return Err(refusal(Cause::NotInProfile, directive));
    }
    Ok(Told::Goal)
}

/// Handles a directive of two arguments that is no comma.
fn two_told(
    alloc: Global,
    user: &str,
    first: bool,
    name: &str,
    left: &Term,
    right: &Term,
    directive: &Term,
    kinds: &mut Kinds,
) -> Result<Told, FactFault>
    ensures ok { IfOk result (λ told. (names : List (List ℕ)) (owner : List ℕ) → IsTold names told kinds.old
        (two_said (home user.now owner) first name.now (tree_of left.now) (tree_of right.now) (tree_of directive.now)) (tree_of directive.now)
        kinds.new) }
    ensures refused { IfErr result (λ fault. (owner : List ℕ) → IsWhy
        (two_said (home user.now owner) first name.now (tree_of left.now) (tree_of right.now) (tree_of directive.now)) fault) }
{
    if name == "module" {
        if !first {
            return Err(refusal(Cause::LateModule, directive));
        }
        let own = module_of(alloc, left, right, start_of(directive))?;
        push_part(kinds, Part::Module(own))?;
        return Ok(Told::Done);
    }
    if name == "use_module" {
        push_use_some(alloc, user, left, right, kinds)?;
        return Ok(Told::Done);
    }
    if name == "set_prolog_flag" {
        return Ok(Told::Done);
    }
    if name == "reexport" {
        return Err(refusal(Cause::NotInProfile, directive));
    }
    Ok(Told::Goal)
}

/// Handles a directive of three arguments.
fn three_told(name: &str, directive: &Term) -> Result<Told, FactFault>
    ensures ok { IfOk result (λ told. (names : List (List ℕ)) (kinds : KindsOf)
        → IsTold names told kinds (three_said name.now (tree_of directive.now)) (tree_of directive.now) kinds) }
    ensures refused { IfErr result (λ fault. IsWhy (three_said name.now (tree_of directive.now)) fault) }
{
    if name == "op" {
        return Ok(Told::Done);
    }
    if name == "use_module" {
        return Err(refusal(Cause::NotInProfile, directive));
    }
    Ok(Told::Goal)
}

/// Handles a directive without brackets round it that is no comma.
fn tell(
    alloc: Global,
    user: &str,
    owner: u32,
    first: bool,
    directive: &Term,
    kinds: &mut Kinds,
) -> Result<Told, FactFault>
    ensures ok { IfOk result (λ told. IsTold directive.now.names.now told kinds.old
        (shallow_said (home user.now (name_at directive.now.names.now owner)) first (tree_of directive.now)) (tree_of directive.now) kinds.new) }
    ensures refused { IfErr result (λ fault. IsWhy
        (shallow_said (home user.now (name_at directive.now.names.now owner)) first (tree_of directive.now)) fault) }
{
    match directive.kind() {
        TermKind::Compound { name, args, .. } => {
            if let Some(argument) = args.only() {
                return one_told(alloc, user, owner, name, &argument, directive, kinds);
            }
            if let Some((left, right)) = args.pair() {
                return two_told(alloc, user, first, name, &left, &right, directive, kinds);
            }
            if args.triple().is_some() {
                return three_told(name, directive);
            }
            Ok(Told::Goal)
        }
        TermKind::Atom { name } => {
            if is_one_of(&["else", "endif"], name) {
                return Err(refusal(Cause::NotInProfile, directive));
            }
            Ok(Told::Goal)
        }
        TermKind::List { items } => {
            let specs = items.to_vec(alloc)?;
            push_loads(alloc, user, LoadKind::Ensure, &specs, kinds)?;
            Ok(Told::Done)
        }
        TermKind::Tailed { .. } => Err(refusal(Cause::BadSpec, directive)),
        _ => Ok(Told::Goal),
    }
}

/// Adds what a directive says. `first` is whether it is the whole of the first clause.
pub fn push_directive(
    alloc: Global,
    user: &str,
    owner: u32,
    first: bool,
    directive: &Term,
    kinds: &mut Kinds,
) -> Result<(), FactFault>
    ensures ok { OnOk result (with_said (see_kinds directive.now.names.now directive.now.nodes.now kinds.old)
        (directive_said (home user.now (name_at directive.now.names.now owner)) first (tree_of directive.now))
        ≡ Ok (see_kinds directive.now.names.now directive.now.nodes.now kinds.new)) }
    ensures refused { IfErr result (λ fault.
        IsWhy (directive_said (home user.now (name_at directive.now.names.now owner)) first (tree_of directive.now)) fault) }
{
    if let Some((left, right)) = sides(directive, ",") {
        push_directive(alloc, user, owner, false, &left, kinds)?;
        return push_directive(alloc, user, owner, false, &right, kinds);
    }
    let alone = inside(directive);
    match tell(alloc, user, owner, first, &alone, kinds)? {
        Told::Goal => {
            push_goal(kinds, alone.end)?;
            Ok(())
        }
        Told::Done => Ok(()),
    }
}
