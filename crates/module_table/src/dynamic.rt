//! What `dynamic` and `multifile` declare (ISO/IEC 13211-1, 7.4.2.1 and 7.4.2.2).

ghost use Rattle.std.specs.Prelude.{◌≡◌, IfOk, IfErr, IfSome, OnOk, All, option_map, map};
ghost use Rattle.prolog_names.specs.Names.{name_at};
ghost use Rattle.prolog_terms.specs.Terms.{tree_of, IsOf};
ghost use Rattle.module_table.specs.Said.{IsWhy};
ghost use Rattle.module_table.specs.Kept.{IsAdded};
ghost use Rattle.module_table.specs.Dynamic.{name_in, owned, bare_said, joint_sides, whole_items, dynamic_at};

use crate::indicator::{arguments_added, arity_of};
use crate::kinds::{Kinds, push_mark};
use crate::mark::{Mark, Property};
use crate::said::{FactFault, refusal};
use crate::terms::list_items;
use clause_text::Cause;
use prolog_terms::{Term, atom_number, binary, sides};
use std::alloc::{AllocError, Global};

/// The position of a term in the directive: all that it or a module in it declares, one of the
/// terms that commas join, or an item of a list.
#[derive(Clone, Copy)]
pub enum Standing {
    Whole,
    Joint,
    Item,
}

/// The module, the name and the arity of a predicate. The names are numbers in those of the term.
#[derive(Clone, Copy)]
struct OwnedIndicator {
    module: u32,
    name: u32,
    arity: u32,
}

/// A name in a module, as numbers in the names of the term.
#[derive(Clone, Copy)]
struct NameIn {
    module: u32,
    name: u32,
}

/// `N`, a name in the module, or `M:N`.
fn name_in(owner: u32, term: &Term) -> Option<NameIn>
    ensures { option_map (λ own. record { module_ = name_at term.now.names.now own.module; name = name_at term.now.names.now own.name }) result
        ≡ name_in (name_at term.now.names.now owner) (tree_of term.now) }
{
    let Some((left, right)) = sides(term, ":") else {
        let name = atom_number(term)?;
        return Some(NameIn {
            module: owner,
            name,
        });
    };
    let module = atom_number(&left)?;
    let name = atom_number(&right)?;
    Some(NameIn { module, name })
}

/// `N/A`, `N//A`, `(M:N)/A` or `(M:N)//A`.
fn owned(owner: u32, term: &Term) -> Option<OwnedIndicator>
    ensures { option_map (λ own.
        record { module_ = name_at term.now.names.now own.module; name = name_at term.now.names.now own.name; arity = own.arity }) result
        ≡ owned (name_at term.now.names.now owner) (tree_of term.now) }
{
    let pair = binary(term)?;
    let added = arguments_added(pair.name)?;
    let own = name_in(owner, &pair.left)?;
    let arity = arity_of(&pair.right, added)?;
    Some(OwnedIndicator {
        module: own.module,
        name: own.name,
        arity,
    })
}

/// Adds the property of the predicate that the term names.
fn push_one(
    alloc: Global,
    property: Property,
    owner: u32,
    term: &Term,
    kinds: &mut Kinds,
) -> Result<(), FactFault>
    ensures ok { OnOk result (IsAdded term.now.names.now kinds.old (bare_said property (name_at term.now.names.now owner) (tree_of term.now)) kinds.new) }
    ensures refused { IfErr result (λ fault. IsWhy (bare_said property (name_at term.now.names.now owner) (tree_of term.now)) fault) }
{
    let Some(own) = owned(owner, term) else {
        return Err(refusal(Cause::BadIndicator, term));
    };
    let mark = Mark {
        property,
        module: own.module,
        name: own.name,
        arity: own.arity,
    };
    push_mark(alloc, kinds, mark)?;
    Ok(())
}

/// The sides of a comma, if it is allowed there.
fn joint_sides<'a>(at: Standing, term: &Term<'a>) -> Option<(Term<'a>, Term<'a>)>
    ensures trees { option_map (λ pair. (tree_of pair.0, tree_of pair.1)) result ≡ joint_sides at (tree_of term.now) }
    ensures within { IfSome result (λ pair. IsOf term.now.names.now term.now.nodes.now pair.0 × IsOf term.now.names.now term.now.nodes.now pair.1) }
{
    match at {
        Standing::Whole => sides(term, ","),
        Standing::Joint => sides(term, ","),
        Standing::Item => None,
    }
}

/// The items of a list, if it is allowed there.
fn whole_items<'a>(
    alloc: Global,
    at: Standing,
    term: &Term<'a>,
) -> Result<Option<Vec<Term<'a>>>, AllocError>
    ensures trees { IfOk result (λ found. option_map (λ items. map tree_of items.items) found ≡ whole_items at (tree_of term.now)) }
    ensures within { IfOk result (λ found. IfSome found (λ items. All (IsOf term.now.names.now term.now.nodes.now) items.items)) }
{
    match at {
        Standing::Whole => list_items(alloc, term),
        Standing::Joint => Ok(None),
        Standing::Item => Ok(None),
    }
}

/// Adds the property of the predicates that the term names in the module `owner`. Fails at a term
/// that is no predicate indicator.
pub fn push_dynamic(
    alloc: Global,
    property: Property,
    at: Standing,
    owner: u32,
    term: &Term,
    kinds: &mut Kinds,
) -> Result<(), FactFault>
    ensures ok { OnOk result (IsAdded term.now.names.now kinds.old (dynamic_at property at (name_at term.now.names.now owner) (tree_of term.now)) kinds.new) }
    ensures refused { IfErr result (λ fault. IsWhy (dynamic_at property at (name_at term.now.names.now owner) (tree_of term.now)) fault) }
{
    match joint_sides(at, term) {
        Some((left, right)) => {
            push_dynamic(alloc, property, Standing::Joint, owner, &left, kinds)?;
            push_dynamic(alloc, property, Standing::Joint, owner, &right, kinds)
        }
        None => match sides(term, ":") {
            Some((module, inner)) => match atom_number(&module) {
                Some(own) => push_dynamic(alloc, property, Standing::Whole, own, &inner, kinds),
                None => Err(refusal(Cause::BadIndicator, term)),
            },
            None => match whole_items(alloc, at, term)? {
                Some(items) => {
                    for item in &items {
                        push_dynamic(alloc, property, Standing::Item, owner, item, kinds)?;
                    }
                    Ok(())
                }
                None => push_one(alloc, property, owner, term, kinds),
            },
        },
    }
}
