//! Predicate indicators, and lists of them.

ghost use Rattle.std.specs.Prelude.{◌≡◌, IfOk, IfErr, OnOk, Ok, Some, map};
ghost use Rattle.prolog_terms.specs.Terms.{tree_of};
ghost use Rattle.module_table.specs.Said.{IsWhy, more};
ghost use Rattle.module_table.specs.Indicators.{arity_of, arguments_added, indicator, one_indicator, indicators, listed_indicators};

use crate::said::{FactFault, refusal};
use crate::terms::list_items;
use clause_text::Cause;
use prolog_terms::{ConstKind, Term, TermKind, atom_name, binary, inside, start_of};
use prolog_tokens::Text;
use std::alloc::{AllocError, Global};

/// A predicate indicator (ISO/IEC 13211-1, 7.1.6.6): a name and an arity, with its byte offset.
#[derive(Drop)]
pub struct Indicator {
    pub name: Text,
    pub arity: u32,
    pub from: u32,
}

/// The value of an integer without minus, plus `added`, if it is an arity.
pub fn arity_of(term: &Term, added: u32) -> Option<u32>
    ensures { result ≡ arity_of (tree_of term.now) added }
{
    let TermKind::Const { kind, minus, value } = inside(term).kind() else {
        return None;
    };
    if kind != ConstKind::Integer {
        return None;
    }
    if minus {
        return None;
    }
    match value {
        Some(number) => number.checked_add(added),
        None => None,
    }
}

/// How many arguments an indicator with this operator adds: none with `/`, and two with `//`.
pub fn arguments_added(name: &str) -> Option<u32>
    ensures { result ≡ arguments_added name.now }
{
    if name == "/" {
        return Some(0);
    }
    if name == "//" {
        return Some(2);
    }
    None
}

/// `N/A` or `N//A`.
fn read_indicator(alloc: Global, term: &Term) -> Result<Option<Indicator>, AllocError>
    ensures { IfOk result (λ found. found ≡ indicator (tree_of term.now)) }
{
    let Some(pair) = binary(term) else {
        return Ok(None);
    };
    let Some(added) = arguments_added(pair.name) else {
        return Ok(None);
    };
    let Some(name) = atom_name(&pair.left) else {
        return Ok(None);
    };
    let Some(arity) = arity_of(&pair.right, added) else {
        return Ok(None);
    };
    Ok(Some(Indicator {
        name: Text::new(alloc, name)?,
        arity,
        from: start_of(term),
    }))
}

/// Adds the indicator that the term is. Fails at the term if it is none.
pub fn push_indicator(
    alloc: Global,
    term: &Term,
    found: &mut Vec<Indicator>,
) -> Result<(), FactFault>
    ensures ok { OnOk result (more found.old.items (one_indicator (tree_of term.now)) ≡ Ok found.new.items) }
    ensures refused { IfErr result (λ fault. IsWhy (one_indicator (tree_of term.now)) fault) }
{
    let Some(one) = read_indicator(alloc, term)? else {
        return Err(refusal(Cause::BadIndicator, term));
    };
    if found.push(one).is_err() {
        return Err(FactFault::NoMemory);
    }
    Ok(())
}

/// The indicators that the terms are, in their order. Fails at the first term that is none.
pub fn indicators(alloc: Global, terms: &[Term]) -> Result<Vec<Indicator>, FactFault>
    ensures ok { IfOk result (λ found. indicators (map tree_of terms.now) ≡ Ok found.items) }
    ensures refused { IfErr result (λ fault. IsWhy (indicators (map tree_of terms.now)) fault) }
{
    let mut found = Vec::new(alloc);
    for term in terms {
        push_indicator(alloc, term, &mut found)?;
    }
    Ok(found)
}

/// The indicators of a list without a tail, in its order. Fails at the term if it is no such list,
/// and otherwise at the first item that is no indicator.
pub fn listed_indicators(alloc: Global, term: &Term) -> Result<Vec<Indicator>, FactFault>
    ensures ok { IfOk result (λ found. listed_indicators (tree_of term.now) ≡ Ok found.items) }
    ensures refused { IfErr result (λ fault. IsWhy (listed_indicators (tree_of term.now)) fault) }
{
    match list_items(alloc, term)? {
        Some(items) => indicators(alloc, &items),
        None => Err(refusal(Cause::BadIndicator, term)),
    }
}
