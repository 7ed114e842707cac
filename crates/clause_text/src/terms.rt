ghost use Rattle.std.specs.Prelude.{◌≡◌, ◌||◌, option_map, map, codes, IfOk, IfSome};
ghost use Rattle.std.specs.Str.{bytes_eq};
ghost use Rattle.prolog_terms.specs.Terms.{tree_of, trees_of, IsOf, IsPartsOf};
ghost use Rattle.prolog_terms.specs.Views.{trees_in};
ghost use Rattle.clause_text.specs.Lists.{listed_items, written_items};
ghost use Rattle.clause_text.specs.Items.{item_of, directive_of};

use prolog_terms::{Parts, Term, TermKind, inside};
use std::alloc::{AllocError, Global};

/// The priority, the kind and the names of an operator item `op(Priority, Kind, Names)` (ISO/IEC
/// 13211-1, 7.4.2.4).
pub fn operator_item<'a>(term: &Term<'a>) -> Option<(Term<'a>, Term<'a>, Term<'a>)>
    ensures { option_map (λ item. record { priority = tree_of item.0; kind = tree_of item.1; names = tree_of item.2 }) result ≡ item_of (tree_of term.now) }
{
    let TermKind::Compound { name, args, .. } = inside(term).kind() else {
        return None;
    };
    if name != "op" {
        return None;
    }
    args.triple()
}

fn begins_directive(name: &str) -> bool
    ensures { result ≡ (bytes_eq name.now (codes ":-") || bytes_eq name.now (codes "?-")) }
{
    name == ":-" || name == "?-"
}

/// The directive after the `:-` or `?-` of a clause that has no head.
pub fn directive_of<'a>(clause: &Term<'a>) -> Option<Term<'a>>
    ensures tree { option_map tree_of result ≡ directive_of (tree_of clause.now) }
    ensures within { IfSome result (IsOf clause.now.names.now clause.now.nodes.now) }
{
    let TermKind::Compound { name, args, .. } = inside(clause).kind() else {
        return None;
    };
    let directive = args.only()?;
    if !begins_directive(name) {
        return None;
    }
    Some(directive)
}

/// The items of a list without a tail that isn't the atom `[]`.
pub fn written_items<'a>(term: &Term<'a>) -> Option<Parts<'a>>
    ensures trees { option_map (λ items. trees_in (trees_of items)) result ≡ written_items (tree_of term.now) }
    ensures within { IfSome result (IsPartsOf term.now.names.now term.now.nodes.now) }
{
    match inside(term).kind() {
        TermKind::List { items } => Some(items),
        _ => None,
    }
}

/// The items of a list, with or without a tail, in their order. There are none if the term is no
/// list.
pub fn listed_items<'a>(alloc: Global, term: &Term<'a>) -> Result<Vec<Term<'a>>, AllocError>
    ensures { IfOk result (λ terms. map tree_of terms.items ≡ listed_items (tree_of term.now)) }
{
    match inside(term).kind() {
        TermKind::List { items } => items.to_vec(alloc),
        TermKind::Tailed { items, .. } => items.to_vec(alloc),
        _ => Ok(Vec::new(alloc)),
    }
}
