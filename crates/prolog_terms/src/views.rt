//! Views of terms that look through the brackets round them.

ghost use Rattle.std.specs.Prelude.{◌≡◌, option_map, IfSome};
ghost use Rattle.prolog_names.specs.Names.{name_at};
ghost use Rattle.prolog_terms.specs.Terms.{tree_of, trees_of, IsOf, IsPartsOf};
ghost use Rattle.prolog_terms.specs.Views.{inside as inner_tree, start_of, binary as binary_tree, sides_of, name_and_arity, name_and_args, atom_name};

use crate::binary_term::Binary;
use crate::node::Shape;
use crate::term::{Parts, Term};

/// The term inside all brackets round it.
#[inline(always)]
pub fn inside<'a>(term: &Term<'a>) -> Term<'a>
    ensures tree { tree_of result ≡ inner_tree (tree_of term.now) }
    ensures within { IsOf term.now.names.now term.now.nodes.now result }
{
    term.part(term.nodes.inside(term.end))
}

/// The byte offset where the term starts, inside its brackets.
pub fn start_of(term: &Term) -> u32
    ensures { result ≡ start_of (tree_of term.now) }
{
    inside(term).span().from
}

/// The number of the name and the arguments of a compound of two arguments, in any notation and brackets.
#[inline(always)]
pub fn numbered_binary<'a>(term: &Term<'a>) -> Option<(u32, Term<'a>, Term<'a>)>
    ensures trees { option_map (λ pair. record { name = name_at term.now.names.now pair.0; left = tree_of pair.1; right = tree_of pair.2 }) result
        ≡ binary_tree (tree_of term.now) }
    ensures within { IfSome result (λ pair. IsOf term.now.names.now term.now.nodes.now pair.1 × IsOf term.now.names.now term.now.nodes.now pair.2) }
{
    let inner = inside(term);
    let (node, before) = inner.node();
    let Shape::Compound { name, count, .. } = node.shape else {
        return None;
    };
    let (left, right) = inner.parts(before, count).pair()?;
    Some((name, left, right))
}

/// The name and the arguments of a compound of two arguments, in any notation and brackets.
pub fn binary<'a>(term: &Term<'a>) -> Option<Binary<'a>>
    ensures trees { option_map (λ pair. record { name = pair.name.now; left = tree_of pair.left; right = tree_of pair.right }) result
        ≡ binary_tree (tree_of term.now) }
    ensures within { IfSome result (λ pair. IsOf term.now.names.now term.now.nodes.now pair.left × IsOf term.now.names.now term.now.nodes.now pair.right) }
{
    let (number, left, right) = numbered_binary(term)?;
    let name = term.names.text(number);
    Some(Binary { name, left, right })
}

/// The two arguments of a compound of this name, in any notation and brackets.
pub fn sides<'a>(term: &Term<'a>, operator: &str) -> Option<(Term<'a>, Term<'a>)>
    ensures trees { option_map (λ pair. (tree_of pair.0, tree_of pair.1)) result ≡ sides_of operator.now (tree_of term.now) }
    ensures within { IfSome result (λ pair. IsOf term.now.names.now term.now.nodes.now pair.0 × IsOf term.now.names.now term.now.nodes.now pair.1) }
{
    let (number, left, right) = numbered_binary(term)?;
    if !term.names.is(number, operator) {
        return None;
    }
    Some((left, right))
}

/// The number of the name and the number of arguments of an atom or a compound.
pub fn number_and_arity(term: &Term) -> Option<(u32, usize)>
    ensures { option_map (λ pair. record { name = name_at term.now.names.now pair.0; arity = pair.1 }) result ≡ name_and_arity (tree_of term.now) }
{
    let (node, _before) = inside(term).node();
    match node.shape {
        Shape::Atom { name } => Some((name, 0)),
        Shape::Compound { name, count, .. } => Some((name, count as usize)),
        _ => None,
    }
}

/// The number of the name and the arguments of an atom or a compound, in any notation and brackets.
/// An atom has no arguments. No text is read.
#[inline(always)]
pub fn number_and_args<'a>(term: &Term<'a>) -> Option<(u32, Parts<'a>)>
    ensures trees { option_map (λ pair. record { name = name_at term.now.names.now pair.0; args = trees_of pair.1 }) result
        ≡ name_and_args (tree_of term.now) }
    ensures within { IfSome result (λ pair. IsPartsOf term.now.names.now term.now.nodes.now pair.1) }
{
    let inner = inside(term);
    let (node, before) = inner.node();
    match node.shape {
        Shape::Atom { name } => Some((name, inner.parts(before, 0))),
        Shape::Compound { name, count, .. } => Some((name, inner.parts(before, count))),
        _ => None,
    }
}

/// The name and the number of arguments of an atom or a compound.
pub fn name_and_arity<'a>(term: &Term<'a>) -> Option<(&'a str, usize)>
    ensures { option_map (λ pair. record { name = pair.0.now; arity = pair.1 }) result ≡ name_and_arity (tree_of term.now) }
{
    let (number, arity) = number_and_arity(term)?;
    Some((term.names.text(number), arity))
}

/// The number of the name of an atom.
pub fn atom_number(term: &Term) -> Option<u32>
    ensures { option_map (name_at term.now.names.now) result ≡ atom_name (tree_of term.now) }
{
    let (node, _before) = inside(term).node();
    match node.shape {
        Shape::Atom { name } => Some(name),
        _ => None,
    }
}

/// The name of an atom.
pub fn atom_name<'a>(term: &Term<'a>) -> Option<&'a str>
    ensures { option_map (λ name. name.now) result ≡ atom_name (tree_of term.now) }
{
    let number = atom_number(term)?;
    Some(term.names.text(number))
}
