ghost use Rattle.std.specs.Prelude.{◌≡◌, ◌++◌, ◌≤◌, ◌↔◌, List, length, map, option_map, codes, IsTrue, IfOk, MatchOption};
ghost use Rattle.std.specs.String.{string_bytes};
ghost use Rattle.prolog_tokens.specs.declared.limits.TheConstants.{MOST_BYTES};
ghost use Rattle.prolog_tokens.specs.Cut.{IsCut};
ghost use Rattle.prolog_ops.specs.Table.{ops_of};
ghost use Rattle.prolog_terms.specs.Tree.{Tree};
ghost use Rattle.prolog_terms.specs.Terms.{tree_of};
ghost use Rattle.prolog_terms.specs.Words.{table_of};
ghost use Rattle.prolog_terms.specs.Clause.{IsClauseOf, IsOneClause};
ghost use Rattle.prolog_terms.specs.Views.{joined};
ghost use Rattle.clause_text.specs.Clauses.{opening_ops};
ghost use Rattle.group_words.specs.declared.limits.TheConstants.{MOST_LIST};
ghost use Rattle.group_words.specs.RootList.{IsRootList, IsList, AddsRoots, list_tree, arity_of, named, named_predicate, all_there};

use crate::limits::MOST_LIST;
use import_rules::PredName;
use prolog_names::{Names, number_names};
use prolog_ops::OpTable;
use prolog_terms::{
    ConstKind, NodeList, ReadFault, Reader, Term, TermKind, atom_name, inside, read_clause, sides,
};
use prolog_tokens::{Kind, Text, Token, TokenFault, tokens};
use std::alloc::{AllocError, Global};

/// The term of a list: its nodes, and the names in them.
#[derive(Drop)]
struct ListTerm {
    names: Names,
    nodes: NodeList,
}

/// The value of an integer without minus.
fn arity_of(term: &Term) -> Option<u32>
    ensures { result ≡ arity_of (tree_of term.now) }
{
    let TermKind::Const { kind, minus, value } = inside(term).kind() else {
        return None;
    };
    if kind != ConstKind::Integer {
        return None;
    }
    if minus {
        return None;
    }
    value
}

/// The predicate of these parts, if all are there.
fn predicate_of(
    alloc: Global,
    owner: Option<&str>,
    name: Option<&str>,
    arity: Option<u32>,
) -> Result<Option<PredName>, AllocError>
    ensures { IfOk result (λ found. found ≡ named (option_map (λ text. text.now) owner.entry) (option_map (λ text. text.now) name.entry) arity) }
{
    let (Some(owner), Some(name), Some(arity)) = (owner, name, arity) else {
        return Ok(None);
    };
    Ok(Some(PredName {
        module: Text::new(alloc, owner)?,
        name: Text::new(alloc, name)?,
        arity,
    }))
}

/// The predicate that `N/A` or `M:N/A` names.
fn named_predicate(alloc: Global, term: &Term) -> Result<Option<PredName>, AllocError>
    ensures { IfOk result (λ found. found ≡ named_predicate (tree_of term.now)) }
{
    let Some((name, arity)) = sides(term, "/") else {
        return Ok(None);
    };
    let arity = arity_of(&arity);
    match sides(&name, ":") {
        Some((owner, name)) => predicate_of(alloc, atom_name(&owner), atom_name(&name), arity),
        None => predicate_of(alloc, Some("user"), atom_name(&name), arity),
    }
}

/// Adds the predicates that commas join, and returns whether all are named.
fn push_joined(alloc: Global, term: &Term, roots: &mut Vec<PredName>) -> Result<bool, AllocError>
    ensures { IfOk result (λ all. AddsRoots roots.old.items roots.new.items all (all_there (map named_predicate (joined (tree_of term.now))))) }
{
    if let Some((left, right)) = sides(term, ",") {
        if !push_joined(alloc, &left, roots)? {
            return Ok(false);
        }
        return push_joined(alloc, &right, roots);
    }
    let Some(root) = named_predicate(alloc, term)? else {
        return Ok(false);
    };
    roots.push(root)?;
    Ok(true)
}

/// Whether there are tokens, and only the last one is an End.
fn is_one_clause(tokens: &[Token]) -> bool
    ensures { IsTrue result ↔ IsOneClause tokens.now }
{
    if tokens.is_empty() {
        return false;
    }
    for at in 0..tokens.len() - 1 {
        if tokens[at].kind == Kind::End {
            return false;
        }
    }
    true
}

fn opening_table(alloc: Global) -> Result<OpTable, AllocError>
    ensures { IfOk result (λ table. ops_of table ≡ opening_ops) }
{
    OpTable::opening(alloc)
}

/// The one clause of the tokens, or None if they are none.
fn read_tokens(alloc: Global, text: &str, tokens: &[Token]) -> Result<Option<ListTerm>, AllocError>
    requires small { length text.now ≤ MOST_BYTES }
    requires cut { IsCut text.now tokens.now }
    ensures { IfOk result (λ found. MatchOption found
        ((tree : Tree) → IsClauseOf (table_of opening_ops) text.now tokens.now tree → ⊥)
        (λ term. IsClauseOf (table_of opening_ops) text.now tokens.now (list_tree term))) }
{
    if !is_one_clause(tokens) {
        return Ok(None);
    }
    let table = opening_table(alloc)?;
    let numbered = number_names(alloc, text, tokens)?;
    let mut reader = Reader::new(alloc);
    match read_clause(
        alloc,
        &mut reader,
        &table,
        &numbered.names,
        text,
        tokens,
        numbered.numbers.as_slice(),
    ) {
        Ok(nodes) => Ok(Some(ListTerm {
            names: numbered.names,
            nodes,
        })),
        Err(fault) => match fault {
            ReadFault::NoMemory => Err(AllocError),
            _ => Ok(None),
        },
    }
}

/// The term of the list, or None if it is none.
fn read_list(alloc: Global, list: &str) -> Result<Option<ListTerm>, AllocError>
    requires { length list.now ≤ MOST_LIST }
    ensures { IfOk result (λ found. MatchOption found ((tree : Tree) → IsList list.now tree → ⊥) (λ term. IsList list.now (list_tree term))) }
{
    let mut text = String::from_str(alloc, list)?;
    text.push_str(" .")?;
    let whole = text.as_str();
    match tokens(alloc, whole) {
        Ok(found) => read_tokens(alloc, whole, &found),
        Err(fault) => match fault {
            TokenFault::NoMemory => Err(AllocError),
            _ => Ok(None),
        },
    }
}

/// The predicates that a list names, such as `p/2, m:q/0`, in its order. None if it isn't such a
/// list.
pub fn read_roots(alloc: Global, list: &str) -> Result<Option<Vec<PredName>>, AllocError>
    ensures { IfOk result (λ found. MatchOption found
        ((roots : List PredName) → IsRootList list.now roots → ⊥)
        (λ roots. IsRootList list.now roots.items)) }
{
    if list.len() > MOST_LIST {
        return Ok(None);
    }
    let Some(read) = read_list(alloc, list)? else {
        return Ok(None);
    };
    let term = Term::root(&read.names, &read.nodes);
    let mut roots = Vec::new(alloc);
    if push_joined(alloc, &term, &mut roots)? {
        Ok(Some(roots))
    } else {
        Ok(None)
    }
}
