//! Declarations of arguments that are goals (`meta_predicate`).

ghost use Rattle.std.specs.Prelude.{◌≡◌, ◌++◌, ◌∷◌, [], map, IfOk, OnOk};
ghost use Rattle.prolog_terms.specs.Terms.{tree_of};
ghost use Rattle.module_table.specs.Metas.{digit_arg, name_arg, goal_arg, takes_of, see_meta};

use crate::goal_arg::GoalArg;
use prolog_terms::{ConstKind, Term, TermKind, atom_name, inside, sides};
use prolog_tokens::Text;
use std::alloc::{AllocError, Global};

/// The greatest number of added arguments that a declaration names.
const MOST_ADDED: u32 = 9;

/// A declaration of the arguments of a predicate that are goals, with its byte offset. It has one
/// entry for each argument.
#[derive(Drop)]
pub struct Meta {
    pub module: Text,
    pub name: Text,
    pub args: Vec<GoalArg>,
    pub from: u32,
}

/// An integer of at most nine is how many arguments are added. Any other constant is no goal.
fn digit_arg(kind: ConstKind, minus: bool, value: Option<u32>) -> GoalArg
    ensures { result ≡ digit_arg kind minus value }
{
    if kind != ConstKind::Integer {
        return GoalArg::Plain;
    }
    if minus {
        return GoalArg::Plain;
    }
    let Some(number) = value else {
        return GoalArg::Plain;
    };
    if number > MOST_ADDED {
        return GoalArg::Plain;
    }
    GoalArg::Goal(number)
}

/// Of all names only `^` and `//` mean a goal.
fn name_arg(name: &str) -> GoalArg
    ensures { result ≡ name_arg name.now }
{
    if name == "^" {
        return GoalArg::Caret;
    }
    if name == "//" {
        return GoalArg::Grammar;
    }
    GoalArg::Plain
}

/// What the argument of a declaration means for the argument of a goal.
fn goal_arg(term: &Term) -> GoalArg
    ensures { result ≡ goal_arg (tree_of term.now) }
{
    match inside(term).kind() {
        TermKind::Const { kind, minus, value } => digit_arg(kind, minus, value),
        TermKind::Atom { name } => name_arg(name),
        _ => GoalArg::Plain,
    }
}

/// What each argument of a declaration means, in their order.
fn goal_args(alloc: Global, terms: &[Term]) -> Result<Vec<GoalArg>, AllocError>
    ensures { IfOk result (λ args. args.items ≡ map goal_arg (map tree_of terms.now)) }
{
    let mut args = Vec::with_capacity(alloc, terms.len())?;
    for term in terms {
        args.push(goal_arg(term))?;
    }
    Ok(args)
}

/// Adds the declaration of a compound with this name and these arguments.
fn push_taking(
    alloc: Global,
    owner: &str,
    name: &str,
    args: &[Term],
    from: u32,
    takes: &mut Vec<Meta>,
) -> Result<(), AllocError>
    ensures { OnOk result (map see_meta takes.new.items ≡ map see_meta takes.old.items
        ++ (record { module_ = owner.now; name = name.now; args = map goal_arg (map tree_of args.now); from = from } ∷ [])) }
{
    takes.push(Meta {
        module: Text::new(alloc, owner)?,
        name: Text::new(alloc, name)?,
        args: goal_args(alloc, args)?,
        from,
    })?;
    Ok(())
}

/// Adds what `meta_predicate` declares in the module `owner`.
pub fn push_takes(
    alloc: Global,
    owner: &str,
    term: &Term,
    takes: &mut Vec<Meta>,
) -> Result<(), AllocError>
    ensures { OnOk result (map see_meta takes.new.items ≡ map see_meta takes.old.items ++ takes_of owner.now (tree_of term.now)) }
{
    if let Some((left, right)) = sides(term, ",") {
        push_takes(alloc, owner, &left, takes)?;
        return push_takes(alloc, owner, &right, takes);
    }
    if let Some((left, right)) = sides(term, ":") {
        let Some(own) = atom_name(&left) else {
            return Ok(());
        };
        return push_takes(alloc, own, &right, takes);
    }
    let bare = inside(term);
    match bare.kind() {
        TermKind::Compound { name, args, .. } => {
            let args = args.to_vec(alloc)?;
            push_taking(alloc, owner, name, &args, bare.span().from, takes)
        }
        TermKind::List { items } => {
            let items = items.to_vec(alloc)?;
            for item in &items {
                push_takes(alloc, owner, item, takes)?;
            }
            Ok(())
        }
        TermKind::Var => Ok(()),
        TermKind::Const { .. } => Ok(()),
        TermKind::Atom { .. } => Ok(()),
        TermKind::Tailed { .. } => Ok(()),
        TermKind::Curly { .. } => Ok(()),
        TermKind::Paren { .. } => Ok(()),
    }
}
