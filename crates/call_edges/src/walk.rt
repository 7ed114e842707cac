//! Walking a body: the goals that occur in it.

ghost use Rattle.std.specs.Prelude.{◌≡◌, ◌≤◌, ◌+◌, ◌*◌, ◌++◌, true, option_map, IfSome, OnOk};
ghost use Rattle.std.specs.Option.{option_to_list};
ghost use Rattle.prolog_terms.specs.Terms.{tree_of, trees_of};
ghost use Rattle.prolog_terms.specs.Views.{trees_in};
ghost use Rattle.prolog_terms.specs.Weight.{weight};
ghost use Rattle.module_table.specs.Metas.{added};
ghost use Rattle.call_edges.specs.Arguments.{AddsArguments, AreLightArguments};
ghost use Rattle.call_edges.specs.Goals.{argument_role, atom_met, calls_atom, constant_met, curly_arg, curly_role, row_role, role_at, no_goals, place, AddsMet};
ghost use Rattle.call_edges.specs.Meant.{AreMeant, IsMeant};
ghost use Rattle.call_edges.specs.ProgramRows.{rows_of};
ghost use Rattle.call_edges.specs.Seen.{see_met, see_mets, see_standing, see_taken};
ghost use Rattle.import_rules.specs.Program.{Seen};

use crate::by_number::plain_call;
use crate::role::{Meant, Met, Role, Row, Standing, Taken};
use crate::table::is_one_of;
use crate::take_apart::{added_count, take_apart};
use import_rules::Program;
use module_table::GoalArg;
use prolog_terms::{ConstKind, Parts, Term, TermKind, number_and_arity};
use std::alloc::{AllocError, Global};

/// The goal at a constant at this byte offset. No constant is callable, except that texts are allowed
/// in grammar bodies.
fn constant_met<'a>(arg: GoalArg, kind: ConstKind, at: u32) -> Option<Met<'a>>
    ensures met { option_map see_met result ≡ constant_met arg kind at }
    ensures meant { (seen : Seen) → IfSome result (IsMeant seen) }
{
    match arg {
        GoalArg::Plain => None,
        GoalArg::Goal(_) => Some(Met::Fault(at)),
        GoalArg::Caret => Some(Met::Fault(at)),
        GoalArg::Grammar => match kind {
            ConstKind::Str => None,
            ConstKind::BackStr => None,
            ConstKind::Integer => Some(Met::Fault(at)),
            ConstKind::Float => Some(Met::Fault(at)),
        },
    }
}

/// Whether an atom is a call. `[]`, `{}` and `!` call nothing in a grammar body.
fn calls_atom(arg: GoalArg, name: &str) -> bool
    ensures { result ≡ calls_atom arg name.now }
{
    match arg {
        GoalArg::Plain => false,
        GoalArg::Goal(_) => true,
        GoalArg::Caret => true,
        GoalArg::Grammar => !is_one_of(&["[]", "{}", "!"], name),
    }
}

/// The goal at an atom in this role, at this byte offset.
fn atom_met<'a>(at: u32, owner: &'a str, role: Role, name: &'a str, number: u32) -> Option<Met<'a>>
    ensures met { option_map see_met result ≡ atom_met at owner.now role name.now }
    ensures meant { (seen : Seen) → IfSome result (IsMeant seen) }
{
    if !calls_atom(role.arg, name) {
        return None;
    }
    let more = added_count(role.arg);
    Some(Met::Call {
        at,
        module: owner,
        name,
        number,
        arity: more,
        added: more,
        negated: role.negated,
        meant: Meant::Unasked,
    })
}

/// How the term in curly brackets is a goal: in a grammar body.
fn curly_arg(arg: GoalArg) -> GoalArg
    ensures { result ≡ curly_arg arg }
{
    match arg {
        GoalArg::Plain => GoalArg::Plain,
        GoalArg::Goal(_) => GoalArg::Plain,
        GoalArg::Caret => GoalArg::Plain,
        GoalArg::Grammar => GoalArg::Goal(0),
    }
}

/// The role of the term in curly brackets.
fn curly_role(role: Role) -> Role
    ensures { result ≡ curly_role role }
{
    Role {
        arg: curly_arg(role.arg),
        negated: role.negated,
    }
}

/// How the argument at the index is a goal, by a row of the table.
fn role_in(row: Row, at: usize) -> GoalArg
    ensures { result ≡ row_role row at }
{
    match at {
        0 => row.first,
        1 => row.second,
        2 => row.third,
        _ => GoalArg::Plain,
    }
}

/// How the argument at the index is a goal.
fn arg_of(standing: Standing, at: usize) -> GoalArg
    ensures { result ≡ role_at (see_standing standing.entry) at }
{
    match standing {
        Standing::Silent => GoalArg::Plain,
        Standing::ByRow(row) => role_in(row, at),
        Standing::Declared(args) => match args.get(at) {
            Some(arg) => *arg,
            None => GoalArg::Plain,
        },
    }
}

/// The role of the argument at the index.
fn role_of(taken: &Taken, at: usize) -> Role
    ensures { result ≡ argument_role (see_taken taken.now) at }
{
    Role {
        arg: arg_of(taken.standing, at),
        negated: taken.negated,
    }
}

/// Whether none of the arguments is a goal.
fn is_silent(standing: Standing) -> bool
    ensures { result ≡ true → see_standing standing.entry ≡ no_goals }
{
    match standing {
        Standing::Silent => true,
        Standing::ByRow(_) => false,
        Standing::Declared(_) => false,
    }
}

/// The number of the name of an atom or a compound in the names of its text; 0 for another term.
fn name_number(term: &Term) -> u32 {
    match number_and_arity(term) {
        Some((number, _arity)) => number,
        None => 0,
    }
}

pub fn push_met<'a>(met: &mut Vec<Met<'a>>, one: Option<Met<'a>>) -> Result<(), AllocError>
    ensures mets { OnOk result (see_mets met.new.items ≡ see_mets met.old.items ++ option_to_list (option_map see_met one.entry)) }
    ensures kept { OnOk result (met.new.items ≡ met.old.items ++ option_to_list one.entry) }
{
    match one {
        None => Ok(()),
        Some(one) => {
            met.push(one)?;
            Ok(())
        }
    }
}

/// Adds the goals that occur within a term with this role in a body of the module `owner`.
///
/// A compound's name is looked up only if a predicate declares goals, and what it means is
/// recorded.
#[cycle(walking)]
pub fn walk<'a>(
    alloc: Global,
    program: &'a Program,
    term: &Term<'a>,
    owner: &'a str,
    role: Role,
    met: &mut Vec<Met<'a>>,
) -> Result<(), AllocError>
    requires { added role.arg + 10 * weight (tree_of term.now) ≤ 4294967295 }
    ensures met { OnOk result (AddsMet (rows_of program.now) (place owner.now role (tree_of term.now))
        (see_mets met.old.items) (see_mets met.new.items)) }
    ensures meant { OnOk result (AreMeant program.now met.old.items → AreMeant program.now met.new.items) }
{
    if let Some(call) = plain_call(program, term, owner, role) {
        return push_met(met, Some(call));
    }
    match term.kind() {
        TermKind::Var => Ok(()),
        TermKind::Const { kind, .. } => {
            push_met(met, constant_met(role.arg, kind, term.span().from))
        }
        TermKind::Atom { name } => {
            let number = name_number(term);
            push_met(met, atom_met(term.span().from, owner, role, name, number))
        }
        TermKind::Compound { name, args, .. } => {
            program.is_known();
            let number = name_number(term);
            let taken = take_apart(program, term.span().from, owner, role, name, number, &args);
            push_met(met, taken.met)?;
            walk_args(alloc, program, &args, &taken, met)
        }
        TermKind::List { .. } => Ok(()),
        TermKind::Tailed { .. } => Ok(()),
        TermKind::Curly { inner } => walk(alloc, program, &inner, owner, curly_role(role), met),
        TermKind::Paren { inner } => walk(alloc, program, &inner, owner, role, met),
    }
}

/// Adds the goals that occur within the arguments of a compound that was taken apart, from the first
/// argument to the last.
///
/// Where no argument is a goal none is read. One argument or two, as most goals have, are walked
/// without memory, and others need a list of them.
#[cycle(walking)]
fn walk_args<'a>(
    alloc: Global,
    program: &'a Program,
    args: &Parts<'a>,
    taken: &Taken<'a>,
    met: &mut Vec<Met<'a>>,
) -> Result<(), AllocError>
    requires { AreLightArguments (see_taken taken.now) (trees_in (trees_of args.now)) }
    ensures met { OnOk result (AddsArguments (rows_of program.now) (see_taken taken.now) (trees_in (trees_of args.now))
        (see_mets met.old.items) (see_mets met.new.items)) }
    ensures meant { OnOk result (AreMeant program.now met.old.items → AreMeant program.now met.new.items) }
{
    if is_silent(taken.standing) {
        return Ok(());
    }
    let first = role_of(taken, 0);
    if let Some(only) = args.only() {
        return walk(alloc, program, &only, taken.module, first, met);
    }
    if let Some((left, right)) = args.pair() {
        walk(alloc, program, &left, taken.module, first, met)?;
        let second = role_of(taken, 1);
        return walk(alloc, program, &right, taken.module, second, met);
    }
    let terms = args.to_vec(alloc)?;
    for (at, arg) in terms.iter().enumerate() {
        let own = role_of(taken, at);
        walk(alloc, program, arg, taken.module, own, met)?;
    }
    Ok(())
}
