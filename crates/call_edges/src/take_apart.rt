//! What a compound is as a part of a body.

ghost use Rattle.std.specs.Prelude.{◌≡◌, ◌≤◌, ◌+◌, IfSome};
ghost use Rattle.prolog_terms.specs.Tree.{count};
ghost use Rattle.prolog_terms.specs.Terms.{tree_of, trees_of};
ghost use Rattle.prolog_terms.specs.Views.{trees_in};
ghost use Rattle.module_table.specs.Metas.{added};
ghost use Rattle.call_edges.specs.Goals.{is_control, is_negation, goal_way, way, settled, is_variable, goal_of, qualified_taken, row, taken, unmet};
ghost use Rattle.call_edges.specs.Meant.{IsMeaning, IsMeant};
ghost use Rattle.call_edges.specs.ProgramRows.{rows_of, standing_by};
ghost use Rattle.import_rules.specs.Program.{Seen, found, meta_meant};
ghost use Rattle.call_edges.specs.Seen.{see_standing, see_taken};

use crate::role::{Meaning, Meant, Met, Role, Standing, Taken, Way};
use crate::table::{first_only, first_two, is_one_of, row_of, second_only};
use import_rules::Program;
use module_table::GoalArg;
use prolog_terms::{Parts, Term, TermKind, atom_name, inside, start_of};

/// How many arguments are added to those that are written.
pub fn added_count(arg: GoalArg) -> u32
    ensures { result ≡ added arg }
{
    match arg {
        GoalArg::Plain => 0,
        GoalArg::Goal(more) => more,
        GoalArg::Caret => 0,
        GoalArg::Grammar => 2,
    }
}

/// How a term is a goal once the `V^`s before the goal are skipped.
fn settle(arg: GoalArg) -> GoalArg
    ensures { result ≡ settled arg }
{
    match arg {
        GoalArg::Plain => GoalArg::Plain,
        GoalArg::Goal(more) => GoalArg::Goal(more),
        GoalArg::Caret => GoalArg::Goal(0),
        GoalArg::Grammar => GoalArg::Grammar,
    }
}

fn is_control(name: &str, count: usize) -> bool
    ensures { result ≡ is_control name.now count }
{
    count == 2 && is_one_of(&[",", ";", "|", "->"], name)
}

fn is_negation(name: &str, count: usize) -> bool
    ensures { result ≡ is_negation name.now count }
{
    count == 1 && name == "\\+"
}

fn goal_way(controls: bool, name: &str, count: usize) -> Way
    ensures { result ≡ goal_way controls name.now count }
{
    if controls && is_control(name, count) {
        return Way::Control;
    }
    if controls && is_negation(name, count) {
        return Way::Negation;
    }
    if count == 2 && name == ":" {
        return Way::Qualified;
    }
    Way::Calling
}

/// What a compound of this name with `count` arguments is, if it is such a goal.
fn way_of(arg: GoalArg, name: &str, count: usize) -> Way
    ensures { result ≡ way arg name.now count }
{
    match arg {
        GoalArg::Plain => Way::Silent,
        GoalArg::Goal(more) => goal_way(more == 0, name, count),
        GoalArg::Caret => {
            if count == 2 && name == "^" {
                return Way::Behind;
            }
            goal_way(true, name, count)
        }
        GoalArg::Grammar => goal_way(true, name, count),
    }
}

fn is_variable(term: &Term) -> bool
    ensures { result ≡ is_variable (tree_of term.now) }
{
    match inside(term).kind() {
        TermKind::Var => true,
        _ => false,
    }
}

/// A compound that is no goal itself.
fn unmet<'a>(module: &'a str, standing: Standing<'a>, negated: bool) -> Taken<'a>
    ensures taken { see_taken result ≡ unmet «module».now (see_standing standing.entry) negated }
    ensures meant { (seen : Seen) → IfSome result.met (IsMeant seen) }
{
    Taken {
        met: None,
        module,
        standing,
        negated,
    }
}

/// `M:G`, by the term for the module `M`.
fn goal_of<'a>(owner: &'a str, role: Role, module: &Term<'a>) -> Taken<'a>
    ensures taken { see_taken result ≡ goal_of owner.now role (tree_of «module».now) }
    ensures meant { (seen : Seen) → IfSome result.met (IsMeant seen) }
{
    if let Some(name) = atom_name(module) {
        let standing = Standing::ByRow(second_only(settle(role.arg)));
        return unmet(name, standing, role.negated);
    }
    if is_variable(module) {
        return unmet(owner, Standing::Silent, role.negated);
    }
    Taken {
        met: Some(Met::Fault(start_of(module))),
        module: owner,
        standing: Standing::Silent,
        negated: role.negated,
    }
}

fn take_qualified<'a>(owner: &'a str, role: Role, args: &Parts<'a>) -> Taken<'a>
    requires { count (trees_of args.now) ≡ 2 }
    ensures taken { see_taken result ≡ qualified_taken owner.now role (trees_in (trees_of args.now)) }
    ensures meant { (seen : Seen) → IfSome result.met (IsMeant seen) }
{
    match args.pair() {
        Some((module, _goal)) => goal_of(owner, role, &module),
        None => unmet(owner, Standing::Silent, role.negated),
    }
}

/// What a name means in a module, and what that predicate declares. The name is looked up only if a
/// predicate declares something.
pub fn meaning_of<'a>(
    program: &'a Program,
    owner: &'a str,
    name: &'a str,
    arity: u32,
) -> Meaning<'a>
    ensures meant { IsMeaning (found program.now owner.now name.now arity) result.meant }
    ensures declared { result.declared.now ≡ meta_meant program.now owner.now name.now arity }
{
    if program.declares_nothing() {
        return Meaning {
            meant: Meant::Unasked,
            declared: &[],
        };
    }
    match program.find(owner, name, arity) {
        Some(node) => Meaning {
            meant: Meant::Predicate(node),
            declared: program.meta_of(node),
        },
        None => Meaning {
            meant: Meant::Nothing,
            declared: &[],
        },
    }
}

/// How the arguments of a goal are goals: as the predicate that it calls declares, or otherwise by
/// the table.
fn standing_by<'a>(declared: &'a [GoalArg], name: &str, arity: u32) -> Standing<'a>
    ensures { see_standing result ≡ standing_by (row name.now arity) declared.now }
{
    if !declared.is_empty() {
        return Standing::Declared(declared);
    }
    match row_of(name, arity) {
        Some(row) => Standing::ByRow(row),
        None => Standing::Silent,
    }
}

/// The goal at a compound that starts at this byte offset, and how its arguments are goals. The
/// compound has this role in a body of the module `owner`. `number` is that of its name in the
/// names of its text.
pub fn take_apart<'a>(
    program: &'a Program,
    at: u32,
    owner: &'a str,
    role: Role,
    name: &'a str,
    number: u32,
    args: &Parts<'a>,
) -> Taken<'a>
    requires { count (trees_of args.now) + added role.arg ≤ 4294967295 }
    ensures taken { see_taken result ≡ taken (rows_of program.now) at owner.now role name.now (trees_in (trees_of args.now)) }
    ensures meant { IfSome result.met (IsMeant program.now) }
{
    let negated = role.negated;
    match way_of(role.arg, name, args.len()) {
        Way::Silent => unmet(owner, Standing::Silent, negated),
        Way::Behind => unmet(owner, Standing::ByRow(second_only(GoalArg::Caret)), negated),
        Way::Control => unmet(owner, Standing::ByRow(first_two(settle(role.arg))), negated),
        Way::Negation => unmet(owner, Standing::ByRow(first_only(settle(role.arg))), true),
        Way::Qualified => take_qualified(owner, role, args),
        Way::Calling => {
            let more = added_count(role.arg);
            let arity = args.len() as u32 + more;
            let meaning = meaning_of(program, owner, name, arity);
            Taken {
                met: Some(Met::Call {
                    at,
                    module: owner,
                    name,
                    number,
                    arity,
                    added: more,
                    negated,
                    meant: meaning.meant,
                }),
                module: owner,
                standing: standing_by(meaning.declared, name, arity),
                negated,
            }
        }
    }
}
