//! Goals whose names are known by their numbers.

ghost use Rattle.std.specs.Prelude.{◌≡◌, ◌≢◌, ◌<◌, ◌≤◌, ◌+◌, ◌*◌, [], ℕ, List, true, length, IfSome};
ghost use Rattle.prolog_names.specs.Names.{name_at};
ghost use Rattle.prolog_terms.specs.Terms.{tree_of, trees_of, IsOf};
ghost use Rattle.prolog_terms.specs.Tree.{count};
ghost use Rattle.prolog_terms.specs.Weight.{weight};
ghost use Rattle.module_table.specs.declared.goal_arg.GoalArg.TheVariants.{Plain};
ghost use Rattle.module_table.specs.Metas.{added};
ghost use Rattle.import_rules.specs.Program.{meta_of_found};
ghost use Rattle.call_edges.specs.declared.role.Way.TheVariants.{Control};
ghost use Rattle.call_edges.specs.Goals.{goal_way, settled, way};
ghost use Rattle.call_edges.specs.Meant.{IsMeaning, IsMeant};
ghost use Rattle.call_edges.specs.PlainCalls.{AreSides, IsMetAlone, IsPlain};
ghost use Rattle.call_edges.specs.Seen.{see_met};

use crate::role::{Meant, Met, Role};
use crate::take_apart::{added_count, meaning_of};
use import_rules::{Home, Program, found_means};
use module_table::GoalArg;
use prolog_names::{BAR, COMMA, KNOWN_COUNT, Names, known_law};
use prolog_terms::{Parts, Term, number_and_args, numbered_binary, start_of};

/// The number of `;` in each table of names.
const SEMICOLON: u32 = 20;
/// The number of `->` in each table of names.
const ARROW: u32 = 21;

/// Whether a term is a goal at all.
fn is_goal(arg: GoalArg) -> bool
    ensures { result ≡ true → arg ≢ Plain }
{
    match arg {
        GoalArg::Plain => false,
        GoalArg::Goal(_) => true,
        GoalArg::Caret => true,
        GoalArg::Grammar => true,
    }
}

/// Whether no arguments are declared.
fn is_undeclared(declared: &[GoalArg]) -> bool
    ensures { result ≡ true → declared.now ≡ [] }
{
    declared.is_empty()
}

/// How many arguments such a goal with these has.
fn arity_of(args: &Parts, arg: GoalArg) -> u32
    requires { count (trees_of args.now) + added arg ≤ 4294967295 }
    ensures { result ≡ count (trees_of args.now) + added arg }
{
    args.len() as u32 + added_count(arg)
}

/// The number of the name of a goal and its arity, if the name isn't among the known ones. So it is
/// no control construct, and the table doesn't have it. No text is compared.
fn free_goal(term: &Term, role: Role) -> Option<(u32, u32)>
    requires { added role.arg + 10 * weight (tree_of term.now) ≤ 4294967295 }
    ensures { IfSome result (λ goal. IsPlain role (tree_of term.now) (name_at term.now.names.now goal.0) goal.1) }
{
    known_law(term.names);
    if !is_goal(role.arg) {
        return None;
    }
    let (number, args) = number_and_args(term)?;
    if number < KNOWN_COUNT {
        return None;
    }
    Some((number, arity_of(&args, role.arg)))
}

/// The call that a term with this role is in a body of the module `owner`, if its name isn't among
/// the known ones, and the predicate that it means declares no goals.
pub fn plain_call<'a>(
    program: &'a Program,
    term: &Term<'a>,
    owner: &'a str,
    role: Role,
) -> Option<Met<'a>>
    requires { added role.arg + 10 * weight (tree_of term.now) ≤ 4294967295 }
    ensures met { IfSome result (λ met. IsMetAlone program.now owner.now role (tree_of term.now) (see_met met)) }
    ensures meant { IfSome result (IsMeant program.now) }
{
    let (number, arity) = free_goal(term, role)?;
    let name = term.names.text(number);
    let meaning = meaning_of(program, owner, name, arity);
    if !is_undeclared(meaning.declared) {
        return None;
    }
    Some(Met::Call {
        at: start_of(term),
        module: owner,
        name,
        number,
        arity,
        added: added_count(role.arg),
        negated: role.negated,
        meant: meaning.meant,
    })
}

/// How the predicate of that number declares its arguments. Empty if it doesn't, or if there is
/// none.
fn declared_by(program: &Program, callee: Option<u32>) -> &[GoalArg]
    requires { IfSome callee (λ node. node < length program.now.predicates) }
    ensures { result.now ≡ meta_of_found program.now callee }
{
    match callee {
        Some(node) => program.meta_of(node),
        None => &[],
    }
}

/// What a name means, by what was found.
pub fn meaning_found(callee: Option<u32>) -> Meant
    ensures { IsMeaning callee result }
{
    match callee {
        Some(node) => Meant::Predicate(node),
        None => Meant::Nothing,
    }
}

/// The call that a term with this role is in a body of the file's own module, if its name isn't
/// among the known ones, and the predicate that it means declares no goals.
pub fn home_call<'a>(home: &Home<'a>, term: &Term<'a>, role: Role) -> Option<Met<'a>>
    requires small { added role.arg + 10 * weight (tree_of term.now) ≤ 4294967295 }
    requires names { term.now.names.now ≡ home.now.facts.now.names }
    ensures met { IfSome result (λ met. IsMetAlone home.now.program.now home.now.facts.now.module role (tree_of term.now) (see_met met)) }
    ensures meant { IfSome result (IsMeant home.now.program.now) }
{
    found_means();
    let (number, arity) = free_goal(term, role)?;
    let callee = home.find(number, arity);
    if !is_undeclared(declared_by(home.program, callee)) {
        return None;
    }
    Some(Met::Call {
        at: start_of(term),
        module: home.facts.module.as_str(),
        name: term.names.text(number),
        number,
        arity,
        added: added_count(role.arg),
        negated: role.negated,
        meant: meaning_found(callee),
    })
}

/// Whether control constructs are such goals, and their sides are such goals too.
fn has_controls(arg: GoalArg) -> bool
    ensures way { result ≡ true → (name : List ℕ) (count : ℕ) → way arg name count ≡ goal_way true name count }
    ensures settled { result ≡ true → settled arg ≡ arg }
{
    match arg {
        GoalArg::Plain => false,
        GoalArg::Goal(more) => more == 0,
        GoalArg::Caret => false,
        GoalArg::Grammar => true,
    }
}

/// Whether the name of that number is that of a control construct with two sides.
fn is_control(names: &Names, number: u32) -> bool
    ensures { result ≡ true → goal_way true (name_at names.now number) 2 ≡ Control }
{
    known_law(names);
    match number {
        COMMA => true,
        BAR => true,
        SEMICOLON => true,
        ARROW => true,
        _ => false,
    }
}

/// The two sides of a term that is a control construct in this role.
pub fn control_sides<'a>(term: &Term<'a>, role: Role) -> Option<(Term<'a>, Term<'a>)>
    ensures sides { IfSome result (λ pair. AreSides role (tree_of term.now) (tree_of pair.0) (tree_of pair.1)) }
    ensures within { IfSome result (λ pair. IsOf term.now.names.now term.now.nodes.now pair.0 × IsOf term.now.names.now term.now.nodes.now pair.1) }
{
    if !has_controls(role.arg) {
        return None;
    }
    let (number, left, right) = numbered_binary(term)?;
    if !is_control(term.names, number) {
        return None;
    }
    Some((left, right))
}
