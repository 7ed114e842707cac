//! Walking a body, which is a term or the goals of a plain form.

ghost use Rattle.std.specs.Prelude.{◌≡◌, ◌≤◌, ◌*◌, OnOk};
ghost use Rattle.prolog_terms.specs.Weight.{weight};
ghost use Rattle.kept_clauses.specs.Plain.{body_tree, goal_tree};
ghost use Rattle.kept_clauses.specs.Views.{see_goal, see_goals, HasNames};
ghost use Rattle.call_edges.specs.Bodies.{see_body, IsAtHome, IsLight};
ghost use Rattle.call_edges.specs.Goals.{goal_role, place, Adds, AddsMet};
ghost use Rattle.call_edges.specs.KeptGoals.{IsMetInGoal};
ghost use Rattle.call_edges.specs.Meant.{AreMeant};
ghost use Rattle.call_edges.specs.ProgramRows.{rows_of};
ghost use Rattle.call_edges.specs.Seen.{see_mets};

use crate::body::{Body, Content};
use crate::by_number::meaning_found;
use crate::role::{GOAL_ROLE, Meant, Met};
use crate::walk::{push_met, walk};
use crate::walk_home::walk_home;
use import_rules::{Home, Program, found_means};
use kept_clauses::{KeptGoal, KeptGoals};
use prolog_names::Names;
use std::alloc::{AllocError, Global};

/// Adds the goals that occur in a goal of a body of the module `owner`.
fn walk_goal<'a>(
    alloc: Global,
    program: &'a Program,
    owner: &'a str,
    names: &'a Names,
    goal: &KeptGoal<'a>,
    met: &mut Vec<Met<'a>>,
) -> Result<(), AllocError>
    requires small { 10 * weight (goal_tree (see_goal names.now goal.now)) ≤ 4294967295 }
    ensures met { OnOk result (Adds (IsMetInGoal (rows_of program.now) owner.now (see_goal names.now goal.now))
        (see_mets met.old.items) (see_mets met.new.items)) }
    ensures meant { OnOk result (AreMeant program.now met.old.items → AreMeant program.now met.new.items) }
{
    match goal {
        KeptGoal::Whole(term) => walk(alloc, program, term, owner, GOAL_ROLE, met),
        KeptGoal::Call(call) => {
            let call = Met::Call {
                at: call.at,
                module: owner,
                name: names.text(call.number),
                number: call.number,
                arity: call.arity,
                added: 0,
                negated: false,
                meant: Meant::Unasked,
            };
            push_met(met, Some(call))
        }
    }
}

/// Adds the goals that occur in goals of a body of the module `owner`.
fn walk_goals<'a>(
    alloc: Global,
    program: &'a Program,
    owner: &'a str,
    goals: &KeptGoals<'a>,
    met: &mut Vec<Met<'a>>,
) -> Result<(), AllocError>
    requires small { 10 * weight (body_tree (see_goals goals.now)) ≤ 4294967295 }
    ensures met { OnOk result (AddsMet (rows_of program.now) (place owner.now goal_role (body_tree (see_goals goals.now)))
        (see_mets met.old.items) (see_mets met.new.items)) }
    ensures meant { OnOk result (AreMeant program.now met.old.items → AreMeant program.now met.new.items) }
{
    let mut left = *goals;
    while let Some((goal, others)) = left.split_first() {
        walk_goal(alloc, program, owner, left.names, &goal, met)?;
        left = others;
    }
    Ok(())
}

/// Adds the goals that occur in a body.
pub fn walk_body<'a>(
    alloc: Global,
    program: &'a Program,
    body: &Body<'a>,
    met: &mut Vec<Met<'a>>,
) -> Result<(), AllocError>
    requires { IsLight (see_body body.now) }
    ensures met { OnOk result (AddsMet (rows_of program.now) (see_body body.now).at (see_mets met.old.items) (see_mets met.new.items)) }
    ensures meant { OnOk result (AreMeant program.now met.old.items → AreMeant program.now met.new.items) }
{
    match &body.content {
        Content::Term { role, term } => walk(alloc, program, term, body.owner, *role, met),
        Content::Goals(goals) => walk_goals(alloc, program, body.owner, goals, met),
    }
}

/// Adds the goals that occur in a goal of a body of the file's own module. What a call means is
/// found by the number of its name.
fn walk_goal_home<'a>(
    alloc: Global,
    home: &Home<'a>,
    names: &'a Names,
    goal: &KeptGoal<'a>,
    met: &mut Vec<Met<'a>>,
) -> Result<(), AllocError>
    requires small { 10 * weight (goal_tree (see_goal names.now goal.now)) ≤ 4294967295 }
    requires names { names.now ≡ home.now.facts.now.names }
    requires within { HasNames names.now goal.now }
    ensures met { OnOk result (Adds (IsMetInGoal (rows_of home.now.program.now) home.now.facts.now.module (see_goal names.now goal.now))
        (see_mets met.old.items) (see_mets met.new.items)) }
    ensures meant { OnOk result (AreMeant home.now.program.now met.old.items → AreMeant home.now.program.now met.new.items) }
{
    match goal {
        KeptGoal::Whole(term) => walk_home(alloc, home, term, GOAL_ROLE, met),
        KeptGoal::Call(call) => {
            found_means();
            let callee = home.find(call.number, call.arity);
            let call = Met::Call {
                at: call.at,
                module: home.facts.module.as_str(),
                name: names.text(call.number),
                number: call.number,
                arity: call.arity,
                added: 0,
                negated: false,
                meant: meaning_found(callee),
            };
            push_met(met, Some(call))
        }
    }
}

/// Adds the goals that occur in goals of a body of the file's own module.
fn walk_goals_home<'a>(
    alloc: Global,
    home: &Home<'a>,
    goals: &KeptGoals<'a>,
    met: &mut Vec<Met<'a>>,
) -> Result<(), AllocError>
    requires small { 10 * weight (body_tree (see_goals goals.now)) ≤ 4294967295 }
    requires names { goals.now.names.now ≡ home.now.facts.now.names }
    ensures met { OnOk result (AddsMet (rows_of home.now.program.now) (place home.now.facts.now.module goal_role (body_tree (see_goals goals.now)))
        (see_mets met.old.items) (see_mets met.new.items)) }
    ensures meant { OnOk result (AreMeant home.now.program.now met.old.items → AreMeant home.now.program.now met.new.items) }
{
    let mut left = *goals;
    while let Some((goal, others)) = left.split_first() {
        walk_goal_home(alloc, home, left.names, &goal, met)?;
        left = others;
    }
    Ok(())
}

/// Adds the goals that occur in a body of the file's own module.
pub fn walk_body_home<'a>(
    alloc: Global,
    body: &Body<'a>,
    met: &mut Vec<Met<'a>>,
) -> Result<(), AllocError>
    requires light { IsLight (see_body body.now) }
    requires home { IsAtHome body.now.home.program.now body.now }
    ensures met { OnOk result (AddsMet (rows_of body.now.home.program.now) (see_body body.now).at
        (see_mets met.old.items) (see_mets met.new.items)) }
    ensures meant { OnOk result (AreMeant body.now.home.program.now met.old.items → AreMeant body.now.home.program.now met.new.items) }
{
    match &body.content {
        Content::Term { role, term } => walk_home(alloc, &body.home, term, *role, met),
        Content::Goals(goals) => walk_goals_home(alloc, &body.home, goals, met),
    }
}
