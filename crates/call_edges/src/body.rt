//! The bodies of a program: those of clauses, and the goals of directives.

ghost use Rattle.std.specs.Prelude.{◌≡◌, ◌<◌, ◌++◌, ℕ, List, true, All, map, length, option_map, IfOk, IfSome, OnOk};
ghost use Rattle.prolog_terms.specs.Terms.{tree_of};
ghost use Rattle.kept_clauses.specs.Plain.{is_free, written};
ghost use Rattle.kept_clauses.specs.Views.{see_form};
ghost use Rattle.clause_text.specs.Clauses.{clause_tree, clause_trees};
ghost use Rattle.module_table.specs.Facts.{goal_trees, see_facts};
ghost use Rattle.import_rules.specs.Program.{Seen};
ghost use Rattle.call_edges.specs.Calls.{body_of};
ghost use Rattle.call_edges.specs.Bodies.{IsAtHome, IsHomeOf, content_at, names_in, see_body, clause_bodies, bodies_in, goal_body, goals_of_file, goals_in};

use crate::role::{GOAL_ROLE, GRAMMAR_ROLE, Role};
use clause_text::Clause;
use import_rules::{Home, Program};
use kept_clauses::{KeptClause, KeptGoals, PlainForm};
use module_table::{DirectiveGoals, FileFacts};
use prolog_names::Names;
use prolog_terms::{Term, binary};
use std::alloc::{AllocError, Global};

/// What a body is made of: a term with its role, or the goals of a rule that is kept by its plain
/// form.
#[derive(Clone, Copy)]
pub enum Content<'a> {
    Term { role: Role, term: Term<'a> },
    Goals(KeptGoals<'a>),
}

/// A body in a module: its file, the index of that among the files, the module, and what it is made
/// of.
#[derive(Clone, Copy)]
pub struct Body<'a> {
    pub home: Home<'a>,
    pub file: u32,
    pub owner: &'a str,
    pub content: Content<'a>,
}

/// What the body of a clause is made of: of a rule a goal, and of a grammar rule a grammar body
/// (ISO/IEC 13211-1, 7.4.3).
fn term_content<'a>(clause: &Term<'a>) -> Option<Content<'a>>
    ensures body { (owner : List ℕ) → option_map (content_at owner) result ≡ body_of owner (tree_of clause.now) }
    ensures names { IfSome result (λ content. names_in content ≡ clause.now.names.now) }
{
    let pair = binary(clause)?;
    let term = pair.right;
    if pair.name == ":-" {
        return Some(Content::Term {
            role: GOAL_ROLE,
            term,
        });
    }
    if pair.name == "-->" {
        return Some(Content::Term {
            role: GRAMMAR_ROLE,
            term,
        });
    }
    None
}

/// The goals of a plain form, if it is a rule.
fn form_content<'a>(form: &PlainForm<'a>) -> Option<Content<'a>>
    requires { is_free (see_form form.now).name ≡ true }
    ensures body { (owner : List ℕ) → option_map (content_at owner) result ≡ body_of owner (written (see_form form.now)) }
    ensures names { IfSome result (λ content. names_in content ≡ form.now.goals.names.now) }
{
    if !form.is_rule {
        return None;
    }
    Some(Content::Goals(form.goals))
}

/// What the body of a clause is made of, with the names of its text.
fn content_of<'a>(names: &'a Names, clause: &'a Clause) -> Option<Content<'a>>
    ensures body { (owner : List ℕ) → option_map (content_at owner) result ≡ body_of owner (clause_tree names.now clause.now) }
    ensures names { IfSome result (λ content. names_in content ≡ names.now) }
{
    match clause.kept(names) {
        KeptClause::Whole(term) => term_content(&term),
        KeptClause::Plain(form) => form_content(&form),
    }
}

/// Adds the bodies of clauses of a module, whose names are numbers in `names`.
fn push_bodies<'a>(
    home: Home<'a>,
    file: u32,
    owner: &'a str,
    names: &'a Names,
    clauses: &'a [Clause],
    bodies: &mut Vec<Body<'a>>,
) -> Result<(), AllocError>
    ensures bodies { OnOk result (map see_body bodies.new.items
        ≡ map see_body bodies.old.items ++ clause_bodies file owner.now (clause_trees names.now clauses.now)) }
    ensures home { OnOk result ((seen : Seen) → IsHomeOf seen owner.now names.now home.entry
        → All (IsAtHome seen) bodies.old.items → All (IsAtHome seen) bodies.new.items) }
{
    for clause in clauses {
        let Some(content) = content_of(names, clause) else {
            continue;
        };
        bodies.push(Body {
            home,
            file,
            owner,
            content,
        })?;
    }
    Ok(())
}

/// Adds the bodies of the clauses of a predicate.
pub fn push_bodies_of<'a>(
    program: &'a Program,
    node: u32,
    bodies: &mut Vec<Body<'a>>,
) -> Result<(), AllocError>
    requires { node < length program.now.predicates }
    ensures bodies { OnOk result (map see_body bodies.new.items ≡ map see_body bodies.old.items ++ bodies_in program.now node) }
    ensures home { OnOk result (All (IsAtHome program.now) bodies.old.items → All (IsAtHome program.now) bodies.new.items) }
{
    for place in program.places_of(node) {
        let home = Home::of(program, place.0);
        let file = home.facts;
        let predicate = &file.defined[place.1 as usize];
        push_bodies(
            home,
            place.0,
            file.module.as_str(),
            &file.names,
            predicate.clauses.as_slice(),
            bodies,
        )?;
    }
    Ok(())
}

/// The bodies of the clauses of a predicate.
pub fn bodies_of<'a>(
    alloc: Global,
    program: &'a Program,
    node: u32,
) -> Result<Vec<Body<'a>>, AllocError>
    requires { node < length program.now.predicates }
    ensures { IfOk result (λ bodies. map see_body bodies.items ≡ bodies_in program.now node) }
{
    let mut bodies = Vec::new(alloc);
    push_bodies_of(program, node, &mut bodies)?;
    Ok(bodies)
}

/// Adds the goals of a directive of a file.
fn push_goals_in<'a>(
    home: Home<'a>,
    place: u32,
    file: &'a FileFacts,
    goals: &'a DirectiveGoals,
    bodies: &mut Vec<Body<'a>>,
) -> Result<(), AllocError>
    ensures { OnOk result (map see_body bodies.new.items
        ≡ map see_body bodies.old.items ++ map (goal_body place file.now.module) (goal_trees file.now.names goals.now)) }
{
    for end in &goals.ends {
        bodies.push(Body {
            home,
            file: place,
            owner: file.module.as_str(),
            content: Content::Term {
                role: GOAL_ROLE,
                term: Term {
                    names: &file.names,
                    nodes: goals.list.nodes(),
                    end: *end,
                },
            },
        })?;
    }
    Ok(())
}

/// Adds the goals of the directives of a file.
fn push_goals<'a>(
    home: Home<'a>,
    place: u32,
    file: &'a FileFacts,
    bodies: &mut Vec<Body<'a>>,
) -> Result<(), AllocError>
    ensures { OnOk result (map see_body bodies.new.items ≡ map see_body bodies.old.items ++ goals_of_file (place, see_facts file.now)) }
{
    for goals in &file.goals {
        push_goals_in(home, place, file, goals, bodies)?;
    }
    Ok(())
}

/// The goals of all directives, file by file, in the order of the text.
pub fn goals_of<'a>(alloc: Global, program: &'a Program) -> Result<Vec<Body<'a>>, AllocError>
    ensures { IfOk result (λ bodies. map see_body bodies.items ≡ goals_in program.now.loaded.files) }
{
    program.is_known();
    let mut bodies = Vec::new(alloc);
    for (at, file) in program.loaded().files.iter().enumerate() {
        let place = at as u32;
        push_goals(Home::of(program, place), place, file, &mut bodies)?;
    }
    Ok(bodies)
}
