//! Heads and goals that are known by their names.

ghost use Rattle.std.specs.Prelude.{◌≡◌, ◌≤◌, ℕ, List, Option, not, true, None, Some, codes, option_map, if◌then◌else◌, IfSome};
ghost use Rattle.prolog_names.specs.Names.{name_at};
ghost use Rattle.prolog_terms.specs.declared.term.Form.{Form as FormOf};
ghost use Rattle.prolog_terms.specs.declared.term.Span.{Span as SpanOf};
ghost use Rattle.prolog_terms.specs.Terms.{tree_of, trees_of, IsOf};
ghost use Rattle.prolog_terms.specs.Tree.{Tree, compound};
ghost use Rattle.prolog_terms.specs.Views.{Named, name_and_arity, pair_of, sides_of};
ghost use Rattle.kept_clauses.specs.BodyGoals.{AreGoals, AreLighter, HaveNames, IsFitCall, IsFitHead, IsPlainHeadOf, goal_by};
ghost use Rattle.kept_clauses.specs.Words.{is_reserved};
ghost use Rattle.kept_clauses.specs.Plain.{all_silent, atom_goal, body_goals, clause_named, compound_goal, control_names, fits, is_one_of, is_plain_name};
ghost use Rattle.kept_clauses.specs.Plain.{silent, PlainGoal};

use crate::kept_clause::KeptCall;
use crate::reserved::{is_reserved, reserved_law};
use prolog_names::{Names, known_law, names_law};
use prolog_terms::{Parts, Term, TermKind, inside, number_and_arity, numbered_binary, start_of};

/// The numbers of `,` `;` `|` and `->` in each table of names.
const CONTROLS: [u32; 4] = [1, 20, 2, 21];
/// The number of `:-`.
const NECK: u32 = 17;

/// Each offset of a text is at most this.
const LAST_OFFSET: u32 = 8_388_607;
/// How many arguments a head or a call has at most.
const MOST_ARGUMENTS: usize = 63;

/// Whether the term is a variable or a list, in any brackets.
fn is_silent(term: &Term) -> bool
    ensures { result ≡ silent (tree_of term.now) }
{
    match inside(term).kind() {
        TermKind::Var => true,
        TermKind::List { .. } => true,
        TermKind::Tailed { .. } => true,
        TermKind::Const { .. } => false,
        TermKind::Atom { .. } => false,
        TermKind::Compound { .. } => false,
        TermKind::Curly { .. } => false,
        TermKind::Paren { .. } => false,
    }
}

/// Whether all terms are variables or lists.
fn are_silent(args: &Parts) -> bool
    ensures { result ≡ all_silent (trees_of args.now) }
{
    let mut others = *args;
    while let Some((before, last)) = others.split_last() {
        if !is_silent(&last) {
            return false;
        }
        others = before;
    }
    true
}

/// Whether an offset and a number of arguments fit in a word.
fn fits(at: u32, arity: usize) -> bool
    ensures { result ≡ fits at arity }
{
    at <= LAST_OFFSET && arity <= MOST_ARGUMENTS
}

/// Whether the name of that number is free, and the offset and the number of arguments fit in a word.
fn is_plain_name(names: &Names, at: u32, number: u32, arity: usize) -> bool
    ensures is { result ≡ is_plain_name at (name_at names.now number) arity }
    ensures fit { result ≡ true → (at ≤ 8388607) × (arity ≤ 63) × (not (is_reserved number) ≡ true) }
{
    reserved_law(names);
    !is_reserved(number) && fits(at, arity)
}

/// Whether the name of that number is that of a control construct with two sides.
fn is_control(names: &Names, number: u32) -> bool
    ensures { result ≡ is_one_of control_names (name_at names.now number) }
{
    names_law(names);
    known_law(names);
    CONTROLS.contains(&number)
}

/// The number of the name of an atom or a compound; 0 for another term.
fn name_number(term: &Term) -> u32
    ensures { (named : Named) → name_and_arity (tree_of term.now) ≡ Some named → name_at term.now.names.now result ≡ named.name }
{
    match number_and_arity(term) {
        Some((number, _arity)) => number,
        None => 0,
    }
}

/// What a body is made of.
#[derive(Clone, Copy)]
pub enum BodyGoals<'a> {
    /// No goal.
    Nothing,
    /// The goals of one term.
    Of(Term<'a>),
    /// The goals of two terms, one after another.
    OfBoth(Term<'a>, Term<'a>),
    /// One call.
    Call(KeptCall),
    /// One goal that may call more.
    Whole,
}

/// The call that an atom is as a goal, whose name has that number.
fn atom_call(at: u32, number: u32) -> Option<KeptCall>
    ensures goal { (names : List (List ℕ)) (tree : Tree) → goal_by names tree result ≡ atom_goal at (name_at names number) tree }
    ensures fit { IfSome result IsFitCall }
{
    if !fits(at, 0) {
        return None;
    }
    let arity = 0;
    Some(KeptCall { at, number, arity })
}

/// The call that a compound is that is no control construct, if it is known by its name.
fn compound_call(names: &Names, at: u32, number: u32, args: &Parts) -> Option<KeptCall>
    ensures goal { (tree : Tree) → goal_by names.now tree result ≡ compound_goal at (name_at names.now number) (trees_of args.now) tree }
    ensures fit { IfSome result IsFitCall }
{
    if !is_plain_name(names, at, number, args.len()) {
        return None;
    }
    if !are_silent(args) {
        return None;
    }
    let arity = args.len() as u32;
    Some(KeptCall { at, number, arity })
}

/// The two sides of a control construct with this name and these arguments.
fn control_sides<'a>(names: &Names, number: u32, args: &Parts<'a>) -> Option<(Term<'a>, Term<'a>)>
    ensures sides { option_map (λ pair. (tree_of pair.0, tree_of pair.1)) result
        ≡ (if is_one_of control_names (name_at names.now number) then pair_of (trees_of args.now) else None) }
    ensures within { IfSome result (λ pair. IsOf args.now.names.now args.now.nodes.now pair.0 × IsOf args.now.names.now args.now.nodes.now pair.1) }
{
    if !is_control(names, number) {
        return None;
    }
    args.pair()
}

/// What a compound is made of as a body.
fn compound_goals<'a>(names: &Names, at: u32, number: u32, args: &Parts<'a>) -> BodyGoals<'a>
    ensures goals { (form : FormOf) (span : SpanOf) → span.from ≡ at
        → AreGoals names.now (compound (name_at names.now number) (trees_of args.now) form span)
        (body_goals (compound (name_at names.now number) (trees_of args.now) form span)) result }
    ensures names { HaveNames args.now.names.now result }
    ensures lighter { (name : List ℕ) (form : FormOf) (span : SpanOf) → AreLighter (compound name (trees_of args.now) form span) result }
{
    if let Some((left, right)) = control_sides(names, number, args) {
        return BodyGoals::OfBoth(left, right);
    }
    let Some(call) = compound_call(names, at, number, args) else {
        return BodyGoals::Whole;
    };
    BodyGoals::Call(call)
}

/// What a body is made of.
pub fn goals_of<'a>(body: &Term<'a>) -> BodyGoals<'a>
    ensures goals { AreGoals body.now.names.now (tree_of body.now) (body_goals (tree_of body.now)) result }
    ensures names { HaveNames body.now.names.now result }
    ensures lighter { AreLighter (tree_of body.now) result }
{
    let (kind, span) = body.kind_at();
    match kind {
        TermKind::Var => BodyGoals::Nothing,
        TermKind::Const { .. } => BodyGoals::Whole,
        TermKind::Atom { .. } => match atom_call(span.from, name_number(body)) {
            Some(call) => BodyGoals::Call(call),
            None => BodyGoals::Whole,
        },
        TermKind::Compound { args, .. } => {
            compound_goals(body.names, span.from, name_number(body), &args)
        }
        TermKind::List { .. } => BodyGoals::Nothing,
        TermKind::Tailed { .. } => BodyGoals::Nothing,
        TermKind::Curly { .. } => BodyGoals::Nothing,
        TermKind::Paren { inner } => BodyGoals::Of(inner),
    }
}

/// The two sides of a rule.
fn rule_sides<'a>(clause: &Term<'a>) -> Option<(Term<'a>, Term<'a>)>
    ensures sides { option_map (λ pair. (tree_of pair.0, tree_of pair.1)) result ≡ sides_of (codes ":-") (tree_of clause.now) }
    ensures within { IfSome result (λ pair. IsOf clause.now.names.now clause.now.nodes.now pair.0 × IsOf clause.now.names.now clause.now.nodes.now pair.1) }
{
    names_law(clause.names);
    known_law(clause.names);
    let (number, left, right) = numbered_binary(clause)?;
    if number != NECK {
        return None;
    }
    Some((left, right))
}

/// The head of a clause that starts at that offset, if its name is free and it fits in a word.
fn plain_name(head: &Term, at: u32) -> Option<KeptCall>
    ensures named { (span : SpanOf) (body : Option (List PlainGoal)) → span.from ≡ at
        → option_map (λ one. record { span = span; name = name_at head.now.names.now one.number; arity = one.arity; body = body }) result
        ≡ clause_named span body (name_and_arity (tree_of head.now)) }
    ensures fit { IfSome result IsFitHead }
    ensures at { IfSome result (λ one. one.at ≡ at) }
{
    let (number, arity) = number_and_arity(head)?;
    if !is_plain_name(head.names, at, number, arity) {
        return None;
    }
    let arity = arity as u32;
    Some(KeptCall { at, number, arity })
}

/// What the plain form of a clause begins with: its head, and the body that the goals are of if it
/// is a rule.
#[derive(Clone, Copy)]
pub struct PlainHead<'a> {
    pub call: KeptCall,
    pub body: Option<Term<'a>>,
}

/// What the plain form of a clause begins with, if it has one.
pub fn plain_head<'a>(clause: &Term<'a>) -> Option<PlainHead<'a>>
    ensures { IsPlainHeadOf clause.now.names.now (tree_of clause.now) result }
{
    let at = start_of(clause);
    let Some((head, body)) = rule_sides(clause) else {
        let call = plain_name(clause, at)?;
        let body = None;
        return Some(PlainHead { call, body });
    };
    let call = plain_name(&head, at)?;
    let body = Some(body);
    Some(PlainHead { call, body })
}
