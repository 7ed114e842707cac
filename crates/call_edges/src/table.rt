//! The predicates that take goals, by their names and arities.

ghost use Rattle.std.specs.Prelude.{◌≡◌};
ghost use Rattle.std.specs.List.{list_any};
ghost use Rattle.std.specs.Str.{bytes_eq};
ghost use Rattle.call_edges.specs.Goals.{first_only, second_only, first_two, first_and_third, adding_row, one_row, two_row, three_row, four_row, row};

use crate::role::Row;
use module_table::GoalArg;

/// Whether the name is one of the words. The words are constants at each call, so mostly their
/// lengths decide.
#[inline(always)]
pub fn is_one_of(words: &[&str], name: &str) -> bool
    ensures { result ≡ list_any (λ word. bytes_eq word.now name.now) words.now }
{
    words.iter().any(|word| *word == name)
}

pub fn first_only(role: GoalArg) -> Row
    ensures { result ≡ first_only role }
{
    Row {
        first: role,
        second: GoalArg::Plain,
        third: GoalArg::Plain,
    }
}

pub fn second_only(role: GoalArg) -> Row
    ensures { result ≡ second_only role }
{
    Row {
        first: GoalArg::Plain,
        second: role,
        third: GoalArg::Plain,
    }
}

pub fn first_two(role: GoalArg) -> Row
    ensures { result ≡ first_two role }
{
    Row {
        first: role,
        second: role,
        third: GoalArg::Plain,
    }
}

fn first_and_third(role: GoalArg) -> Row
    ensures { result ≡ first_and_third role }
{
    Row {
        first: role,
        second: GoalArg::Plain,
        third: role,
    }
}

/// `call/N` and `maplist/N` (ISO/IEC 13211-1, 7.8.3): the first argument is a goal, to which the
/// others are added.
fn adding_row(name: &str, arity: u32) -> Option<Row>
    ensures { result ≡ adding_row name.now arity }
{
    if is_one_of(&["call", "maplist"], name) {
        return Some(first_only(GoalArg::Goal(arity.saturating_sub(1))));
    }
    None
}

fn one_row(name: &str) -> Option<Row>
    ensures { result ≡ one_row name.now }
{
    if is_one_of(&["call", "once", "ignore", "not", "initialization"], name) {
        return Some(first_only(GoalArg::Goal(0)));
    }
    None
}

fn two_row(name: &str) -> Option<Row>
    ensures { result ≡ two_row name.now }
{
    if name == "forall" {
        return Some(first_two(GoalArg::Goal(0)));
    }
    if name == "initialization" {
        return Some(first_only(GoalArg::Goal(0)));
    }
    if name == "phrase" {
        return Some(first_only(GoalArg::Grammar));
    }
    adding_row(name, 2)
}

fn three_row(name: &str) -> Option<Row>
    ensures { result ≡ three_row name.now }
{
    if name == "findall" {
        return Some(second_only(GoalArg::Goal(0)));
    }
    if is_one_of(&["bagof", "setof"], name) {
        return Some(second_only(GoalArg::Caret));
    }
    if name == "catch" {
        return Some(first_and_third(GoalArg::Goal(0)));
    }
    if name == "phrase" {
        return Some(first_only(GoalArg::Grammar));
    }
    adding_row(name, 3)
}

fn four_row(name: &str) -> Option<Row>
    ensures { result ≡ four_row name.now }
{
    if name == "findall" {
        return Some(second_only(GoalArg::Goal(0)));
    }
    adding_row(name, 4)
}

/// Which arguments of the predicate with this name and arity are goals, or None if none is.
pub fn row_of(name: &str, arity: u32) -> Option<Row>
    ensures { result ≡ row name.now arity }
{
    match arity {
        0 => None,
        1 => one_row(name),
        2 => two_row(name),
        3 => three_row(name),
        4 => four_row(name),
        _ => adding_row(name, arity),
    }
}
