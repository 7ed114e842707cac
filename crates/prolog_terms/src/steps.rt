//! What one token makes of the state.

ghost use Rattle.std.specs.Prelude.{◌≡◌, ◌<◌, IfOk};
ghost use Rattle.prolog_ops.specs.Table.{ops_of, IsOps};
ghost use Rattle.prolog_terms.specs.Words.{table_of};
ghost use Rattle.prolog_terms.specs.ReaderSeen.{parts_held, goes_seen, wants, has, pushed, pending_bracket, Call, first_in, have_step_seen};
ghost use Rattle.prolog_terms.specs.ReaderSeen.{with_held, closed_seen, round_in, square_in, curly_in, end_in};
ghost use Rattle.prolog_terms.specs.ReaderSeen.{want_other_seen, square_pair_seen, curly_pair_seen, prefix_step_seen, act_seen};
ghost use Rattle.prolog_terms.specs.ReaderSeen.{leaf_operand, negative_operand, pair_operand};
ghost use Rattle.prolog_terms.specs.StackSeen.{Names as NamesSeen, see_word, see_bracket, bracket_holds, see_entries, innermost, trees_in, see_stack};
ghost use Rattle.prolog_terms.specs.StackSeen.{see_held, see_state, see_step};
ghost use Rattle.prolog_terms.specs.Forest.{without};

use crate::brackets::{bar, comma, curly_behind, end_behind, round_behind, square_behind};
use crate::nodes::{leaf, negative, pair};
use crate::operand::Operand;
use crate::operator_sides::Sides;
use crate::operators::{close, name_step};
use crate::pending::{Bracket, Opened, Operator, Pending};
use crate::state::{Mode, State};
use crate::word::Word;
use prolog_names::Names;
use prolog_ops::OpTable;
use prolog_tokens::Kind;
use std::alloc::AllocError;

/// The `)` after an operand.
fn close_round(
    names: &Names,
    state: &mut State,
    operand: Operand,
    word: Word,
) -> Result<bool, AllocError>
    requires room { parts_held (see_held names.now state.old operand).stack < 4294967295 }
    ensures { IfOk result (λ goes. see_step names.now state.new goes ≡ with_held (closed_seen (see_held names.now state.old operand).stack
        (see_held names.now state.old operand).operand) (round_in (see_word names.now word))) }
{
    let last = close(names, state, operand)?;
    round_behind(state, last, word)
}

/// The `]` after an operand.
fn close_square(
    names: &Names,
    state: &mut State,
    operand: Operand,
    word: Word,
) -> Result<bool, AllocError>
    requires room { parts_held (see_held names.now state.old operand).stack < 4294967295 }
    ensures { IfOk result (λ goes. see_step names.now state.new goes ≡ with_held (closed_seen (see_held names.now state.old operand).stack
        (see_held names.now state.old operand).operand) (square_in (see_word names.now word))) }
{
    let last = close(names, state, operand)?;
    square_behind(state, last, word)
}

/// The `}` after an operand.
fn close_curly(
    names: &Names,
    state: &mut State,
    operand: Operand,
    word: Word,
) -> Result<bool, AllocError>
    ensures { IfOk result (λ goes. see_step names.now state.new goes ≡ with_held (closed_seen (see_held names.now state.old operand).stack
        (see_held names.now state.old operand).operand) (curly_in (see_word names.now word))) }
{
    let last = close(names, state, operand)?;
    curly_behind(state, last, word)
}

/// The End after an operand.
fn close_clause(names: &Names, state: &mut State, operand: Operand) -> Result<bool, AllocError>
    ensures { IfOk result (λ goes. see_step names.now state.new goes ≡ with_held (closed_seen (see_held names.now state.old operand).stack
        (see_held names.now state.old operand).operand) end_in) }
{
    let last = close(names, state, operand)?;
    Ok(end_behind(state, last))
}

/// A token after an operand: an operator, a separator, a closing bracket or the End.
#[inline(always)]
pub fn have_step(
    table: &OpTable,
    names: &Names,
    state: &mut State,
    operand: Operand,
    word: Word,
) -> Result<bool, AllocError>
    requires law { IsOps (ops_of table.now) }
    requires room { parts_held (see_held names.now state.old operand).stack < 4294967295 }
    ensures { IfOk result (λ goes. see_step names.now state.new goes ≡ have_step_seen (table_of (ops_of table.now))
        (see_held names.now state.old operand).stack (see_held names.now state.old operand).operand (see_word names.now word) word.kind) }
{
    match word.kind {
        Kind::Name => name_step(table, names, state, operand, word),
        Kind::Quoted => name_step(table, names, state, operand, word),
        Kind::Comma => comma(names, state, operand, word),
        Kind::Bar => bar(names, state, operand, word),
        Kind::CloseRound => close_round(names, state, operand, word),
        Kind::CloseSquare => close_square(names, state, operand, word),
        Kind::CloseCurly => close_curly(names, state, operand, word),
        Kind::End => close_clause(names, state, operand),
        _ => Ok(false),
    }
}

/// A variable, a number or a text.
fn have_leaf(state: &mut State, word: Word) -> Result<bool, AllocError>
    ensures { IfOk result (λ goes. (names : NamesSeen) → see_step names state.new goes
        ≡ goes_seen (see_stack names state.old) (has (leaf_operand (see_word names word)))) }
{
    let made = leaf(&mut state.nodes, word)?;
    state.operand = made;
    state.mode = Mode::Have;
    Ok(true)
}

/// A minus and its number.
pub fn have_negative(state: &mut State, minus: Word, word: Word) -> Result<bool, AllocError>
    ensures { IfOk result (λ goes. (names : NamesSeen) → see_step names state.new goes
        ≡ goes_seen (see_stack names state.old) (has (negative_operand (see_word names minus) (see_word names word)))) }
{
    let made = negative(&mut state.nodes, minus, word)?;
    state.operand = made;
    state.mode = Mode::Have;
    Ok(true)
}

/// `[]` or `{}`.
fn have_pair(names: &Names, state: &mut State, first: Word, last: Word) -> Result<bool, AllocError>
    ensures { IfOk result (λ goes. see_step names.now state.new goes
        ≡ goes_seen (see_stack names.now state.old) (has (pair_operand (see_word names.now first) (see_word names.now last)))) }
{
    let made = pair(&mut state.nodes, names, first, last)?;
    state.operand = made;
    state.mode = Mode::Have;
    Ok(true)
}

/// `]` instead of an operand: the end of `[]` (ISO/IEC 13211-1, 6.3.1.3).
fn square_pair(names: &Names, state: &mut State, word: Word) -> Result<bool, AllocError>
    ensures { IfOk result (λ goes. see_step names.now state.new goes ≡ square_pair_seen (see_stack names.now state.old) (see_word names.now word)) }
{
    let Some(bracket) = state.stack.pop_bracket() else {
        return Ok(false);
    };
    match bracket {
        Bracket::First(opened) => match opened {
            Opened::Square(square) => have_pair(names, state, square, word),
            Opened::Call(_) => Ok(false),
        },
        Bracket::Next { .. } => Ok(false),
        Bracket::Tail { .. } => Ok(false),
        Bracket::Wrap(_) => Ok(false),
    }
}

/// `}` instead of an operand: the end of `{}` (ISO/IEC 13211-1, 6.3.1.3).
fn curly_pair(names: &Names, state: &mut State, word: Word) -> Result<bool, AllocError>
    ensures { IfOk result (λ goes. see_step names.now state.new goes ≡ curly_pair_seen (see_stack names.now state.old) (see_word names.now word)) }
{
    let Some(bracket) = state.stack.pop_bracket() else {
        return Ok(false);
    };
    match bracket {
        Bracket::Wrap(open) => {
            if open.kind == Kind::OpenCurly {
                return have_pair(names, state, open, word);
            }
            Ok(false)
        }
        Bracket::First(_) => Ok(false),
        Bracket::Next { .. } => Ok(false),
        Bracket::Tail { .. } => Ok(false),
    }
}

/// A bracket opens, and its first part is wanted.
fn open_bracket(state: &mut State, bracket: Bracket) -> Result<bool, AllocError>
    ensures { IfOk result (λ goes. (names : NamesSeen) → see_step names state.new goes ≡ goes_seen
        (pushed (see_entries names (innermost state.old.stack) (without (bracket_holds bracket) (trees_in names state.old)))
        (pending_bracket (see_bracket names bracket (trees_in names state.old)))) wants) }
{
    state.stack.push(Pending::Bracket(bracket))?;
    state.mode = Mode::Want;
    Ok(true)
}

/// The `(` of a functor, before its arguments (ISO/IEC 13211-1, 6.3.3).
pub fn open_call(state: &mut State, functor: Word) -> Result<bool, AllocError>
    ensures { IfOk result (λ goes. (names : NamesSeen) → see_step names state.new goes
        ≡ goes_seen (pushed (see_stack names state.old) (pending_bracket (first_in (Call (see_word names functor))))) wants) }
{
    open_bracket(state, Bracket::First(Opened::Call(functor)))
}

/// A token that is no name and begins an operand: a variable, a number, a text or a bracket.
fn want_other(names: &Names, state: &mut State, word: Word) -> Result<bool, AllocError>
    ensures { IfOk result (λ goes. see_step names.now state.new goes ≡ want_other_seen (see_stack names.now state.old) (see_word names.now word) word.kind) }
{
    match word.kind {
        Kind::Variable => have_leaf(state, word),
        Kind::Integer => have_leaf(state, word),
        Kind::Float => have_leaf(state, word),
        Kind::Str => have_leaf(state, word),
        Kind::BackStr => have_leaf(state, word),
        Kind::OpenRound => open_bracket(state, Bracket::Wrap(word)),
        Kind::OpenCurly => open_bracket(state, Bracket::Wrap(word)),
        Kind::OpenSquare => open_bracket(state, Bracket::First(Opened::Square(word))),
        Kind::CloseSquare => square_pair(names, state, word),
        Kind::CloseCurly => curly_pair(names, state, word),
        _ => Ok(false),
    }
}

/// A prefix operator that begins an operand (ISO/IEC 13211-1, 6.3.4.2).
pub fn prefix_step(state: &mut State, word: Word, sides: Sides) -> Result<bool, AllocError>
    ensures { IfOk result (λ goes. (names : NamesSeen) → see_step names state.new goes
        ≡ prefix_step_seen (see_stack names state.old) (see_word names word) sides) }
{
    if sides.priority > state.stack.bound() {
        return Ok(false);
    }
    state
        .stack
        .push(Pending::Operator(Operator::Prefix { word, sides }))?;
    state.mode = Mode::Want;
    Ok(true)
}

/// Reads one token, which is no name if an operand is wanted. False if no clause continues with it.
pub fn act(
    table: &OpTable,
    names: &Names,
    state: &mut State,
    word: Word,
) -> Result<bool, AllocError>
    requires law { IsOps (ops_of table.now) }
    requires room { parts_held (see_state names.now state.old).stack < 4294967295 }
    ensures { IfOk result (λ goes. see_step names.now state.new goes
        ≡ act_seen (table_of (ops_of table.now)) (see_state names.now state.old).stack (see_state names.now state.old).mode (see_word names.now word)) }
{
    match state.mode {
        Mode::Want => want_other(names, state, word),
        Mode::Have => {
            let operand = state.operand;
            have_step(table, names, state, operand, word)
        }
        Mode::Done => Ok(false),
    }
}
