//! Operators after an operand.

ghost use Rattle.std.specs.Prelude.{◌≡◌, IfOk};
ghost use Rattle.prolog_ops.specs.Table.{ops_of};
ghost use Rattle.prolog_terms.specs.Words.{table_of};
ghost use Rattle.prolog_terms.specs.ReaderSeen.{reduced_seen, closed_seen, infix_held, postfix_held, name_step_seen};
ghost use Rattle.prolog_terms.specs.StackSeen.{Names as NamesSeen, see_word, see_held, see_step};

use crate::nodes::{build, lay_postfix};
use crate::operand::Operand;
use crate::operator_sides::{Sides, infix_of, postfix_of};
use crate::pending::{Operator, Pending};
use crate::state::{Mode, State};
use crate::word::Word;
use prolog_names::Names;
use prolog_ops::OpTable;
use std::alloc::AllocError;

/// Closes the open operators whose right side takes only lower priorities than this one.
#[inline(always)]
pub fn reduce(
    names: &Names,
    state: &mut State,
    operand: Operand,
    priority: u32,
) -> Result<Operand, AllocError>
    ensures { IfOk result (λ left. see_held names.now state.new left
        ≡ reduced_seen priority (see_held names.now state.old operand).stack (see_held names.now state.old operand).operand) }
{
    let mut left = operand;
    while let Some(operator) = state.stack.operator_below(priority) {
        left = build(&mut state.nodes, names, operator, left)?;
        state.stack.shorten();
    }
    Ok(left)
}

/// Closes all open operators down to the innermost bracket.
#[inline(always)]
pub fn close(names: &Names, state: &mut State, operand: Operand) -> Result<Operand, AllocError>
    ensures { IfOk result (λ last. see_held names.now state.new last
        ≡ closed_seen (see_held names.now state.old operand).stack (see_held names.now state.old operand).operand) }
{
    let mut last = operand;
    while let Some(operator) = state.stack.operator() {
        last = build(&mut state.nodes, names, operator, last)?;
        state.stack.shorten();
    }
    Ok(last)
}

/// An infix operator (ISO/IEC 13211-1, 6.3.4.2), once the operators before it are closed.
#[inline(always)]
pub fn infix_behind(
    state: &mut State,
    left: Operand,
    word: Word,
    sides: Sides,
) -> Result<bool, AllocError>
    ensures { IfOk result (λ goes. (names : NamesSeen) → see_step names state.new goes
        ≡ infix_held (see_held names state.old left) (see_word names word) sides) }
{
    if sides.priority > state.stack.bound() {
        return Ok(false);
    }
    if left.priority > sides.left {
        return Ok(false);
    }
    state
        .stack
        .push(Pending::Operator(Operator::Infix { left, word, sides }))?;
    state.mode = Mode::Want;
    Ok(true)
}

/// A postfix operator (ISO/IEC 13211-1, 6.3.4.2), once the operators before it are closed.
fn postfix_behind(
    state: &mut State,
    left: Operand,
    word: Word,
    sides: Sides,
) -> Result<bool, AllocError>
    ensures { IfOk result (λ goes. (names : NamesSeen) → see_step names state.new goes
        ≡ postfix_held (see_held names state.old left) (see_word names word) sides) }
{
    if sides.priority > state.stack.bound() {
        return Ok(false);
    }
    if left.priority > sides.left {
        return Ok(false);
    }
    let made = lay_postfix(&mut state.nodes, left, word, sides)?;
    state.operand = made;
    state.mode = Mode::Have;
    Ok(true)
}

/// An infix operator with its sides, after closing the operators that it closes.
#[inline(always)]
pub fn infix_step(
    names: &Names,
    state: &mut State,
    operand: Operand,
    word: Word,
    sides: Sides,
) -> Result<bool, AllocError>
    ensures { IfOk result (λ goes. see_step names.now state.new goes ≡ infix_held (reduced_seen sides.priority (see_held names.now state.old operand).stack
        (see_held names.now state.old operand).operand) (see_word names.now word) sides) }
{
    let left = reduce(names, state, operand, sides.priority)?;
    infix_behind(state, left, word, sides)
}

/// A name after an operand: an infix or a postfix operator (ISO/IEC 13211-1, 6.3.4.2).
pub fn name_step(
    table: &OpTable,
    names: &Names,
    state: &mut State,
    operand: Operand,
    word: Word,
) -> Result<bool, AllocError>
    ensures { IfOk result (λ goes. see_step names.now state.new goes ≡ name_step_seen (see_held names.now state.old operand).stack
        (see_held names.now state.old operand).operand (see_word names.now word) ((table_of (ops_of table.now)).infix_ (see_word names.now word))
        ((table_of (ops_of table.now)).postfix (see_word names.now word))) }
{
    if let Some(sides) = infix_of(table, names, word) {
        return infix_step(names, state, operand, word, sides);
    }
    let Some(sides) = postfix_of(table, names, word) else {
        return Ok(false);
    };
    let left = reduce(names, state, operand, sides.priority)?;
    postfix_behind(state, left, word, sides)
}
