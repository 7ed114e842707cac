//! Separators, closing brackets and the End, after an operand.

ghost use Rattle.std.specs.Prelude.{◌≡◌, ◌<◌, Some, IfOk};
ghost use Rattle.prolog_terms.specs.Tree.{none};
ghost use Rattle.prolog_terms.specs.Forest.{before_last, parts_of, without};
ghost use Rattle.prolog_terms.specs.ReaderSeen.{parts, parts_held, goes_seen, wants, has, pushed, pending_bracket, next_in, tail_in, separator_seen};
ghost use Rattle.prolog_terms.specs.ReaderSeen.{comma_sides, bar_sides, comma_in, bar_in, round_in, square_in, curly_in, end_in, group_operand};
ghost use Rattle.prolog_terms.specs.ReaderSeen.{tailed_operand, wrapped_operand};
ghost use Rattle.prolog_terms.specs.StackSeen.{Names as NamesSeen, see_word, see_opened, see_entries, innermost, trees_in, see_held, see_step};

use crate::nodes::{group, lay_tailed, lay_wrapped};
use crate::operand::Operand;
use crate::operator_sides::{BAR_SIDES, COMMA_SIDES};
use crate::operators::{close, infix_step};
use crate::pending::{Bracket, Opened, Pending};
use crate::state::{Mode, State};
use crate::word::Word;
use prolog_names::Names;
use prolog_tokens::Kind;
use std::alloc::AllocError;

/// One argument or item more is wanted, after `count` of them.
fn next_part(
    state: &mut State,
    opened: Opened,
    count: u32,
    depth: usize,
) -> Result<bool, AllocError>
    ensures { IfOk result (λ goes. (names : NamesSeen) → see_step names state.new goes ≡ goes_seen
        (pushed (see_entries names (innermost state.old.stack) (without count (trees_in names state.old)))
        (pending_bracket (next_in (see_opened names opened) (parts (parts_of count (trees_in names state.old) none) depth)))) wants) }
{
    state.stack.push(Pending::Bracket(Bracket::Next {
        opened,
        count,
        depth,
    }))?;
    state.mode = Mode::Want;
    Ok(true)
}

/// A Comma between arguments (ISO/IEC 13211-1, 6.3.3.1) or items (6.3.5.1).
fn comma_behind(state: &mut State, last: Operand) -> Result<bool, AllocError>
    requires room { (names : NamesSeen) → parts_held (see_held names state.old last).stack < 4294967295 }
    ensures { IfOk result (λ goes. (names : NamesSeen) → see_step names state.new goes
        ≡ comma_in (see_held names state.old last).stack (see_held names state.old last).operand) }
{
    let Some(bracket) = state.stack.pop_bracket() else {
        return Ok(false);
    };
    match bracket {
        Bracket::First(opened) => next_part(state, opened, 1, last.depth),
        Bracket::Next {
            opened,
            count,
            depth,
        } => next_part(state, opened, count + 1, depth.max(last.depth)),
        Bracket::Tail { .. } => Ok(false),
        Bracket::Wrap(_) => Ok(false),
    }
}

/// A Comma: a separator if the innermost bracket has parts, and otherwise an operator (ISO/IEC
/// 13211-1, 6.3.4.3).
pub fn comma(
    names: &Names,
    state: &mut State,
    operand: Operand,
    word: Word,
) -> Result<bool, AllocError>
    requires room { parts_held (see_held names.now state.old operand).stack < 4294967295 }
    ensures { IfOk result (λ goes. see_step names.now state.new goes ≡ separator_seen (see_held names.now state.old operand).stack
        (see_held names.now state.old operand).operand (see_word names.now word) (Some comma_sides) comma_in) }
{
    if !state.stack.separates() {
        return infix_step(names, state, operand, word, COMMA_SIDES);
    }
    let last = close(names, state, operand)?;
    comma_behind(state, last)
}

/// The tail of a list is wanted, after `count` items.
fn tail_part(state: &mut State, square: Word, count: u32, depth: usize) -> Result<bool, AllocError>
    ensures { IfOk result (λ goes. (names : NamesSeen) → see_step names state.new goes ≡ goes_seen
        (pushed (see_entries names (innermost state.old.stack) (without count (trees_in names state.old)))
        (pending_bracket (tail_in (see_word names square) (parts (parts_of count (trees_in names state.old) none) depth)))) wants) }
{
    state.stack.push(Pending::Bracket(Bracket::Tail {
        square,
        count,
        depth,
    }))?;
    state.mode = Mode::Want;
    Ok(true)
}

/// The Bar of a list, after its items (ISO/IEC 13211-1, 6.3.5.1).
fn bar_behind(state: &mut State, last: Operand) -> Result<bool, AllocError>
    requires room { (names : NamesSeen) → parts_held (see_held names state.old last).stack < 4294967295 }
    ensures { IfOk result (λ goes. (names : NamesSeen) → see_step names state.new goes
        ≡ bar_in (see_held names state.old last).stack (see_held names state.old last).operand) }
{
    let Some(bracket) = state.stack.pop_bracket() else {
        return Ok(false);
    };
    match bracket {
        Bracket::First(opened) => match opened {
            Opened::Square(square) => tail_part(state, square, 1, last.depth),
            Opened::Call(_) => Ok(false),
        },
        Bracket::Next {
            opened,
            count,
            depth,
        } => match opened {
            Opened::Square(square) => { tail_part(state, square, count + 1, depth.max(last.depth)) }
            Opened::Call(_) => Ok(false),
        },
        Bracket::Tail { .. } => Ok(false),
        Bracket::Wrap(_) => Ok(false),
    }
}

/// A Bar: it precedes a tail if the innermost bracket has parts, and is an operator otherwise
/// (ISO/IEC 13211-1, 6.3.4.3).
pub fn bar(
    names: &Names,
    state: &mut State,
    operand: Operand,
    word: Word,
) -> Result<bool, AllocError>
    requires room { parts_held (see_held names.now state.old operand).stack < 4294967295 }
    ensures { IfOk result (λ goes. see_step names.now state.new goes ≡ separator_seen (see_held names.now state.old operand).stack
        (see_held names.now state.old operand).operand (see_word names.now word) (Some bar_sides) bar_in) }
{
    if !state.stack.separates() {
        return infix_step(names, state, operand, word, BAR_SIDES);
    }
    let last = close(names, state, operand)?;
    bar_behind(state, last)
}

/// The arguments or items are complete.
fn close_group(
    state: &mut State,
    opened: Opened,
    count: u32,
    depth: usize,
    word: Word,
) -> Result<bool, AllocError>
    ensures { IfOk result (λ goes. (names : NamesSeen) → see_step names state.new goes ≡ goes_seen
        (see_entries names (innermost state.old.stack) (without count (trees_in names state.old)))
        (has (group_operand (see_opened names opened) (parts (parts_of count (trees_in names state.old) none) depth) (see_word names word)))) }
{
    let made = group(&mut state.nodes, opened, count, depth, word)?;
    state.operand = made;
    state.mode = Mode::Have;
    Ok(true)
}

/// The term that `)` or `}` closes.
fn close_wrap(
    state: &mut State,
    opening: Word,
    inner: Operand,
    word: Word,
) -> Result<bool, AllocError>
    ensures { IfOk result (λ goes. (names : NamesSeen) → see_step names state.new goes ≡ goes_seen (see_held names state.old inner).stack
        (has (wrapped_operand (see_word names opening) (see_held names state.old inner).operand (see_word names word)))) }
{
    let made = lay_wrapped(&mut state.nodes, opening, inner, word)?;
    state.operand = made;
    state.mode = Mode::Have;
    Ok(true)
}

/// The `)` after arguments (ISO/IEC 13211-1, 6.3.3) or after a term in brackets (6.3.4.1).
pub fn round_behind(state: &mut State, last: Operand, word: Word) -> Result<bool, AllocError>
    requires room { (names : NamesSeen) → parts_held (see_held names state.old last).stack < 4294967295 }
    ensures { IfOk result (λ goes. (names : NamesSeen) → see_step names state.new goes
        ≡ round_in (see_word names word) (see_held names state.old last).stack (see_held names state.old last).operand) }
{
    let Some(bracket) = state.stack.pop_bracket() else {
        return Ok(false);
    };
    match bracket {
        Bracket::First(opened) => match opened {
            Opened::Call(_) => close_group(state, opened, 1, last.depth, word),
            Opened::Square(_) => Ok(false),
        },
        Bracket::Next {
            opened,
            count,
            depth,
        } => match opened {
            Opened::Call(_) => {
                close_group(state, opened, count + 1, depth.max(last.depth), word)
            }
            Opened::Square(_) => Ok(false),
        },
        Bracket::Wrap(open) => {
            if open.kind == Kind::OpenCurly {
                return Ok(false);
            }
            close_wrap(state, open, last, word)
        }
        Bracket::Tail { .. } => Ok(false),
    }
}

/// The `]` after the tail of a list (ISO/IEC 13211-1, 6.3.5).
fn close_tailed(
    state: &mut State,
    square: Word,
    count: u32,
    depth: usize,
    tail: Operand,
    word: Word,
) -> Result<bool, AllocError>
    ensures { IfOk result (λ goes. (names : NamesSeen) → see_step names state.new goes ≡ goes_seen
        (see_entries names (innermost state.old.stack) (without count (before_last (trees_in names state.old))))
        (has (tailed_operand (see_word names square) (parts (parts_of count (before_last (trees_in names state.old)) none) depth)
        (see_held names state.old tail).operand (see_word names word)))) }
{
    let made = lay_tailed(&mut state.nodes, square, count, depth, tail, word)?;
    state.operand = made;
    state.mode = Mode::Have;
    Ok(true)
}

/// The `]` of a list (ISO/IEC 13211-1, 6.3.5).
pub fn square_behind(state: &mut State, last: Operand, word: Word) -> Result<bool, AllocError>
    requires room { (names : NamesSeen) → parts_held (see_held names state.old last).stack < 4294967295 }
    ensures { IfOk result (λ goes. (names : NamesSeen) → see_step names state.new goes
        ≡ square_in (see_word names word) (see_held names state.old last).stack (see_held names state.old last).operand) }
{
    let Some(bracket) = state.stack.pop_bracket() else {
        return Ok(false);
    };
    match bracket {
        Bracket::First(opened) => match opened {
            Opened::Square(_) => close_group(state, opened, 1, last.depth, word),
            Opened::Call(_) => Ok(false),
        },
        Bracket::Next {
            opened,
            count,
            depth,
        } => match opened {
            Opened::Square(_) => {
                close_group(state, opened, count + 1, depth.max(last.depth), word)
            }
            Opened::Call(_) => Ok(false),
        },
        Bracket::Tail {
            square,
            count,
            depth,
        } => close_tailed(state, square, count, depth, last, word),
        Bracket::Wrap(_) => Ok(false),
    }
}

/// The `}` after a term in curly brackets (ISO/IEC 13211-1, 6.3.6).
pub fn curly_behind(state: &mut State, last: Operand, word: Word) -> Result<bool, AllocError>
    ensures { IfOk result (λ goes. (names : NamesSeen) → see_step names state.new goes
        ≡ curly_in (see_word names word) (see_held names state.old last).stack (see_held names state.old last).operand) }
{
    let Some(bracket) = state.stack.pop_bracket() else {
        return Ok(false);
    };
    match bracket {
        Bracket::Wrap(open) => {
            if open.kind == Kind::OpenCurly {
                return close_wrap(state, open, last, word);
            }
            Ok(false)
        }
        Bracket::First(_) => Ok(false),
        Bracket::Next { .. } => Ok(false),
        Bracket::Tail { .. } => Ok(false),
    }
}

/// The End of the clause, if nothing is open (ISO/IEC 13211-1, 6.2.2).
pub fn end_behind(state: &mut State, last: Operand) -> bool
    ensures { (names : NamesSeen) → see_step names state.new result ≡ end_in (see_held names state.old last).stack (see_held names state.old last).operand }
{
    if state.stack.height() > 0 {
        return false;
    }
    state.operand = last;
    state.mode = Mode::Done;
    true
}
