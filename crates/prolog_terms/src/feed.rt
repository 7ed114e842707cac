//! The reader: one token at a time.

ghost use Rattle.std.specs.Prelude.{◌≡◌, ◌&&◌, ◌<◌, ◌∷◌, [], not, IfOk, Some, None, false, true, MatchOption};
ghost use Rattle.prolog_ops.specs.Table.{ops_of, IsOps};
ghost use Rattle.prolog_terms.specs.Words.{table_of, is_minus, opens, number_next, begins_term};
ghost use Rattle.prolog_terms.specs.ReaderWaiting.{is_infix_only};
ghost use Rattle.prolog_terms.specs.ReaderSeen.{parts_held, want_name_seen, waiting_parts, enter_seen, then_enter_seen, infix_fits, infix_floor};
ghost use Rattle.prolog_terms.specs.ReaderSeen.{doubt_step, call_step, feed_named_seen, feed_doubt_seen, feed_seen, mode_floor_seen};
ghost use Rattle.prolog_terms.specs.ReaderSeen.{waiting_floor_seen, reduced_measure, infix_held, reduced_seen, atom_operand, negative_operand};
ghost use Rattle.prolog_terms.specs.ReaderSeen.{ready_seen, named_seen, doubt_seen, settled_seen, act_seen, have_step_seen};
ghost use Rattle.prolog_terms.specs.ReaderSeen.{has, wants, pushed, pending_bracket, first_in, Call};
ghost use Rattle.prolog_terms.specs.StackSeen.{Names as NamesSeen, see_word, see_stack, see_state, see_step, see_reader, see_fed};

use crate::measure::Measure;
use crate::nodes::atom;
use crate::operator_sides::{Sides, infix_of, prefix_of};
use crate::operators::infix_step;
use crate::pending::{Bracket, Opened, Operator, Pending};
use crate::state::{Mode, State};
use crate::steps::{act, have_negative, have_step, open_call, prefix_step};
use crate::waiting::{Reader, Waited, Waiting};
use crate::word::{Word, begins_term, is_minus, is_name, is_near_number, is_opening};
use prolog_names::Names;
use prolog_ops::OpTable;
use std::alloc::AllocError;

/// A name waits for the token after it, with its sides if it is a prefix operator.
#[inline(always)]
fn wait(reader: &mut Reader, name: Word, prefix: Option<Sides>)
    ensures { (names : NamesSeen) → see_reader names reader.new ≡ named_seen (see_stack names reader.old.state) (see_word names name) prefix }
{
    reader.waited.name = name;
    match prefix {
        None => reader.waiting = Waiting::Name,
        Some(sides) => {
            reader.waited.prefix = sides;
            reader.waiting = Waiting::Operator;
        }
    }
}

/// Reads a token while none waits. It isn't a name where an operand is wanted.
fn step(table: &OpTable, names: &Names, reader: &mut Reader, word: Word) -> Result<bool, AllocError>
    requires law { IsOps (ops_of table.now) }
    requires room { parts_held (see_state names.now reader.old.state).stack < 4294967295 }
    ensures { IfOk result (λ goes. see_fed names.now reader.new goes ≡ settled_seen (act_seen (table_of (ops_of table.now))
        (see_state names.now reader.old.state).stack (see_state names.now reader.old.state).mode (see_word names.now word))) }
{
    let goes = act(table, names, &mut reader.state, word)?;
    reader.waiting = Waiting::Nothing;
    Ok(goes)
}

/// Reads a token while none waits.
#[inline(always)]
fn enter(
    table: &OpTable,
    names: &Names,
    reader: &mut Reader,
    word: Word,
) -> Result<bool, AllocError>
    requires law { IsOps (ops_of table.now) }
    requires room { parts_held (see_state names.now reader.old.state).stack < 4294967295 }
    ensures { IfOk result (λ goes. see_fed names.now reader.new goes ≡ enter_seen (table_of (ops_of table.now))
        (see_state names.now reader.old.state).stack (see_state names.now reader.old.state).mode (see_word names.now word)) }
{
    if let Mode::Want = reader.state.mode {
        if is_name(word.kind) {
            let prefix = prefix_of(table, names, word);
            wait(reader, word, prefix);
            return Ok(true);
        }
    }
    step(table, names, reader, word)
}

/// The sides of the token if it is an infix operator and no prefix operator.
fn infix_only(table: &OpTable, names: &Names, word: Word) -> Option<Sides>
    ensures { MatchOption result (is_infix_only (table_of (ops_of table.now)) (see_word names.now word)
        ≡ false) (λ sides. (is_infix_only (table_of (ops_of table.now)) (see_word names.now word) ≡ true)
        × ((table_of (ops_of table.now)).infix_ (see_word names.now word) ≡ Some sides)) }
{
    if !is_name(word.kind) {
        return None;
    }
    let sides = infix_of(table, names, word)?;
    match prefix_of(table, names, word) {
        None => Some(sides),
        Some(_) => None,
    }
}

fn infix_fits(measure: Measure, sides: Sides) -> bool
    ensures { result ≡ infix_fits measure sides }
{
    sides.priority <= measure.bound && measure.priority <= sides.left
}

/// The least depth of the clause with an infix operator after the operand.
fn infix_floor(measure: Measure) -> usize
    ensures { result ≡ infix_floor measure }
{
    let inner = measure
        .depth
        .max(1)
        .saturating_add(measure.height)
        .saturating_add(1);
    measure.reach.max(inner)
}

/// Two names wait for the token after them.
fn wait_in_doubt(
    reader: &mut Reader,
    first: Word,
    prefix: Sides,
    second: Word,
    between: Sides,
    floor: usize,
)
    ensures { (names : NamesSeen) → see_reader names reader.new
        ≡ doubt_seen (see_stack names reader.old.state) (see_word names first) prefix (see_word names second) between floor }
{
    reader.waited = Waited {
        name: first,
        prefix,
        second,
        between,
        floor,
    };
    reader.waiting = Waiting::Doubt;
}

/// Two tokens that one more has to decide: an atom and its infix operator, or a prefix operator and
/// a functor.
fn doubt(reader: &mut Reader, first: Word, prefix: Sides, second: Word, between: Sides) -> bool
    ensures { (names : NamesSeen) → see_fed names reader.new result ≡ doubt_step (see_stack names reader.old.state) (see_word names first) prefix
        (see_word names second) between (reduced_measure between.priority (see_stack names reader.old.state) 0 1) }
{
    let measure = reader.state.stack.reduced_measure(between.priority);
    let calls = prefix.priority <= reader.state.stack.bound();
    if infix_fits(measure, between) {
        let joined = infix_floor(measure);
        let floor = if calls {
            joined.min(reader.state.stack.floor(3))
        } else {
            joined
        };
        wait_in_doubt(reader, first, prefix, second, between, floor);
        return true;
    }
    if !calls {
        return false;
    }
    let floor = reader.state.stack.floor(3);
    wait_in_doubt(reader, first, prefix, second, between, floor);
    true
}

/// A prefix operator, and a functor with its `(`.
fn call(reader: &mut Reader, first: Word, prefix: Sides, second: Word) -> Result<bool, AllocError>
    ensures { IfOk result (λ goes. (names : NamesSeen) → see_fed names reader.new goes
        ≡ call_step (see_stack names reader.old.state) (see_word names first) prefix (see_word names second)) }
{
    if prefix.priority > reader.state.stack.bound() {
        return Ok(false);
    }
    reader.state.stack.push(Pending::Operator(Operator::Prefix {
        word: first,
        sides: prefix,
    }))?;
    reader
        .state
        .stack
        .push(Pending::Bracket(Bracket::First(Opened::Call(second))))?;
    reader.state.mode = Mode::Want;
    reader.waiting = Waiting::Nothing;
    Ok(true)
}

/// A functor and its `(`.
fn call_plain(reader: &mut Reader, functor: Word) -> Result<bool, AllocError>
    ensures { IfOk result (λ goes. (names : NamesSeen) → see_fed names reader.new goes ≡ Some
        (ready_seen (pushed (see_stack names reader.old.state) (pending_bracket (first_in (Call (see_word names functor))))) wants)) }
{
    let goes = open_call(&mut reader.state, functor)?;
    reader.waiting = Waiting::Nothing;
    Ok(goes)
}

/// A minus and its number.
fn negative(reader: &mut Reader, minus: Word, word: Word) -> Result<bool, AllocError>
    ensures { IfOk result (λ goes. (names : NamesSeen) → see_fed names reader.new goes
        ≡ Some (ready_seen (see_stack names reader.old.state) (has (negative_operand (see_word names minus) (see_word names word))))) }
{
    let goes = have_negative(&mut reader.state, minus, word)?;
    reader.waiting = Waiting::Nothing;
    Ok(goes)
}

/// A name that is an atom, and the token after it.
#[inline(always)]
fn behind_atom(
    table: &OpTable,
    names: &Names,
    reader: &mut Reader,
    name: Word,
    word: Word,
) -> Result<bool, AllocError>
    requires law { IsOps (ops_of table.now) }
    requires room { parts_held (see_stack names.now reader.old.state) < 4294967295 }
    ensures { IfOk result (λ goes. see_fed names.now reader.new goes ≡ settled_seen (have_step_seen (table_of (ops_of table.now))
        (see_stack names.now reader.old.state) (atom_operand (see_word names.now name)) (see_word names.now word) word.kind)) }
{
    let made = atom(&mut reader.state.nodes, name)?;
    let goes = have_step(table, names, &mut reader.state, made, word)?;
    reader.waiting = Waiting::Nothing;
    Ok(goes)
}

/// Whether the name and the number directly after it are a negative number.
#[inline(always)]
fn is_negative(names: &Names, name: Word, word: Word) -> bool
    ensures { result ≡ (is_minus (see_word names.now name) && number_next (see_word names.now word ∷ [])) }
{
    if !is_near_number(word) {
        return false;
    }
    is_minus(names, name)
}

/// A name that is no prefix operator, and the token after it. The name is a functor (ISO/IEC
/// 13211-1, 6.3.3), the minus of a number (6.3.1.2) or an atom (6.3.1.3).
#[inline(always)]
fn feed_name(
    table: &OpTable,
    names: &Names,
    reader: &mut Reader,
    name: Word,
    word: Word,
) -> Result<bool, AllocError>
    requires law { IsOps (ops_of table.now) }
    requires room { parts_held (see_stack names.now reader.old.state) < 4294967295 }
    ensures { IfOk result (λ goes. see_fed names.now reader.new goes
        ≡ feed_named_seen (table_of (ops_of table.now)) (see_stack names.now reader.old.state) (see_word names.now name) None (see_word names.now word)) }
{
    if is_opening(word) {
        return call_plain(reader, name);
    }
    if is_negative(names, name, word) {
        return negative(reader, name, word);
    }
    behind_atom(table, names, reader, name, word)
}

/// A prefix operator, and the token after it, which decides: it is a functor, the minus of a
/// number, an atom, or the operator (ISO/IEC 13211-1, 6.3.4.2).
fn enter_operator(
    table: &OpTable,
    names: &Names,
    reader: &mut Reader,
    name: Word,
    sides: Sides,
    word: Word,
) -> Result<bool, AllocError>
    requires law { IsOps (ops_of table.now) }
    requires room { parts_held (see_stack names.now reader.old.state) < 4294967295 }
    ensures { IfOk result (λ goes. see_fed names.now reader.new goes ≡ then_enter_seen (table_of (ops_of table.now))
        (want_name_seen (see_stack names.now reader.old.state) (see_word names.now name) (Some sides) (opens (see_word names.now word ∷ []))
        (number_next (see_word names.now word ∷ [])) (not (begins_term word.kind))) (see_word names.now word)) }
{
    if is_opening(word) {
        return call_plain(reader, name);
    }
    if is_negative(names, name, word) {
        return negative(reader, name, word);
    }
    if !begins_term(word.kind) {
        return behind_atom(table, names, reader, name, word);
    }
    if !prefix_step(&mut reader.state, name, sides)? {
        return Ok(false);
    }
    enter(table, names, reader, word)
}

/// A token after a prefix operator.
fn feed_operator(
    table: &OpTable,
    names: &Names,
    reader: &mut Reader,
    name: Word,
    sides: Sides,
    word: Word,
) -> Result<bool, AllocError>
    requires law { IsOps (ops_of table.now) }
    requires room { parts_held (see_stack names.now reader.old.state) < 4294967295 }
    ensures { IfOk result (λ goes. see_fed names.now reader.new goes ≡ feed_named_seen (table_of (ops_of table.now))
        (see_stack names.now reader.old.state) (see_word names.now name) (Some sides) (see_word names.now word)) }
{
    match infix_only(table, names, word) {
        Some(infix) => Ok(doubt(reader, name, sides, word, infix)),
        None => enter_operator(table, names, reader, name, sides, word),
    }
}

/// An atom and the infix operator after it.
fn join(
    names: &Names,
    state: &mut State,
    first: Word,
    second: Word,
    between: Sides,
) -> Result<bool, AllocError>
    ensures { IfOk result (λ goes. see_step names.now state.new goes ≡ infix_held (reduced_seen between.priority (see_stack names.now state.old)
        (atom_operand (see_word names.now first))) (see_word names.now second) between) }
{
    let made = atom(&mut state.nodes, first)?;
    infix_step(names, state, made, second, between)
}

/// The one token more that decides the two in doubt.
fn feed_doubt(
    table: &OpTable,
    names: &Names,
    reader: &mut Reader,
    waited: Waited,
    word: Word,
) -> Result<bool, AllocError>
    requires law { IsOps (ops_of table.now) }
    requires room { parts_held (see_stack names.now reader.old.state) < 4294967295 }
    ensures { IfOk result (λ goes. see_fed names.now reader.new goes ≡ feed_doubt_seen (table_of (ops_of table.now)) (see_stack names.now reader.old.state)
        (see_word names.now waited.name) waited.prefix (see_word names.now waited.second) waited.between (see_word names.now word)) }
{
    if is_opening(word) {
        return call(reader, waited.name, waited.prefix, waited.second);
    }
    if !join(
        names,
        &mut reader.state,
        waited.name,
        waited.second,
        waited.between,
    )? {
        return Ok(false);
    }
    enter(table, names, reader, word)
}

/// Reads one token more. False if no clause continues with it.
#[inline(always)]
pub fn feed(
    table: &OpTable,
    names: &Names,
    reader: &mut Reader,
    word: Word,
) -> Result<bool, AllocError>
    requires law { IsOps (ops_of table.now) }
    requires room { waiting_parts (see_reader names.now reader.old) < 4294967295 }
    ensures { IfOk result (λ goes. see_fed names.now reader.new goes
        ≡ feed_seen (table_of (ops_of table.now)) (see_reader names.now reader.old) (see_word names.now word)) }
{
    match reader.waiting {
        Waiting::Nothing => enter(table, names, reader, word),
        Waiting::Name => {
            let name = reader.waited.name;
            feed_name(table, names, reader, name, word)
        }
        Waiting::Operator => {
            let waited = reader.waited;
            feed_operator(table, names, reader, waited.name, waited.prefix, word)
        }
        Waiting::Doubt => {
            let waited = reader.waited;
            feed_doubt(table, names, reader, waited, word)
        }
    }
}

fn mode_floor(state: &State) -> usize
    ensures { (names : NamesSeen) → result ≡ mode_floor_seen (see_state names state.now).stack (see_state names state.now).mode }
{
    match state.mode {
        Mode::Want => state.stack.want_floor(),
        Mode::Have => state.stack.floor(state.operand.depth),
        Mode::Done => state.operand.depth,
    }
}

/// The least depth of the clauses that continue from here.
pub fn waiting_floor(reader: &Reader) -> usize
    ensures { (names : NamesSeen) → result ≡ waiting_floor_seen (see_reader names reader.now) }
{
    match reader.waiting {
        Waiting::Nothing => mode_floor(&reader.state),
        Waiting::Name => reader.state.stack.floor(1),
        Waiting::Operator => reader.state.stack.floor(1),
        Waiting::Doubt => reader.waited.floor,
    }
}
