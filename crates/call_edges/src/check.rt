//! Checking that every goal of a program is callable, and finding its call graph.

ghost use Rattle.std.specs.Prelude.{[], ◌≡◌, ◌*◌, ◌<◌, ◌↔◌, true, ℕ, Ok, Contains, length, map, IfOk, OnOk, IfErr};
ghost use Rattle.call_edges.specs.Calls.{IsAmong};
ghost use Rattle.call_edges.specs.declared.piece.TheConstants.{PIECE_SIZE};
ghost use Rattle.call_edges.specs.CallLists.{ArePieces};
ghost use Rattle.call_edges.specs.FaultPlaces.{AreFaultPlaces, HasPlace};
ghost use Rattle.call_edges.specs.GoalFaults.{AreGoalFaults, IsGoalStop};
ghost use Rattle.call_edges.specs.KeptCalls.{AreKept};
ghost use Rattle.call_edges.specs.OpenedPieces.{AreOpened, AreOpenedPieces, IsOpenedPiece, pieces_of, kept_of};

use crate::faults::directive_faults;
use crate::faults_with_places::faults_with_places;
use crate::goal_stop::GoalStop;
use crate::graph::call_lists::CallLists;
use crate::graph::placed_call_lists::PlacedCallLists;
use crate::piece::{OpenedPiece, Piece, open_piece, piece_count};
use crate::piece_calls::PieceCalls;
use import_rules::Program;
use rayon::prelude::*;
use std::alloc::{AllocError, Global};
use std::thread::Threads;

/// How few pieces are worth a thread of their own.
const FEWEST: usize = 2;

/// What is found in each piece, in the order of their numbers. They are walked in parallel.
fn open_each<'a, R: Threads + Sync>(
    rt: &R,
    alloc: Global,
    program: &'a Program,
    keep: bool,
) -> Result<Vec<Result<OpenedPiece<'a>, AllocError>>, AllocError>
    ensures { IfOk result (λ each. AreOpened keep program.now each.items) }
{
    (0..piece_count(program.count()))
        .into_par_iter()
        .with_min_len(FEWEST)
        .map(
            |number: u32| -> Result<OpenedPiece<'_>, AllocError>
                requires { number * PIECE_SIZE < length program.now.predicates }
                ensures { IfOk result (IsOpenedPiece keep program.entry.now number) }
            { open_piece(alloc, program, keep, number) },
        )
        .collect(rt, alloc)
}

/// The pieces, if memory ran out for none.
fn take_pieces<'a>(
    alloc: Global,
    each: Vec<Result<OpenedPiece<'a>, AllocError>>,
) -> Result<Vec<OpenedPiece<'a>>, AllocError>
    ensures { IfOk result (λ opened. each.entry.items ≡ map (λ one. Ok one) opened.items) }
{
    let mut opened = Vec::with_capacity(alloc, each.len())?;
    for one in each {
        match one {
            Ok(piece) => opened.push(piece)?,
            Err(error) => return Err(error),
        }
    }
    Ok(opened)
}

/// The lists of the pieces, and separately the calls that are recorded.
fn split_pieces<'a>(
    alloc: Global,
    opened: Vec<OpenedPiece<'a>>,
) -> Result<(Vec<Piece>, Vec<PieceCalls<'a>>), AllocError>
    ensures pieces { IfOk result (λ found. found.0.items ≡ pieces_of opened.entry.items) }
    ensures kept { IfOk result (λ found. found.1.items ≡ kept_of opened.entry.items) }
{
    let mut pieces = Vec::with_capacity(alloc, opened.len())?;
    let mut kept = Vec::with_capacity(alloc, opened.len())?;
    for one in opened {
        let OpenedPiece { piece, kept: calls } = one;
        pieces.push(piece)?;
        kept.push(calls)?;
    }
    Ok((pieces, kept))
}

/// The pieces of a program, with their calls if `keep` is set.
fn open_all<'a, R: Threads + Sync>(
    rt: &R,
    alloc: Global,
    program: &'a Program,
    keep: bool,
) -> Result<(Vec<Piece>, Vec<PieceCalls<'a>>), AllocError>
    ensures pieces { IfOk result (λ found. ArePieces program.now found.0.items) }
    ensures kept { IfOk result (λ found. keep ≡ true → AreKept program.now found.1.items) }
{
    let each = open_each(rt, alloc, program, keep)?;
    let opened = take_pieces(alloc, each)?;
    let found = split_pieces(alloc, opened)?;
    Ok(found)
}

/// The spots of goals that aren't callable, of all pieces.
fn join_faults(alloc: Global, pieces: &[Piece]) -> Result<Vec<(u32, u32)>, AllocError>
    ensures { IfOk result (λ places. (p : ℕ × ℕ) → Contains places.items p ↔ IsAmong HasPlace pieces.now p) }
{
    let mut places = Vec::new(alloc);
    for piece in pieces {
        places.extend_from_slice(&piece.faults)?;
    }
    Ok(places)
}

/// The spots of all goals that aren't callable, strictly ascending.
fn fault_places(
    alloc: Global,
    program: &Program,
    pieces: &[Piece],
) -> Result<Vec<(u32, u32)>, AllocError>
    requires { ArePieces program.now pieces.now }
    ensures { IfOk result (λ faults. AreFaultPlaces program.now faults.items) }
{
    program.is_known();
    let mut faults = join_faults(alloc, pieces)?;
    let others = directive_faults(alloc, program)?;
    faults.extend_from_slice(&others)?;
    faults.sort_unstable();
    faults.dedup();
    Ok(faults)
}

/// The pieces of a program, with their calls if `keep` is set, if every goal is callable (ISO/IEC
/// 13211-1, 7.6.2). A number never is, and a text only in a grammar body.
fn all_callable<'a, R: Threads + Sync>(
    rt: &R,
    alloc: Global,
    program: &'a Program,
    keep: bool,
) -> Result<(Vec<Piece>, Vec<PieceCalls<'a>>), GoalStop>
    ensures pieces { IfOk result (λ found. ArePieces program.now found.0.items) }
    ensures kept { IfOk result (λ found. keep ≡ true → AreKept program.now found.1.items) }
    ensures callable { OnOk result (AreGoalFaults program.now []) }
    ensures refused { IfErr result (IsGoalStop program.now) }
{
    program.is_known();
    let found = open_all(rt, alloc, program, keep)?;
    let faults = fault_places(alloc, program, &found.0)?;
    if faults.is_empty() {
        return Ok(found);
    }
    Err(GoalStop::Faults(faults_with_places(alloc, program, &faults)?))
}

/// The call graph of a program in memory, if every goal is callable (ISO/IEC 13211-1, 7.6.2). A
/// number never is, and a text only in a grammar body.
///
/// Otherwise the goals that aren't callable are returned, in order of file and offset, each once.
/// Each clause is walked once, in parallel with others.
pub fn call_lists<'a, R: Threads + Sync>(
    rt: &R,
    alloc: Global,
    program: &'a Program,
) -> Result<CallLists<'a>, GoalStop>
    ensures calls { IfOk result (λ calls. calls ≡ program.now) }
    ensures callable { OnOk result (AreGoalFaults program.now []) }
    ensures refused { IfErr result (IsGoalStop program.now) }
{
    let (pieces, _kept) = all_callable(rt, alloc, program, false)?;
    Ok(CallLists::of_pieces(program, pieces))
}

/// The call graph of a program like `call_lists`, with all calls and the positions of their goals.
/// The same walk finds both, and each name is looked up once.
pub fn placed_call_lists<'a, R: Threads + Sync>(
    rt: &R,
    alloc: Global,
    program: &'a Program,
) -> Result<PlacedCallLists<'a>, GoalStop>
    ensures calls { IfOk result (λ calls. calls ≡ program.now) }
    ensures callable { OnOk result (AreGoalFaults program.now []) }
    ensures refused { IfErr result (IsGoalStop program.now) }
{
    let (pieces, kept) = all_callable(rt, alloc, program, true)?;
    let lists = CallLists::of_pieces(program, pieces);
    Ok(PlacedCallLists::of_pieces(lists, kept))
}

/// Whether every goal of a program is callable. The goals that aren't are those that `call_lists`
/// reports.
pub fn check_goals<R: Threads + Sync>(
    rt: &R,
    alloc: Global,
    program: &Program,
) -> Result<(), GoalStop>
    ensures ok { OnOk result (AreGoalFaults program.now []) }
    ensures refused { IfErr result (IsGoalStop program.now) }
{
    call_lists(rt, alloc, program)?;
    Ok(())
}
