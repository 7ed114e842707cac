//! Lines of a table, which are written in parallel.

ghost use Rattle.std.specs.Prelude.{◌≡◌, ◌<◌, ◌≤◌, IfOk, length};
ghost use Rattle.std.specs.List.{flat_map};
ghost use Rattle.std.specs.String.{string_bytes};
ghost use Rattle.call_told.specs.Stretches.{AreStretches, call_stretch, clause_stretch};
ghost use Rattle.call_told.specs.Told.{call_lines, clause_lines, joined};

use call_edges::PlacedCall;
use call_table::{CallTable, ClauseAt, Extent};
use call_writer::{push_call_lines, push_clause_lines};
use import_rules::Program;
use prolog_tokens::Place;
use rayon::prelude::*;
use std::alloc::{AllocError, Global};
use std::thread::Threads;

/// How many lines are written in sequence. Only the last stretch has fewer.
const SIZE: usize = 2_048;

/// How few stretches are worth a thread of their own.
const FEWEST: usize = 1;

/// No list is as long, so one thread writes all stretches.
const BY_ONE: usize = usize::MAX;

/// The initial capacity of a text in bytes for each line of a call. Few are longer.
const CALL_ROOM: usize = 160;

/// The same for each line of a clause.
const CLAUSE_ROOM: usize = 136;

/// Adjacent rows of a table, each with its line and column, or with those at which it starts and
/// ends.
#[derive(Clone, Copy)]
pub struct Stretch<'a, T, P> {
    pub rows: &'a [T],
    pub places: &'a [P],
}

/// How many of the remaining rows the next stretch has.
fn stretch_size(left: usize) -> usize
    requires { 0 < left }
    ensures some { 0 < result }
    ensures within { result ≤ left }
{
    if left < SIZE {
        return left;
    }
    SIZE
}

/// All rows, cut into stretches.
fn stretches<'a, T, P>(
    alloc: Global,
    rows: &'a [T],
    places: &'a [P],
) -> Result<Vec<Stretch<'a, T, P>>, AllocError>
    requires { length rows.now ≡ length places.now }
    ensures { IfOk result (λ cut. AreStretches rows.now places.now cut.items) }
{
    let mut cut = Vec::new(alloc);
    let mut rows = rows;
    let mut places = places;
    while rows.len() > 0 {
        let size = stretch_size(rows.len());
        let (near, far) = rows.split_at(size);
        let (near_places, far_places) = places.split_at(size);
        cut.push(Stretch {
            rows: near,
            places: near_places,
        })?;
        rows = far;
        places = far_places;
    }
    Ok(cut)
}

/// The lines of a stretch of calls.
fn call_text(
    alloc: Global,
    program: &Program,
    stretch: &Stretch<'_, PlacedCall<'_>, Place>,
    undefined: bool,
) -> Result<String, AllocError>
    ensures { IfOk result (λ text. string_bytes text ≡ call_stretch undefined program.now stretch.now) }
{
    let room = stretch.rows.len().min(SIZE) * CALL_ROOM;
    let mut text = String::with_capacity(alloc, room)?;
    push_call_lines(
        alloc,
        &mut text,
        program,
        stretch.rows,
        stretch.places,
        undefined,
    )?;
    Ok(text)
}

/// The lines of a stretch of clauses.
fn clause_text(
    alloc: Global,
    program: &Program,
    stretch: &Stretch<'_, ClauseAt, Extent>,
) -> Result<String, AllocError>
    ensures { IfOk result (λ text. string_bytes text ≡ clause_stretch program.now stretch.now) }
{
    let room = stretch.rows.len().min(SIZE) * CLAUSE_ROOM;
    let mut text = String::with_capacity(alloc, room)?;
    push_clause_lines(alloc, &mut text, program, stretch.rows, stretch.places)?;
    Ok(text)
}

/// The lines of each stretch of calls. A thread of its own writes at least `fewest` stretches.
fn call_pieces<R: Threads + Sync>(
    rt: &R,
    alloc: Global,
    program: &Program,
    stretches: &[Stretch<'_, PlacedCall<'_>, Place>],
    undefined: bool,
    fewest: usize,
) -> Result<Vec<String>, AllocError>
    ensures { IfOk result (λ texts. joined texts.items ≡ flat_map (call_stretch undefined program.now) stretches.now) }
{
    stretches
        .par_iter()
        .with_min_len(fewest)
        .map(
            |stretch: &Stretch<'_, PlacedCall<'_>, Place>| -> Result<String, AllocError>
                ensures { IfOk result (λ text. string_bytes text ≡ call_stretch undefined program.entry.now stretch.now) }
            { call_text(alloc, program, stretch, undefined) },
        )
        .collect::<Result<Vec<String>, AllocError>>(rt, alloc)?
}

/// The lines of each stretch of calls, written in parallel. If memory runs out, one thread writes
/// them once more, since each further one takes address space.
fn each_call_text<R: Threads + Sync>(
    rt: &R,
    alloc: Global,
    program: &Program,
    stretches: &[Stretch<'_, PlacedCall<'_>, Place>],
    undefined: bool,
) -> Result<Vec<String>, AllocError>
    ensures { IfOk result (λ texts. joined texts.items ≡ flat_map (call_stretch undefined program.now) stretches.now) }
{
    match call_pieces(rt, alloc, program, stretches, undefined, FEWEST) {
        Ok(texts) => Ok(texts),
        Err(_) => call_pieces(rt, alloc, program, stretches, undefined, BY_ONE),
    }
}

/// The lines of each stretch of clauses. A thread of its own writes at least `fewest` stretches.
fn clause_pieces<R: Threads + Sync>(
    rt: &R,
    alloc: Global,
    program: &Program,
    stretches: &[Stretch<'_, ClauseAt, Extent>],
    fewest: usize,
) -> Result<Vec<String>, AllocError>
    ensures { IfOk result (λ texts. joined texts.items ≡ flat_map (clause_stretch program.now) stretches.now) }
{
    stretches
        .par_iter()
        .with_min_len(fewest)
        .map(
            |stretch: &Stretch<'_, ClauseAt, Extent>| -> Result<String, AllocError>
                ensures { IfOk result (λ text. string_bytes text ≡ clause_stretch program.entry.now stretch.now) }
            { clause_text(alloc, program, stretch) },
        )
        .collect::<Result<Vec<String>, AllocError>>(rt, alloc)?
}

/// The lines of each stretch of clauses, written in parallel. If memory runs out, one thread writes
/// them once more, since each further one takes address space.
fn each_clause_text<R: Threads + Sync>(
    rt: &R,
    alloc: Global,
    program: &Program,
    stretches: &[Stretch<'_, ClauseAt, Extent>],
) -> Result<Vec<String>, AllocError>
    ensures { IfOk result (λ texts. joined texts.items ≡ flat_map (clause_stretch program.now) stretches.now) }
{
    match clause_pieces(rt, alloc, program, stretches, FEWEST) {
        Ok(texts) => Ok(texts),
        Err(_) => clause_pieces(rt, alloc, program, stretches, BY_ONE),
    }
}

/// The lines of the calls of a table, in texts one after the other. If `undefined` is set, only
/// those of calls whose names mean no predicate.
pub(crate) fn call_texts<R: Threads + Sync>(
    rt: &R,
    alloc: Global,
    program: &Program,
    table: &CallTable<'_>,
    undefined: bool,
) -> Result<Vec<String>, AllocError>
    requires even { length table.now.calls.items ≡ length table.now.call_places.items }
    ensures { IfOk result (λ texts. joined texts.items ≡ call_lines undefined program.now table.now) }
{
    let cut = stretches(alloc, &table.calls, &table.call_places)?;
    let texts = each_call_text(rt, alloc, program, &cut, undefined)?;
    Ok(texts)
}

/// The lines of the clauses of a table, in texts one after the other.
pub(crate) fn clause_texts<R: Threads + Sync>(
    rt: &R,
    alloc: Global,
    program: &Program,
    table: &CallTable<'_>,
) -> Result<Vec<String>, AllocError>
    requires even { length table.now.clauses.items ≡ length table.now.clause_extents.items }
    ensures { IfOk result (λ texts. joined texts.items ≡ clause_lines program.now table.now) }
{
    let cut = stretches(alloc, &table.clauses, &table.clause_extents)?;
    let texts = each_clause_text(rt, alloc, program, &cut)?;
    Ok(texts)
}
