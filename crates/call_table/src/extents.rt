//! The lines and columns of clauses.

ghost use Rattle.std.specs.Prelude.{◌≡◌, IfOk, map};
ghost use Rattle.std.specs.List.{AllZip, zip};
ghost use Rattle.file_library.specs.Spots.{AreSpots, IsSpotPlace};
ghost use Rattle.call_table.specs.Table.{IsExtentOf, clause_end, clause_spot, extent};

use crate::clause_at::ClauseAt;
use import_rules::Program;
use prolog_tokens::Place;
use std::alloc::{AllocError, Global};

/// The line and the column at which a clause starts, and those directly after its last character.
#[derive(Clone, Copy, Debug, PartialEq, Eq)]
pub struct Extent {
    pub start: Place,
    pub end: Place,
}

fn start_spots(alloc: Global, clauses: &[ClauseAt]) -> Result<Vec<(u32, u32)>, AllocError>
    ensures { IfOk result (λ spots. spots.items ≡ map clause_spot clauses.now) }
{
    clauses
        .iter()
        .map(|clause| (clause.file, clause.offset))
        .collect(alloc)
}

fn end_spots(alloc: Global, clauses: &[ClauseAt]) -> Result<Vec<(u32, u32)>, AllocError>
    ensures { IfOk result (λ spots. spots.items ≡ map clause_end clauses.now) }
{
    clauses
        .iter()
        .map(|clause| (clause.file, clause.end))
        .collect(alloc)
}

/// The line and the column at which each clause starts.
fn starts_of(
    alloc: Global,
    program: &Program,
    clauses: &[ClauseAt],
) -> Result<Vec<Place>, AllocError>
    requires { AreSpots program.now.loaded.texts (map clause_spot clauses.now) }
    ensures { IfOk result (λ places. AllZip (IsSpotPlace program.now.loaded.texts) (map clause_spot clauses.now) places.items) }
{
    let spots = start_spots(alloc, clauses)?;
    let places = program.places_of_spots(alloc, &spots)?;
    Ok(places)
}

/// The line and the column directly after each clause.
fn ends_of(alloc: Global, program: &Program, clauses: &[ClauseAt]) -> Result<Vec<Place>, AllocError>
    requires { AreSpots program.now.loaded.texts (map clause_end clauses.now) }
    ensures { IfOk result (λ places. AllZip (IsSpotPlace program.now.loaded.texts) (map clause_end clauses.now) places.items) }
{
    let spots = end_spots(alloc, clauses)?;
    let places = program.places_of_spots(alloc, &spots)?;
    Ok(places)
}

/// Each start with the end at the same index.
fn side_by_side(alloc: Global, starts: &[Place], ends: &[Place]) -> Result<Vec<Extent>, AllocError>
    ensures { IfOk result (λ extents. extents.items ≡ map extent (zip starts.now ends.now)) }
{
    starts
        .iter()
        .zip(ends)
        .map(|(start, end)| Extent {
            start: *start,
            end: *end,
        })
        .collect(alloc)
}

/// The lines and columns of each clause, in the same order.
pub(crate) fn extents_of(
    alloc: Global,
    program: &Program,
    clauses: &[ClauseAt],
) -> Result<Vec<Extent>, AllocError>
    requires starts { AreSpots program.now.loaded.texts (map clause_spot clauses.now) }
    requires ends { AreSpots program.now.loaded.texts (map clause_end clauses.now) }
    ensures { IfOk result (λ extents. AllZip (IsExtentOf program.now.loaded.texts) clauses.now extents.items) }
{
    let starts = starts_of(alloc, program, clauses)?;
    let ends = ends_of(alloc, program, clauses)?;
    let extents = side_by_side(alloc, &starts, &ends)?;
    Ok(extents)
}
