//! Source positions: the lines and columns of byte offsets.

ghost use Rattle.std.specs.Prelude.{◌≡◌, ◌≤◌, ◌+◌, All, IfOk, length, slice_index};
ghost use Rattle.prolog_tokens.specs.declared.limits.TheConstants.{MOST_BYTES};
ghost use Rattle.prolog_tokens.specs.Places.{IsOffset, IsPlace, IsCounted, ArePlaces, IsAscending, begins_character};

use crate::token::Place;
use std::alloc::{AllocError, Global};

/// The position where each text begins.
const FIRST: Place = Place { line: 1, column: 1 };

/// Whether the byte begins a character of UTF-8.
fn begins_character(byte: u8) -> bool
    ensures { result ≡ begins_character byte }
{
    byte < 128 || byte >= 192
}

/// The position of the offset `to`, if `place` is that of the offset `from`.
fn advanced(bytes: &[u8], from: usize, place: Place, to: usize) -> Place
    requires small { length bytes.now ≤ MOST_BYTES }
    requires order { from ≤ to }
    requires within { to ≤ length bytes.now }
    requires counted { IsCounted bytes.now from place.line place.column }
    ensures { IsCounted bytes.now to result.line result.column }
{
    let mut line = place.line;
    let mut column = place.column;
    for at in from..to {
        let byte = bytes[at];
        if byte == b'\n' {
            line += 1;
            column = 1;
            continue;
        }
        if !begins_character(byte) {
            continue;
        }
        column += 1;
    }
    Place { line, column }
}

/// The line and column of a byte offset in a text of at most 8,388,608 bytes. Both count from 1,
/// and columns count characters.
///
/// The bytes before the offset must be UTF-8. The steps are linear in the offset.
pub fn place_of(bytes: &[u8], offset: u32) -> Place
    requires small { length bytes.now ≤ MOST_BYTES }
    requires offset { IsOffset bytes.now offset }
    ensures place { IsPlace bytes.now offset result }
    ensures only { (other : Place) → IsPlace bytes.now offset other → other ≡ result }
{
    advanced(bytes, 0, FIRST, offset as usize)
}

/// The lines and columns of byte offsets in ascending order, in the same order. It takes one pass
/// over the text.
pub fn places_of(alloc: Global, bytes: &[u8], offsets: &[u32]) -> Result<Vec<Place>, AllocError>
    requires small { length bytes.now ≤ MOST_BYTES }
    requires offsets { All (IsOffset bytes.now) offsets.now }
    requires ascending { IsAscending offsets.now }
    ensures { IfOk result (λ places. ArePlaces bytes.now offsets.now places.items) }
{
    let mut places = Vec::with_capacity(alloc, offsets.len())?;
    let mut at = 0;
    let mut place = FIRST;
    for offset in offsets {
        let next = *offset as usize;
        place = advanced(bytes, at, place, next);
        places.push(place)?;
        at = next;
    }
    Ok(places)
}
