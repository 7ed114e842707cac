//! Lines and columns of spots: pairs of a file and a byte offset.

ghost use Rattle.std.specs.Prelude.{◌≡◌, ◌≢◌, ◌++◌, ◌<◌, ◌≤◌, ℕ, All, List, length, map, slice_index_or, IfOk, OnOk};
ghost use Rattle.std.specs.List.{AllZip};
ghost use Rattle.prolog_tokens.specs.declared.limits.TheConstants.{MOST_BYTES};
ghost use Rattle.file_library.specs.Spots.{AreLimited, AreSpots, IsSpotPlace, texts_of};
ghost use Rattle.prolog_tokens.specs.declared.token.Place.{Place as PlaceKept};
ghost use Rattle.prolog_tokens.specs.Places.{ArePlaces, IsAscending, IsOffset};

use prolog_tokens::{Place, Text, places_of};
use std::alloc::{AllocError, Global};

/// How many of the spots at the front are of the file.
fn run_end(spots: &[(u32, u32)], file: u32) -> usize
    ensures bound { result ≤ length spots.now }
    ensures same { (k : ℕ) → k < result → (slice_index_or spots.now k (0, 0)).0 ≡ file }
    ensures other { result < length spots.now → (slice_index_or spots.now result (0, 0)).0 ≢ file }
{
    for (at, spot) in spots.iter().enumerate() {
        if spot.0 != file {
            return at;
        }
    }
    spots.len()
}

fn offsets_of(alloc: Global, spots: &[(u32, u32)]) -> Result<Vec<u32>, AllocError>
    ensures { IfOk result (λ offsets. offsets.items ≡ map (λ (s : ℕ × ℕ). s.1) spots.now) }
{
    spots.iter().map(|spot| spot.1).collect(alloc)
}

/// Adds the lines and columns of these byte offsets of a file, which are in ascending order.
fn push_places(
    alloc: Global,
    bytes: &[u8],
    offsets: &[u32],
    out: &mut Vec<Place>,
) -> Result<(), AllocError>
    requires small { length bytes.now ≤ MOST_BYTES }
    requires offsets { All (IsOffset bytes.now) offsets.now }
    requires ascending { IsAscending offsets.now }
    ensures { OnOk result ((more : List PlaceKept) × ArePlaces bytes.now offsets.now more × (out.new.items ≡ out.old.items ++ more)) }
{
    let places = places_of(alloc, bytes, offsets)?;
    out.extend_from_slice(&places)?;
    Ok(())
}

/// The line and the column of each spot, in the same order. A spot is the index of a file among the
/// texts, and a byte offset in it.
///
/// Spots are in ascending order of file and offset. It takes one pass over the text of a file.
pub fn places_of_spots(
    alloc: Global,
    texts: &[(Text, Vec<u8>)],
    spots: &[(u32, u32)],
) -> Result<Vec<Place>, AllocError>
    requires texts { AreLimited (texts_of texts.now) }
    requires spots { AreSpots (texts_of texts.now) spots.now }
    ensures { IfOk result (λ places. AllZip (IsSpotPlace (texts_of texts.now)) spots.now places.items) }
{
    let mut out = Vec::new(alloc);
    let mut rest = spots;
    for (at, text) in texts.iter().enumerate() {
        let (run, later) = rest.split_at(run_end(rest, at as u32));
        let offsets = offsets_of(alloc, run)?;
        push_places(alloc, &text.1, &offsets, &mut out)?;
        rest = later;
    }
    Ok(out)
}
