//! Lines and columns of errors.

ghost use Rattle.std.specs.Prelude.{◌≡◌, ℕ, List, All, Contains, IfOk, Some, slice_get};
ghost use Rattle.std.specs.List.{AllZip};
ghost use Rattle.file_library.specs.Spots.{texts_of};
ghost use Rattle.import_rules.specs.Findings.{see_findings};
ghost use Rattle.import_rules.specs.PlacedFlaws.{ArePlacedFlaws, AreTexts, IsSpotOf, StandsIn, faults_at};

use crate::finding::{Finding, compare};
use file_library::{Fault, places_of_spots};
use prolog_tokens::{Place, Text};
use std::alloc::{AllocError, Global};

/// The errors in order of file, offset and cause, each with its line and column.
pub(crate) fn faults_with_places(
    alloc: Global,
    texts: &[(Text, Vec<u8>)],
    mut flaws: Vec<Finding<'_>>,
) -> Result<Vec<Fault>, AllocError>
    requires texts { AreTexts (texts_of texts.now) }
    requires stand { All (StandsIn (texts_of texts.now)) (see_findings flaws.items) }
    ensures { IfOk result (λ faults. ArePlacedFlaws (texts_of texts.now) (see_findings flaws.entry.items) faults.items) }
{
    flaws.sort_by(|a, b| compare(a, b))?;
    let spots = spots_of(alloc, texts, &flaws)?;
    let places = places_of_spots(alloc, texts, &spots)?;
    let faults = faults_of(alloc, &flaws, &places)?;
    Ok(faults)
}

/// The index of the text of a file that is there. It is a binary search.
fn text_place(texts: &[(Text, Vec<u8>)], file: &str) -> usize
    requires texts { AreTexts (texts_of texts.now) }
    requires there { (text : List ℕ) × Contains (texts_of texts.now) (file.now, text) }
    ensures { (text : List ℕ) → Contains (texts_of texts.now) (file.now, text) → slice_get (texts_of texts.now) result ≡ Some (file.now, text) }
{
    let Ok(place) = texts.binary_search_by(|text| text.0.as_str().cmp(file)) else {
        unreachable!()
    };
    place
}

/// For each error the index of its file's text and its byte offset (a spot).
fn spots_of(
    alloc: Global,
    texts: &[(Text, Vec<u8>)],
    flaws: &[Finding<'_>],
) -> Result<Vec<(u32, u32)>, AllocError>
    requires texts { AreTexts (texts_of texts.now) }
    requires stand { All (StandsIn (texts_of texts.now)) (see_findings flaws.now) }
    ensures { IfOk result (λ spots. AllZip (IsSpotOf (texts_of texts.now)) (see_findings flaws.now) spots.items) }
{
    let mut spots = Vec::new(alloc);
    for flaw in flaws {
        let place = text_place(texts, flaw.file);
        spots.push((place as u32, flaw.offset))?;
    }
    Ok(spots)
}

/// The errors with these lines and columns, which are in the same order.
fn faults_of(
    alloc: Global,
    flaws: &[Finding<'_>],
    places: &[Place],
) -> Result<Vec<Fault>, AllocError>
    ensures { IfOk result (λ faults. faults.items ≡ faults_at (see_findings flaws.now) places.now) }
{
    let mut faults = Vec::new(alloc);
    for (flaw, place) in flaws.iter().zip(places) {
        faults.push(Fault {
            file: Text::new(alloc, flaw.file)?,
            offset: flaw.offset,
            place: *place,
            cause: flaw.cause,
        })?;
    }
    Ok(faults)
}
