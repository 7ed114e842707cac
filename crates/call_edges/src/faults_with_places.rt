//! Lines and columns of goals that aren't callable.

ghost use Rattle.std.specs.Prelude.{◌≡◌, ◌≤◌, All, length, IfOk};
ghost use Rattle.std.specs.List.{AllZip};
ghost use Rattle.file_library.specs.Spots.{IsSpotPlace, texts_of};
ghost use Rattle.call_edges.specs.FaultPlaces.{AreFaultPlaces, IsPlaced};

use clause_text::Cause;
use file_library::Fault;
use import_rules::Program;
use prolog_tokens::{Place, Text};
use std::alloc::{AllocError, Global};

/// The errors of goals at these spots of the texts. `places` are their lines and columns.
fn faults_of(
    alloc: Global,
    texts: &[(Text, Vec<u8>)],
    spots: &[(u32, u32)],
    places: &[Place],
) -> Result<Vec<Fault>, AllocError>
    requires { AllZip (IsSpotPlace (texts_of texts.now)) spots.now places.now }
    ensures { IfOk result (λ faults. AllZip (IsPlaced (texts_of texts.now)) spots.now faults.items) }
{
    let mut faults = Vec::new(alloc);
    for (at, spot) in spots.iter().enumerate() {
        faults.push(Fault {
            file: Text::new(alloc, texts[spot.0 as usize].0.as_str())?,
            offset: spot.1,
            place: places[at],
            cause: Cause::NotCallable,
        })?;
    }
    Ok(faults)
}

/// The errors of all goals that aren't callable, with lines and columns, in the order of their
/// spots.
pub fn faults_with_places(
    alloc: Global,
    program: &Program,
    spots: &[(u32, u32)],
) -> Result<Vec<Fault>, AllocError>
    requires { AreFaultPlaces program.now spots.now }
    ensures { IfOk result (λ faults. AllZip (IsPlaced program.now.loaded.texts) spots.now faults.items) }
{
    program.is_known();
    let places = program.places_of_spots(alloc, spots)?;
    let faults = faults_of(alloc, &program.loaded().texts, spots, &places)?;
    Ok(faults)
}
