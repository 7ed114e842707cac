//! The calls of directives, each with its position.

ghost use Rattle.std.specs.Prelude.{IfOk};
ghost use Rattle.call_edges.specs.PlacedSeen.{see_calls};
ghost use Rattle.call_table.specs.Directives.{ArePlacedDirectives};

use crate::table::call_spots;
use call_edges::{PlacedCall, directive_calls};
use import_rules::Program;
use prolog_tokens::Place;
use std::alloc::{AllocError, Global};

/// All calls of goals of directives, by file and offset, and the line and the column of each. They
/// have no caller: the field `caller` of each is 0.
pub fn placed_directives<'a>(
    alloc: Global,
    program: &'a Program,
) -> Result<(Vec<PlacedCall<'a>>, Vec<Place>), AllocError>
    ensures { IfOk result (λ found. ArePlacedDirectives program.now (see_calls found.0.items) found.1.items) }
{
    let calls = directive_calls(alloc, program)?;
    let spots = call_spots(alloc, &calls)?;
    let places = program.places_of_spots(alloc, &spots)?;
    Ok((calls, places))
}
