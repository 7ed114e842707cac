use crate::program_tables::ProgramTables;
use file_library::places_of_spots;
use prolog_tokens::Place;
use std::alloc::{AllocError, Global};

impl ProgramTables {
    ghost use Rattle.std.specs.Prelude.{IfOk};
    ghost use Rattle.std.specs.List.{AllZip};
    ghost use Rattle.file_library.specs.Spots.{AreSpots, IsSpotPlace};
    ghost use Rattle.import_rules.specs.Program.{see_program};

    /// The line and the column of each spot, in the same order. A spot is the index of a file in
    /// `loaded().texts`, and a byte offset in its text. Spots are in ascending order of file and
    /// offset. It takes one pass over the text of a file.
    pub(crate) fn places_of_spots(
        &self,
        alloc: Global,
        spots: &[(u32, u32)],
    ) -> Result<Vec<Place>, AllocError>
        requires { AreSpots (see_program self.now).loaded.texts spots.now }
        ensures { IfOk result (λ places. AllZip (IsSpotPlace (see_program self.now).loaded.texts) spots.now places.items) }
    {
        let places = places_of_spots(alloc, &self.loaded().texts, spots)?;
        Ok(places)
    }
}
