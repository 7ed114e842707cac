//! A theorem about each map of files: a function that does nothing, and is called for what it
//! ensures.

ghost use Rattle.std.specs.Prelude.{ℕ, List};
ghost use Rattle.file_library.specs.Library.{Files};
ghost use Rattle.file_library.specs.Asking.{LoadEnd, LoadEndIs, IsDecided};

use crate::file::file_or_fault;

/// For each map of files, reading the roots and all that they load ends in a way that only the map
/// decides.
pub fn load_or_faults()
    ensures { (files : Files) (roots : List (List ℕ)) → (names : List (List ℕ)) × ((load : LoadEnd) × (IsDecided load × LoadEndIs files roots names load)) }
{
    file_or_fault();
}
