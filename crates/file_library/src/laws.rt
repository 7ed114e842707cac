//! Theorems about the files that are asked for: functions that do nothing, and are called for what
//! they ensure.

ghost use Rattle.std.specs.Prelude.{◌≡◌, ℕ, List, Bool, true, Contains};
ghost use Rattle.file_library.specs.Library.{Files};
ghost use Rattle.file_library.specs.FileLoads.{FileLoads};
ghost use Rattle.file_library.specs.Asked.{IsAsked};
ghost use Rattle.file_library.specs.Asking.{LoadEnd, LoadEndIs, IsDecided};

/// The files that are asked for are the least set that has the roots and all files that a file of
/// the set loads.
pub fn asked_least()
    ensures roots { (files : Files) (roots : List (List ℕ)) (name : List ℕ) → Contains roots name → IsAsked (FileLoads files) roots name }
    ensures loads { (files : Files) (roots : List (List ℕ)) (user name : List ℕ) → IsAsked (FileLoads files) roots user → FileLoads files user name
        → IsAsked (FileLoads files) roots name }
    ensures least { (files : Files) (roots : List (List ℕ)) (set : List ℕ → Bool) → ((name : List ℕ) → Contains roots name → set name ≡ true)
        → ((user name : List ℕ) → set user ≡ true → FileLoads files user name → set name ≡ true)
        → (name : List ℕ) → IsAsked (FileLoads files) roots name → set name ≡ true }
{}

/// For one map of files and the same roots the asking ends in one way only, unless a read fails or
/// memory runs out.
pub fn one_end()
    ensures { (files : Files) (roots names others : List (List ℕ)) (end second : LoadEnd) → IsDecided end → IsDecided second
        → LoadEndIs files roots names end → LoadEndIs files roots others second → end ≡ second }
{}
