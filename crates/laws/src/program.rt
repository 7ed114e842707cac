//! Theorems about all files that were loaded: functions that do nothing, and are called for what
//! they ensure.

ghost use Rattle.std.specs.Prelude.{◌≢◌, ◌⊎◌, ◌↔◌, ◌<◌, ◌≤◌, ℕ, List, [], Contains};
ghost use Rattle.std.specs.List.Sorted.{IsStrictlyIncreasing};
ghost use Rattle.file_library.specs.declared.fault.Fault.{Fault};
ghost use Rattle.file_library.specs.Loaded.{LoadedFiles, WasLoaded};
ghost use Rattle.import_rules.specs.Flaws.{AreImportFaults};
ghost use Rattle.import_rules.specs.declared.resolve.TheConstants.{MOST_PREDICATES};
ghost use Rattle.import_rules.specs.Program.{Seen, HasPredicates, IsProgram};
ghost use Rattle.call_edges.specs.GoalFaults.{AreGoalFaults};
ghost use Rattle.call_edges.specs.Roots.{IsRoot};

/// Loaded files have too many predicates, or import errors, or are a program.
pub fn program_or_faults()
    ensures { (loaded : LoadedFiles) → WasLoaded loaded
        → HasPredicates loaded (λ n. MOST_PREDICATES < n)
        ⊎ (((faults : List Fault) × (HasPredicates loaded (λ n. n ≤ MOST_PREDICATES) × (AreImportFaults loaded faults × (faults ≢ []))))
        ⊎ ((seen : Seen) × IsProgram loaded seen)) }
{}

/// The goals of a program that aren't callable are a list, which may be empty.
pub fn goal_faults_exist()
    ensures { (loaded : LoadedFiles) (seen : Seen) → WasLoaded loaded → IsProgram loaded seen → (faults : List Fault) × AreGoalFaults seen faults }
{}

/// The roots of a program are a list.
pub fn roots_exist()
    ensures { (seen : Seen) → (roots : List ℕ) × (IsStrictlyIncreasing roots × ((q : ℕ) → Contains roots q ↔ IsRoot seen q)) }
{}
