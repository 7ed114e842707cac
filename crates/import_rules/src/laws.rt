//! Theorems about programs and their imports: functions that do nothing, and are called for what
//! they ensure.

ghost use Rattle.std.specs.Prelude.{◌≡◌, ◌<◌, ◌≤◌, ℕ, List, [], Some, length, slice_get};
ghost use Rattle.module_table.specs.Facts.{Facts};
ghost use Rattle.file_library.specs.declared.fault.Fault.{Fault};
ghost use Rattle.file_library.specs.Loaded.{LoadedFiles, WasLoaded};
ghost use Rattle.import_rules.specs.declared.names.PredName.{PredName};
ghost use Rattle.import_rules.specs.Files.{AreNumbered, ArePlaces};
ghost use Rattle.import_rules.specs.Find.{Means};
ghost use Rattle.import_rules.specs.Flaws.{AreFlaws, AreImportFaults, Flaw};
ghost use Rattle.import_rules.specs.Names.{pred_name};
ghost use Rattle.import_rules.specs.declared.resolve.TheConstants.{MOST_PREDICATES};
ghost use Rattle.import_rules.specs.Program.{Seen, IsProgram, IsImportStop, HasPredicates, found, places_in};

use crate::import_stop::ImportStop;

/// The files determine the numbering of their predicates.
pub fn one_numbering()
    ensures { (files : List Facts) (predicates others : List PredName) → AreNumbered files predicates → AreNumbered files others → predicates ≡ others }
{}

/// What was loaded makes at most one program. If it makes one, only running out of memory can stop
/// `resolve_all`. It never has both at most 1,048,576 predicates and more.
pub fn one_program()
    ensures one { (loaded : LoadedFiles) (seen other : Seen) → IsProgram loaded seen → IsProgram loaded other → seen ≡ other }
    ensures few_or_many { (loaded : LoadedFiles) → HasPredicates loaded (λ n. n ≤ MOST_PREDICATES) → HasPredicates loaded (λ n. MOST_PREDICATES < n) → ⊥ }
    ensures never_stopped { (loaded : LoadedFiles) (seen : Seen) (stop : ImportStop) → IsProgram loaded seen
        → IsImportStop loaded stop → stop ≡ ImportStop.NoMemory }
{}

/// What was loaded has at most one list of import errors, and at most one list of them with lines
/// and columns.
pub fn one_list_of_faults()
    ensures flaws { (files : List Facts) (absent : List (List ℕ)) (flaws others : List Flaw)
        → AreFlaws files absent flaws → AreFlaws files absent others → flaws ≡ others }
    ensures faults { (loaded : LoadedFiles) (faults others : List Fault) → WasLoaded loaded
        → AreImportFaults loaded faults → AreImportFaults loaded others → faults ≡ others }
{}

/// The positions of a predicate are all those at which it is defined, in strictly ascending order.
pub fn places_told()
    ensures { (seen : Seen) (node : ℕ) (p : PredName) → slice_get seen.predicates node ≡ Some p → ArePlaces seen.loaded.files p (places_in seen node) }
{}

/// If the imports have no error, a name means at most one predicate.
pub fn one_meaning()
    ensures { (files : List Facts) (absent : List (List ℕ)) → AreFlaws files absent [] → (p q r : PredName) → Means files p q → Means files p r → q ≡ r }
{}

/// What `find` returns is the number of a predicate. In a program it is that of the predicate that
/// the name means, and None only if the name means none.
pub fn found_means()
    ensures below { (seen : Seen) (owner name : List ℕ) (arity n : ℕ) → found seen owner name arity ≡ Some n → n < length seen.predicates }
    ensures means { (loaded : LoadedFiles) (seen : Seen) → IsProgram loaded seen → (owner name : List ℕ) (arity n : ℕ) → found seen owner name arity ≡ Some n
        → (q : PredName) × Means loaded.files (pred_name owner name arity) q × (slice_get seen.predicates n ≡ Some q) }
    ensures found { (loaded : LoadedFiles) (seen : Seen) → IsProgram loaded seen → (owner name : List ℕ) (arity : ℕ) (q : PredName)
        → Means loaded.files (pred_name owner name arity) q → (n : ℕ) × (found seen owner name arity ≡ Some n) × (slice_get seen.predicates n ≡ Some q) }
{}
