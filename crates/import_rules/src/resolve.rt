//! From what was loaded to a program.

ghost use Rattle.std.specs.Prelude.{◌≡◌, ◌≤◌, [], IfOk, IfErr, length, map};
ghost use Rattle.module_table.specs.Facts.{see_facts};
ghost use Rattle.file_library.specs.SortedOut.{see_loaded};
ghost use Rattle.import_rules.specs.declared.resolve.TheConstants.{MOST_PREDICATES};
ghost use Rattle.import_rules.specs.Files.{AreNumbered};
ghost use Rattle.import_rules.specs.Flaws.{AreFlaws};
ghost use Rattle.file_library.specs.Loaded.{WasLoaded};
ghost use Rattle.import_rules.specs.Meanings.{AreTargets};
ghost use Rattle.import_rules.specs.Numbers.{AreNumbers, lists_of, parts_in};
ghost use Rattle.import_rules.specs.Parts.{names_at};
ghost use Rattle.import_rules.specs.Program.{IsProgram, IsImportStop};

use crate::check::{Checked, check_imports};
use crate::import_stop::ImportStop;
use crate::import_tables::{ImportTables, find_meanings};
use crate::meta_places::meta_places;
use crate::number::number;
use crate::own_names::OwnNames;
use crate::part::parts_of;
use crate::places::Places;
use crate::predicates::{Chains, Predicates};
use crate::program::Program;
use crate::program_tables::ProgramTables;
use file_library::Loaded;
use std::alloc::{AllocError, Global};

/// The greatest number of predicates that a program may have.
pub const MOST_PREDICATES: usize = 1_048_576;

/// The predicates of the files in the order of their numbers: the positions of each.
fn numbered_places(alloc: Global, loaded: &Loaded) -> Result<Vec<Places>, AllocError>
    requires { WasLoaded (see_loaded loaded.now) }
    ensures { IfOk result (λ places.
        AreNumbers (parts_in (see_loaded loaded.now).files) (names_at loaded.now.files.items places.items) (lists_of places.items)) }
{
    let parts = parts_of(alloc, &loaded.files)?;
    number(alloc, &loaded.files, parts)
}

/// What imported names mean, or the import errors if there are any.
fn meanings<'a>(
    alloc: Global,
    loaded: &'a Loaded,
    predicates: &Predicates<'a>,
) -> Result<ImportTables, ImportStop>
    requires loaded { WasLoaded (see_loaded loaded.now) }
    requires numbered { AreNumbered (see_loaded loaded.now).files predicates.now }
    requires few { length predicates.now ≤ MOST_PREDICATES }
    ensures targets { IfOk result (λ made. AreTargets (see_loaded loaded.now).files predicates.now made) }
    ensures faultless { IfOk result (λ made. AreFlaws (see_loaded loaded.now).files (see_loaded loaded.now).absent []) }
    ensures refused { IfErr result (IsImportStop (see_loaded loaded.now)) }
{
    let Checked { faults, imports } = check_imports(alloc, loaded, predicates)?;
    if faults.len() > 0 {
        return Err(ImportStop::Faults(faults));
    }
    Ok(find_meanings(alloc, predicates, imports)?)
}

/// The program of what one call of `load_all` loaded, or why there is none. If there are more than
/// 1,048,576 predicates, it fails with that, and reports no import errors. Otherwise it fails with
/// all import errors, if there are any. It also fails if memory runs out.
pub fn resolve_all(alloc: Global, loaded: Loaded) -> Result<Program, ImportStop>
    requires { WasLoaded (see_loaded loaded) }
    ensures ok { IfOk result (λ program. IsProgram (see_loaded loaded) program) }
    ensures refused { IfErr result (IsImportStop (see_loaded loaded)) }
{
    let places = numbered_places(alloc, &loaded)?;
    if places.len() > MOST_PREDICATES {
        return Err(ImportStop::TooManyPredicates);
    }
    let chains = Chains::make(alloc, &loaded.files, &places)?;
    let predicates = Predicates {
        files: &loaded.files,
        places: &places,
        chains: &chains,
    };
    let meta_places = meta_places(alloc, &loaded.files, &predicates)?;
    let own_names = OwnNames::make(alloc, &loaded.files, &places)?;
    let imports = match meanings(alloc, &loaded, &predicates) {
        Ok(imports) => imports,
        Err(stop) => return Err(stop),
    };
    let tables = ProgramTables {
        loaded,
        places,
        chains,
        own_names,
        imports,
        meta_places,
    };
    Ok(Program::of(tables))
}
