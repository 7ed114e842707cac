//! The import errors, and what modules import.

ghost use Rattle.std.specs.Prelude.{◌≡◌, ◌++◌, map, IfOk, OnOk};
ghost use Rattle.file_library.specs.SortedOut.{see_loaded};
ghost use Rattle.import_rules.specs.Clashes.{see_item};
ghost use Rattle.import_rules.specs.Files.{AreNumbered};
ghost use Rattle.import_rules.specs.Findings.{see_findings};
ghost use Rattle.import_rules.specs.Flaws.{AreImportFaults, clash_flaw};
ghost use Rattle.import_rules.specs.Imported.{AreImported};
ghost use Rattle.file_library.specs.Loaded.{WasLoaded};

use crate::clash::{Imported, find_imports};
use crate::finding::Finding;
use crate::gather::gather;
use crate::item::Item;
use crate::known_file::known_files;
use crate::lookups::Lookups;
use crate::module_clashes::all_clashes;
use crate::offers::all_offers;
use crate::placed::faults_with_places;
use crate::predicates::Predicates;
use crate::shared_names::SharedNames;
use crate::taken_modules::TakenModules;
use clause_text::Cause;
use file_library::{Fault, Loaded};
use std::alloc::{AllocError, Global};

/// What modules import: what loads list and what files export, each in order of names and with one
/// item for each; what two files export; and which modules take all exports of which others.
#[derive(Drop)]
pub(crate) struct ImportItems<'a> {
    pub kept: Vec<Item<'a>>,
    pub offered: Vec<Item<'a>>,
    pub shared: SharedNames,
    pub taken: TakenModules,
}

/// The import errors in order of file, offset and cause, and what modules import.
#[derive(Drop)]
pub(crate) struct Checked<'a> {
    pub faults: Vec<Fault>,
    pub imports: ImportItems<'a>,
}

/// All import errors of the loaded files, and what their modules import. `predicates` are those
/// that the files define.
pub(crate) fn check_imports<'a>(
    alloc: Global,
    loaded: &'a Loaded,
    predicates: &Predicates<'a>,
) -> Result<Checked<'a>, AllocError>
    requires loaded { WasLoaded (see_loaded loaded.now) }
    requires numbered { AreNumbered (see_loaded loaded.now).files predicates.now }
    ensures faults { IfOk result (λ checked. AreImportFaults (see_loaded loaded.now) checked.faults.items) }
    ensures imports { IfOk result (λ checked. AreImported (see_loaded loaded.now).files predicates.now checked.imports) }
{
    let mut lookups = Lookups {
        known: known_files(alloc, &loaded.files)?,
        absent: &loaded.absent,
        predicates,
        shared: Vec::new(alloc),
    };
    let offers = all_offers(alloc, &lookups)?;
    let Imported { firsts, clashes } = find_imports(alloc, offers)?;
    let found = gather(alloc, &lookups)?;
    let listed = find_imports(alloc, found.items)?;
    lookups.shared = clashes;
    let clashing = all_clashes(alloc, &lookups)?;
    let taken = TakenModules::make(alloc, &lookups)?;
    let shared = SharedNames::make(alloc, &lookups, &taken)?;
    let flaws = with_clashes(found.flaws, &clashing)?;
    let faults = faults_with_places(alloc, &loaded.texts, flaws)?;
    let imports = ImportItems {
        kept: listed.firsts,
        offered: firsts,
        shared,
        taken,
    };
    Ok(Checked { faults, imports })
}

/// The errors, and after them one for each clash: a name that is imported from two modules.
fn with_clashes<'a>(
    mut flaws: Vec<Finding<'a>>,
    clashes: &[Item<'a>],
) -> Result<Vec<Finding<'a>>, AllocError>
    ensures { IfOk result (λ all. see_findings all.items ≡ see_findings flaws.entry.items ++ map clash_flaw (map see_item clashes.now)) }
{
    for clash in clashes {
        flaws.push(Finding {
            file: clash.file,
            offset: clash.offset,
            cause: Cause::TwoImports,
        })?;
    }
    Ok(flaws)
}
