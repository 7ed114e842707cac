ghost use Rattle.std.specs.Prelude.{◌≡◌, ◌<◌, ◌≤◌, ◌^◌, Some, IfOk, MatchOption, Contains, length, map, slice_get};
ghost use Rattle.module_table.specs.Facts.{see_facts};
ghost use Rattle.loop_report.specs.ImportLoops.{AreModules};
ghost use Rattle.loop_report.specs.ModuleGraph.{AreModulePlaces, AreRising, file_names, texts_of};

use module_table::FileFacts;
use std::alloc::{AllocError, Global};

/// The modules of the files, strictly ascending.
pub(crate) fn module_names(alloc: Global, files: &[FileFacts]) -> Result<Vec<&str>, AllocError>
    ensures modules { IfOk result (λ modules. AreModules (map see_facts files.now) (texts_of modules.items)) }
    ensures few { IfOk result (λ modules. length modules.items ≤ length files.now) }
{
    let mut modules = Vec::new(alloc);
    for file in files {
        modules.push(file.module.as_str())?;
    }
    modules.sort()?;
    modules.dedup();
    Ok(modules)
}

/// The names of the files.
pub(crate) fn file_names(alloc: Global, files: &[FileFacts]) -> Result<Vec<&str>, AllocError>
    ensures { IfOk result (λ names. texts_of names.items ≡ file_names (map see_facts files.now)) }
{
    let mut names = Vec::new(alloc);
    for file in files {
        names.push(file.file.as_str())?;
    }
    Ok(names)
}

/// The index of `wanted` among ascending names, or `None` if it isn't there.
pub(crate) fn place_of(names: &[&str], wanted: &str) -> Option<u32>
    requires rising { AreRising (texts_of names.now) }
    requires few { length names.now < 2 ^ 32 }
    ensures { MatchOption result
        (Contains (texts_of names.now) wanted.now → ⊥)
        (λ place. slice_get (texts_of names.now) place ≡ Some wanted.now) }
{
    match names.binary_search(&wanted) {
        Ok(place) => Some(place as u32),
        Err(_) => None,
    }
}

/// For each file the index of its module.
pub(crate) fn module_places(
    alloc: Global,
    files: &[FileFacts],
    modules: &[&str],
) -> Result<Vec<u32>, AllocError>
    requires modules { AreModules (map see_facts files.now) (texts_of modules.now) }
    requires few { length modules.now < 2 ^ 32 }
    ensures { IfOk result (λ places. AreModulePlaces (map see_facts files.now) (texts_of modules.now) places.items) }
{
    let mut places = Vec::new(alloc);
    for file in files {
        let Some(place) = place_of(modules, file.module.as_str()) else {
            unreachable!()
        };
        places.push(place)?;
    }
    Ok(places)
}
