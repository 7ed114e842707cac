//! From file names to the program of these files.

ghost use Rattle.file_library.specs.Loaded.{WasLoaded};
ghost use Rattle.file_library.specs.SortedOut.{see_loaded};
ghost use Rattle.tool_run.specs.Carrying.{AreLoaded, AreResolved};

use crate::stop::Stop;
use file_library::{Library, Loaded, load_all};
use import_rules::{Program, resolve_all};
use prolog_tokens::Text;
use std::alloc::Global;
use std::thread::Threads;

/// The program of the files of these names and of all files that they load, or why there is none.
/// The library reads the files.
pub fn load_files<R: Threads + Sync, L: Library>(
    rt: &R,
    alloc: Global,
    names: &[Text],
    library: &mut L,
) -> Result<Program, Stop>
    ensures { AreLoaded names.now (L.seen library.old, L.seen library.new) result }
{
    let loaded = load_all(rt, alloc, names, library)?;
    load_loaded(alloc, loaded)
}

/// The program of the files that were loaded, or why there is none.
fn load_loaded(alloc: Global, loaded: Loaded) -> Result<Program, Stop>
    requires { WasLoaded (see_loaded loaded) }
    ensures { AreResolved (see_loaded loaded) result }
{
    let program = resolve_all(alloc, loaded)?;
    Ok(program)
}
