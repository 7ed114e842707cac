ghost use Rattle.std.specs.Prelude.{◌≡◌, ◌≤◌, List, Some, All, IfOk, IfErr, length, map, sum_by};
ghost use Rattle.file_library.specs.declared.limits.TheConstants.{MOST_FILES, MOST_TEXT};
ghost use Rattle.prolog_tokens.specs.declared.limits.TheConstants.{MOST_BYTES};
ghost use Rattle.file_library.specs.Library.{Files, IsLater, names_of};
ghost use Rattle.file_library.specs.Answers.{bytes_of};
ghost use Rattle.file_library.specs.AskedFile.{see_file, IsOfText};
ghost use Rattle.file_library.specs.AskAll.{answers_of, Agrees, AreApart};
ghost use Rattle.file_library.specs.Asking.{EndsAsTold, HasEnded};
ghost use Rattle.file_library.specs.Loaded.{WasLoaded};
ghost use Rattle.file_library.specs.SortedOut.{AreJustAsked, FinishIs, HasFailed, end_of, see_loaded};

use crate::asked_file::AskedFile;
use crate::asking::ask_all;
use crate::library::Library;
use crate::loaded::{LoadStop, Loaded};
use crate::next_wave::{in_order, name_set};
use crate::sorted_out::{SortedOut, files_by_name, sorted_out};
use prolog_tokens::Text;
use std::alloc::Global;
use std::thread::Threads;

/// Loads the roots and all files that they load, each file once: what was loaded, or why nothing
/// was.
///
/// Files are read in waves, and the files of a wave are parsed in parallel. All files are read
/// before errors are reported, so an error in one file hides no error in another. A root that isn't
/// there is an error, but another file that isn't there is listed in `absent`. More than 1,024
/// files, a file of more than 8,388,608 bytes, or more than 33,554,432 bytes in all end the
/// loading.
pub fn load_all<R: Threads + Sync, L: Library>(
    rt: &R,
    alloc: Global,
    roots: &[Text],
    library: &mut L,
) -> Result<Loaded, LoadStop>
    ensures later { IsLater (L.seen library.old) (L.seen library.new) }
    ensures ended { HasEnded (L.seen library.old) (L.seen library.new) roots.now (end_of result) }
    ensures told { (files : Files) → (L.seen library.old).told ≡ Some files
        → EndsAsTold (L.seen library.old) (L.seen library.new) roots.now files (end_of result) }
    ensures loaded { IfOk result (λ loaded. WasLoaded (see_loaded loaded)) }
    ensures failed { IfErr result (HasFailed (L.seen library.old).faults (L.seen library.new).faults) }
{
    let files = match ask_all(rt, alloc, roots, library) {
        Ok(files) => files,
        Err(stop) => return Err(stop),
    };
    finish(alloc, roots, files)
}

/// What was loaded or why nothing was, after all files were read.
fn finish(alloc: Global, roots: &[Text], files: Vec<AskedFile>) -> Result<Loaded, LoadStop>
    requires apart { AreApart (answers_of (map see_file files.items)) }
    requires texts { All IsOfText (map see_file files.items) }
    requires small { All (λ answer. bytes_of answer ≤ MOST_BYTES) (answers_of (map see_file files.items)) }
    requires together { sum_by bytes_of (answers_of (map see_file files.items)) ≤ MOST_TEXT }
    requires few { length files.items ≤ MOST_FILES }
    ensures { (seen : Files) → Agrees seen (answers_of (map see_file files.items))
        → AreJustAsked seen roots.now (names_of (answers_of (map see_file files.items))) → FinishIs seen roots.now (end_of result) }
{
    let set = name_set(alloc, roots, usize::MAX)?;
    let names = in_order(alloc, &set)?;
    let files = files_by_name(files)?;
    let SortedOut {
        files,
        absent,
        texts,
        faults,
    } = sorted_out(alloc, &set, files)?;
    if faults.len() > 0 {
        return Err(LoadStop::Faults(faults));
    }
    Ok(Loaded {
        files,
        absent,
        roots: names,
        texts,
    })
}
