ghost use Rattle.std.specs.Prelude.{◌≡◌, ◌≤◌, ◌++◌, ◌∷◌, [], List, All, IfOk, OnOk, map};
ghost use Rattle.prolog_tokens.specs.declared.limits.TheConstants.{MOST_BYTES};
ghost use Rattle.file_library.specs.AskedFile.{FileFound, absent, see_file, answered_of, IsOfText};
ghost use Rattle.file_library.specs.AskAll.{answers_of, AreApart};
ghost use Rattle.file_library.specs.Answers.{bytes_of};
ghost use Rattle.file_library.specs.SortedOut.{AreSortedOut, AreOrdered};

use crate::asked_file::{AskedFile, Content};
use crate::fault::Fault;
use clause_text::Cause;
use module_table::FileFacts;
use prolog_tokens::{Place, Text, place_of};
use std::alloc::{AllocError, Global};
use std::collections::BTreeSet;

/// The files, sorted out: facts and texts of those without an error, names of those that aren't
/// there, and errors.
#[derive(Drop)]
pub(crate) struct SortedOut {
    pub files: Vec<FileFacts>,
    pub absent: Vec<Text>,
    pub texts: Vec<(Text, Vec<u8>)>,
    pub faults: Vec<Fault>,
}

/// The files in ascending order of names.
pub(crate) fn files_by_name(mut files: Vec<AskedFile>) -> Result<Vec<AskedFile>, AllocError>
    requires { AreApart (answers_of (map see_file files.items)) }
    ensures { IfOk result (λ ordered. AreOrdered (map see_file files.items) (map see_file ordered.items)) }
{
    files.sort_by(|a, b| a.name.cmp(&b.name))?;
    Ok(files)
}

/// Sorts out the files, in their order.
pub(crate) fn sorted_out(
    alloc: Global,
    roots: &BTreeSet<Text>,
    files: Vec<AskedFile>,
) -> Result<SortedOut, AllocError>
    requires texts { All IsOfText (map see_file files.items) }
    requires small { All (λ answer. bytes_of answer ≤ MOST_BYTES) (answers_of (map see_file files.items)) }
    ensures { IfOk result (AreSortedOut roots.now (map see_file files.items)) }
{
    let mut out = SortedOut {
        files: Vec::new(alloc),
        absent: Vec::new(alloc),
        texts: Vec::new(alloc),
        faults: Vec::new(alloc),
    };
    for file in files {
        put(alloc, roots, file, &mut out)?;
    }
    Ok(out)
}

/// Sorts out one more file.
fn put(
    alloc: Global,
    roots: &BTreeSet<Text>,
    file: AskedFile,
    out: &mut SortedOut,
) -> Result<(), AllocError>
    requires text { IsOfText (see_file file) }
    requires small { bytes_of (answered_of (see_file file)) ≤ MOST_BYTES }
    ensures { OnOk result ((files : List FileFound) → AreSortedOut roots.now files out.old → AreSortedOut roots.now (files ++ see_file file ∷ []) out.new) }
{
    let AskedFile { name, content } = file;
    match content {
        Content::Absent => put_absent(alloc, roots, name, out),
        Content::Sound(bytes, facts) => {
            out.files.push(facts)?;
            out.texts.push((name, bytes))?;
            Ok(())
        }
        Content::Faulty(bytes, cause, offset) => {
            let place = place_of(&bytes, offset);
            out.faults.push(Fault {
                file: name,
                offset,
                place,
                cause,
            })?;
            Ok(())
        }
    }
}

/// Sorts out a file that isn't there, which is an error if it is a root.
fn put_absent(
    alloc: Global,
    roots: &BTreeSet<Text>,
    name: Text,
    out: &mut SortedOut,
) -> Result<(), AllocError>
    ensures { OnOk result ((files : List FileFound) → AreSortedOut roots.now files out.old
        → AreSortedOut roots.now (files ++ (record { name = name; found = absent }) ∷ []) out.new) }
{
    if !roots.contains(&name) {
        out.absent.push(name)?;
        return Ok(());
    }
    out.faults.push(Fault {
        file: Text::new(alloc, name.as_str())?,
        offset: 0,
        place: Place { line: 0, column: 0 },
        cause: Cause::NoRoot,
    })?;
    out.absent.push(name)?;
    Ok(())
}
