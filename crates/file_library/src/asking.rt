ghost use Rattle.std.specs.Prelude.{◌≡◌, ◌≤◌, ◌+◌, length, map, sum_by, IfOk, IfErr};
ghost use Rattle.file_library.specs.declared.limits.TheConstants.{MOST_FILES, MOST_TEXT};
ghost use Rattle.file_library.specs.AskedFile.{see_file, answered_of};
ghost use Rattle.file_library.specs.Library.{IsLater};
ghost use Rattle.file_library.specs.Answers.{bytes_of};
ghost use Rattle.file_library.specs.AskAll.{answers_of, HasAskedWave, StopsInWave, HasAskedAll, HasStopped, IsKept};

use crate::asked_file::{AskedFile, Content};
use crate::library::Library;
use crate::limits::MOST_FILES;
use crate::loaded::LoadStop;
use crate::next_wave::{in_order, name_set, next_wave};
use crate::parsing::parse_wave;
use crate::reading::read_wave;
use prolog_tokens::Text;
use std::alloc::{AllocError, Global};
use std::collections::BTreeSet;
use std::thread::Threads;

/// Reads the roots and all files that they load, wave by wave (each wave is a level of a
/// breadth-first search), each file once. Returns the files in the order in which they were read.
pub(crate) fn ask_all<R: Threads + Sync, L: Library>(
    rt: &R,
    alloc: Global,
    roots: &[Text],
    library: &mut L,
) -> Result<Vec<AskedFile>, LoadStop>
    ensures later { IsLater (L.seen library.old) (L.seen library.new) }
    ensures asked { IfOk result (λ files. HasAskedAll (L.seen library.old) (L.seen library.new) roots.now (map see_file files.items)) }
    ensures stops { IfErr result (HasStopped (L.seen library.old) (L.seen library.new) roots.now) }
{
    let mut known = BTreeSet::new(alloc);
    let mut files = Vec::new(alloc);
    let mut total = 0;
    let Ok(mut wave) = name_set(alloc, roots, MOST_FILES) else {
        return Err(LoadStop::NoMemory);
    };
    while wave.len() > 0 {
        if wave.len() > MOST_FILES - files.len() {
            return Err(LoadStop::TooManyFiles);
        }
        let found = match ask_wave(rt, alloc, &wave, total, library) {
            Ok(found) => found,
            Err(stop) => return Err(stop),
        };
        total += bytes_in(&found);
        let Ok(next) = keep(alloc, &mut known, wave, &mut files, found) else {
            return Err(LoadStop::NoMemory);
        };
        wave = next;
    }
    Ok(files)
}

/// Adds a wave and its files, and returns the names of the next wave.
fn keep(
    alloc: Global,
    known: &mut BTreeSet<Text>,
    mut wave: BTreeSet<Text>,
    files: &mut Vec<AskedFile>,
    mut found: Vec<AskedFile>,
) -> Result<BTreeSet<Text>, AllocError>
    requires { length files.old.items + length found.items ≤ MOST_FILES }
    ensures { IfOk result (λ next. IsKept known.old.keys wave.keys known.new.keys
        (map see_file files.old.items) (map see_file found.items) (map see_file files.new.items) next.keys) }
{
    known.append(&mut wave)?;
    let room = MOST_FILES - (files.len() + found.len());
    let next = next_wave(alloc, known, &found, room)?;
    files.append(&mut found)?;
    Ok(next)
}

/// How many bytes the files have together.
fn bytes_in(files: &[AskedFile]) -> u32
    requires { sum_by bytes_of (answers_of (map see_file files.now)) ≤ MOST_TEXT }
    ensures { result ≡ sum_by bytes_of (answers_of (map see_file files.now)) }
{
    let mut total = 0;
    for file in files {
        total += bytes_of(file);
    }
    total
}

fn bytes_of(file: &AskedFile) -> u32
    requires { bytes_of (answered_of (see_file file.now)) ≤ MOST_TEXT }
    ensures { result ≡ bytes_of (answered_of (see_file file.now)) }
{
    match &file.content {
        Content::Absent => 0,
        Content::Sound(bytes, _) => bytes.len() as u32,
        Content::Faulty(bytes, _, _) => bytes.len() as u32,
    }
}

/// Reads the files of a wave, after `total` bytes in earlier ones.
fn ask_wave<R: Threads + Sync, L: Library>(
    rt: &R,
    alloc: Global,
    wave: &BTreeSet<Text>,
    total: u32,
    library: &mut L,
) -> Result<Vec<AskedFile>, LoadStop>
    requires { total ≤ MOST_TEXT }
    ensures later { IsLater (L.seen library.old) (L.seen library.new) }
    ensures asked { IfOk result (λ files. HasAskedWave (L.seen library.old) (L.seen library.new) wave.now.keys total (map see_file files.items)) }
    ensures stops { IfErr result (StopsInWave (L.seen library.old) (L.seen library.new) wave.now.keys total) }
{
    let Ok(names) = in_order(alloc, wave) else {
        return Err(LoadStop::NoMemory);
    };
    let answers = match read_wave(alloc, &names, total, library) {
        Ok(answers) => answers,
        Err(stop) => return Err(stop),
    };
    let Ok(files) = parse_wave(rt, alloc, answers) else {
        return Err(LoadStop::NoMemory);
    };
    Ok(files)
}
