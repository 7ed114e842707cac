ghost use Rattle.std.specs.Prelude.{◌≡◌, ◌∷◌, [], map, IfOk, OnOk};
ghost use Rattle.file_library.specs.Asked.{AreInOrder};
ghost use Rattle.file_library.specs.AskedFile.{see_file, loads_of, loads_in};
ghost use Rattle.file_library.specs.NextWave.{AddsFiles};

use crate::asked_file::{AskedFile, Content};
use module_table::Load;
use prolog_tokens::Text;
use std::alloc::{AllocError, Global};
use std::collections::BTreeSet;

/// Adds the name to the next ones, unless it was asked for. If there are already more than `room`
/// of them nothing is added, since they are too many in any case.
fn add_file(
    alloc: Global,
    asked: &BTreeSet<Text>,
    file: &Text,
    room: usize,
    next: &mut BTreeSet<Text>,
) -> Result<(), AllocError>
    ensures { OnOk result (AddsFiles asked.now.keys room next.old.keys (file.now ∷ []) next.new.keys) }
{
    if next.len() > room {
        return Ok(());
    }
    if asked.contains(file) {
        return Ok(());
    }
    if next.contains(file) {
        return Ok(());
    }
    next.insert(Text::new(alloc, file.as_str())?)?;
    Ok(())
}

/// Adds the files of the loads.
fn add_loads(
    alloc: Global,
    asked: &BTreeSet<Text>,
    loads: &[Load],
    room: usize,
    next: &mut BTreeSet<Text>,
) -> Result<(), AllocError>
    ensures { OnOk result (AddsFiles asked.now.keys room next.old.keys (map (λ load. load.file) loads.now) next.new.keys) }
{
    for load in loads {
        add_file(alloc, asked, &load.file, room, next)?;
    }
    Ok(())
}

/// The loads of a file without an error.
fn loads_of(file: &AskedFile) -> &[Load]
    ensures { map (λ load. load.file) result.now ≡ loads_of (see_file file.now).found }
{
    match &file.content {
        Content::Sound(_, facts) => &facts.loads,
        _ => &[],
    }
}

/// The names that the files load and that weren't asked for, at most one more than `room`.
pub(crate) fn next_wave(
    alloc: Global,
    asked: &BTreeSet<Text>,
    files: &[AskedFile],
    room: usize,
) -> Result<BTreeSet<Text>, AllocError>
    ensures { IfOk result (λ next. AddsFiles asked.now.keys room [] (loads_in (map see_file files.now)) next.keys) }
{
    let mut next = BTreeSet::new(alloc);
    for file in files {
        add_loads(alloc, asked, loads_of(file), room, &mut next)?;
    }
    Ok(next)
}

/// The names, each once, and at most one more than `room`.
pub(crate) fn name_set(
    alloc: Global,
    names: &[Text],
    room: usize,
) -> Result<BTreeSet<Text>, AllocError>
    ensures { IfOk result (λ set. AddsFiles [] room [] names.now set.keys) }
{
    let asked = BTreeSet::new(alloc);
    let mut set = BTreeSet::new(alloc);
    for name in names {
        add_file(alloc, &asked, name, room, &mut set)?;
    }
    Ok(set)
}

/// The names of the set, in order.
pub(crate) fn in_order(alloc: Global, set: &BTreeSet<Text>) -> Result<Vec<Text>, AllocError>
    ensures same { IfOk result (λ names. names.items ≡ set.now.keys) }
    ensures ordered { AreInOrder set.now.keys }
{
    let mut names = Vec::new(alloc);
    for name in set.iter() {
        names.push(Text::new(alloc, name.as_str())?)?;
    }
    Ok(names)
}
