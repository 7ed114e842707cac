//! The positions at which files define predicates.

ghost use Rattle.std.specs.Prelude.{◌≡◌, ◌++◌, ◌≤◌, [], All, IfOk, OnOk, length, map};
ghost use Rattle.std.specs.Bool.{OnTrue};
ghost use Rattle.module_table.specs.Facts.{Facts, see_facts};
ghost use Rattle.import_rules.specs.Names.{is_same, pred_cmp, pred_name};
ghost use Rattle.import_rules.specs.NameTable.{name_hash};
ghost use Rattle.import_rules.specs.Parts.{name_of_part, parts_to, see_name, see_part};
ghost use Rattle.import_rules.specs.Numbers.{parts_in};

use crate::name_table::joint_hash;
use crate::names::NameView;
use module_table::FileFacts;
use std::alloc::{AllocError, Global};
use std::cmp::Ordering;

/// The position at which a predicate is defined: the index of a file, and the index in the file's
/// `defined`. It is small, since a program has at least as many of them as predicates.
#[derive(Clone, Copy)]
pub(crate) struct Part {
    pub file: u32,
    pub part: u32,
}

/// The empty name, for a position at which nothing is defined.
pub(crate) fn no_name<'a>() -> NameView<'a>
    ensures { see_name result ≡ pred_name [] [] 0 }
{
    NameView {
        module: "",
        name: "",
        arity: 0,
    }
}

/// The name of the predicate that is defined at that position in the files.
pub(crate) fn part_name<'a>(files: &'a [FileFacts], part: &Part) -> NameView<'a>
    ensures { see_name result ≡ name_of_part files.now part.now }
{
    let Some(file) = files.get(part.file as usize) else {
        return no_name();
    };
    let Some(defined) = file.defined.get(part.part as usize) else {
        return no_name();
    };
    NameView {
        module: file.names.text(defined.module),
        name: file.names.text(defined.name),
        arity: defined.arity,
    }
}

/// The hash of that name.
pub(crate) fn part_hash(files: &[FileFacts], part: &Part) -> u32
    ensures { result ≡ name_hash (name_of_part files.now part.now) }
{
    let Some(file) = files.get(part.file as usize) else {
        return 0;
    };
    let Some(defined) = file.defined.get(part.part as usize) else {
        return 0;
    };
    joint_hash(
        file.names.hash(defined.module),
        file.names.hash(defined.name),
        defined.arity,
    )
}

/// Whether both predicates are in one file and have one module, by its number in the names of the
/// file. No text is read. Otherwise their modules can still be equal.
fn are_of_one_module(files: &[FileFacts], a: &Part, b: &Part) -> bool
    ensures { OnTrue result ((name_of_part files.now a.now).module ≡ (name_of_part files.now b.now).module) }
{
    if a.file != b.file {
        return false;
    }
    let Some(file) = files.get(a.file as usize) else {
        return false;
    };
    let Some(one) = file.defined.get(a.part as usize) else {
        return false;
    };
    let Some(other) = file.defined.get(b.part as usize) else {
        return false;
    };
    one.module == other.module
}

/// The order of predicates: by module, by name, by arity.
pub(crate) fn compare(files: &[FileFacts], a: &Part, b: &Part) -> Ordering
    ensures { result ≡ pred_cmp (name_of_part files.now a.now) (name_of_part files.now b.now) }
{
    let (one, other) = (part_name(files, a), part_name(files, b));
    let in_module = one.name.cmp(other.name).then(one.arity.cmp(&other.arity));
    if are_of_one_module(files, a, b) {
        return in_module;
    }
    one.module.cmp(other.module).then(in_module)
}

/// Whether one predicate is defined at both positions.
pub(crate) fn is_same(files: &[FileFacts], a: &Part, b: &Part) -> bool
    ensures { result ≡ is_same (name_of_part files.now a.now) (name_of_part files.now b.now) }
{
    let (one, other) = (part_name(files, a), part_name(files, b));
    if one.name != other.name {
        return false;
    }
    one.module == other.module && one.arity == other.arity
}

/// Adds the positions of the first `count` predicates of a file.
fn push_parts(file: u32, count: u32, parts: &mut Vec<Part>) -> Result<(), AllocError>
    ensures { OnOk result (parts.new.items ≡ parts.old.items ++ parts_to file count) }
{
    for part in 0..count {
        parts.push(Part { file, part })?;
    }
    Ok(())
}

/// How many positions there are, so that the list gets exactly the capacity that it needs.
fn part_count(files: &[FileFacts]) -> usize {
    let mut count: usize = 0;
    for file in files {
        count = count.saturating_add(file.defined.len());
    }
    count
}

/// The positions of all that the files define, file by file.
pub(crate) fn parts_of(alloc: Global, files: &[FileFacts]) -> Result<Vec<Part>, AllocError>
    requires few { length files.now ≤ 4294967295 }
    requires small { All (λ (file : Facts). length file.defined ≤ 4294967295) (map see_facts files.now) }
    ensures { IfOk result (λ parts. map (see_part files.now) parts.items ≡ parts_in (map see_facts files.now)) }
{
    let mut parts = Vec::with_capacity(alloc, part_count(files))?;
    for (place, file) in files.iter().enumerate() {
        push_parts(place as u32, file.defined.len() as u32, &mut parts)?;
    }
    Ok(parts)
}
