//! The predicates of files by the numbers of their names in the file. By these, what a name means
//! in the module of its own file is mostly found without hashing it.

ghost use Rattle.std.specs.Prelude.{◌≡◌, ◌<◌, ◌≤◌, ◌⊎◌, ◌+◌, ℕ, List, Some, AllPairs, length, IfOk};
ghost use Rattle.std.specs.declared.cmp.Ordering.TheVariants.{Less};
ghost use Rattle.import_rules.specs.declared.resolve.TheConstants.{MOST_PREDICATES};
ghost use Rattle.import_rules.specs.declared.names.PredName.{PredName};
ghost use Rattle.import_rules.specs.Find.{number_of};
ghost use Rattle.import_rules.specs.Names.{pred_cmp};
ghost use Rattle.import_rules.specs.OwnNames.{AreKept, AreOwn, AreNothing, kept_at, kept_in};
ghost use Rattle.import_rules.specs.Parts.{name_of_part, names_at, part_at};

use crate::places::Places;
use module_table::FileFacts;
use std::alloc::{AllocError, Global};

/// What is recorded of a name of a file, for a predicate of the file's module with this name.
/// `arity` is the predicate's arity, and `after` one more than its number. Both are 0 if nothing is
/// recorded.
#[derive(Clone, Copy)]
pub(crate) struct OwnName {
    pub arity: u32,
    pub after: u32,
}

/// The entry of a name of which nothing is recorded.
const NOTHING: OwnName = OwnName { arity: 0, after: 0 };

/// For each file, by the numbers of its names, a predicate of its own module that it defines. Of
/// several with one name the one of least number is recorded.
#[derive(Drop)]
pub(crate) struct OwnNames {
    lists: Vec<Vec<OwnName>>,
}

/// How many names of a file have an entry: those up to the last one of a predicate that it defines.
fn name_count(file: &FileFacts) -> usize {
    let mut count: usize = 0;
    for defined in &file.defined {
        count = count.max(defined.name as usize + 1);
    }
    count
}

/// For each file a list of entries in which nothing is recorded yet.
fn empty_lists(alloc: Global, files: &[FileFacts]) -> Result<Vec<Vec<OwnName>>, AllocError>
    ensures { IfOk result (λ lists. AreNothing lists.items) }
{
    let mut lists = Vec::with_capacity(alloc, files.len())?;
    for file in files {
        lists.push(vec![in alloc; NOTHING; name_count(file)]?)?;
    }
    Ok(lists)
}

/// Records the entry for the name of that number, unless one is recorded already.
fn keep(list: &mut [OwnName], number: usize, own: OwnName)
    ensures long { length list.new ≡ length list.old }
    ensures kept { (n : ℕ) → (kept_in list.new n ≡ kept_in list.old n) ⊎ ((n ≡ number) × (kept_in list.new n ≡ own)) }
{
    if number >= list.len() {
        return;
    }
    if list[number].after > 0 {
        return;
    }
    list[number] = own;
}

/// Records the entry for the name of that number in the file of that index, unless one is recorded
/// already.
fn keep_in(lists: &mut [Vec<OwnName>], file: usize, number: usize, own: OwnName)
    ensures long { length lists.new ≡ length lists.old }
    ensures kept { (f n : ℕ) → (kept_at lists.new f n ≡ kept_at lists.old f n)
        ⊎ ((f ≡ file) × (n ≡ number) × (kept_at lists.new f n ≡ own)) }
{
    if file < lists.len() {
        keep(&mut lists[file], number, own);
    }
}

/// Records the predicate of that number, which is defined at that position: the index of a file,
/// and the index in the file's `defined`. Nothing is recorded for a predicate of another module
/// than the file's.
fn keep_place(files: &[FileFacts], place: (u32, u32), node: u32, lists: &mut [Vec<OwnName>])
    requires { node < 4294967295 }
    ensures long { length lists.new ≡ length lists.old }
    ensures kept { (predicates : List PredName) → number_of predicates (name_of_part files.now (part_at place.0 place.1)) ≡ Some node
        → AreKept files.now predicates lists.old → AreKept files.now predicates lists.new }
{
    let Some(file) = files.get(place.0 as usize) else {
        return;
    };
    let Some(defined) = file.defined.get(place.1 as usize) else {
        return;
    };
    if file.names.text(defined.module) != file.module.as_str() {
        return;
    }
    let own = OwnName {
        arity: defined.arity,
        after: node + 1,
    };
    keep_in(lists, place.0 as usize, defined.name as usize, own);
}

impl OwnNames {
    /// The entries for these predicates, which are in the order of their numbers. A predicate is
    /// recorded at most in the first file that defines it.
    pub(crate) fn make(
        alloc: Global,
        files: &[FileFacts],
        predicates: &[Places],
    ) -> Result<OwnNames, AllocError>
        requires few { length predicates.now ≤ MOST_PREDICATES }
        requires in_order { AllPairs (λ p q. pred_cmp p q ≡ Less) (names_at files.now predicates.now) }
        ensures { IfOk result (AreOwn files.now (names_at files.now predicates.now)) }
    {
        let mut lists = empty_lists(alloc, files)?;
        for (node, places) in predicates.iter().enumerate() {
            let Some(first) = places.as_slice().first() else {
                continue;
            };
            keep_place(files, *first, node as u32, &mut lists);
        }
        Ok(OwnNames { lists })
    }

    /// What is recorded of the names of the file of that index, by their numbers.
    pub(crate) fn list(&self, file: u32) -> &[OwnName]
        ensures { (number : ℕ) → kept_in result.now number ≡ kept_at self.now.lists.items file number }
    {
        match self.lists.get(file as usize) {
            Some(list) => list,
            None => &[],
        }
    }

    /// What is recorded of the name of that number in the file of that index.
    pub(crate) fn get(&self, file: u32, number: u32) -> OwnName
        ensures { result ≡ kept_at self.now.lists.items file number }
    {
        let Some(list) = self.lists.get(file as usize) else {
            return NOTHING;
        };
        let Some(own) = list.get(number as usize) else {
            return NOTHING;
        };
        *own
    }
}
