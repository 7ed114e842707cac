//! Which modules take all exports of which others.

ghost use Rattle.std.specs.Prelude.{◌≡◌, ◌≢◌, ◌<◌, ◌↔◌, ℕ, true, false, AllPairs, IfOk, IfSome, IsTrue, MatchOption, Some, length, map, slice_get};
ghost use Rattle.std.specs.List.{list_any};
ghost use Rattle.std.specs.declared.cmp.Ordering.TheVariants.{Less};
ghost use Rattle.import_rules.specs.Clashes.{see_item};
ghost use Rattle.import_rules.specs.KnownFiles.{IsReady, files_of};
ghost use Rattle.import_rules.specs.Names.{is_same, pred_cmp};
ghost use Rattle.import_rules.specs.TakenModules.{AreMarked, AreTaken, AreUnmarked, HaveSize, IsTaken, marked_at, marked_in, module_item, module_name};

use crate::clash::find_imports;
use crate::import_tables::names_given;
use crate::item::Item;
use crate::lookups::Lookups;
use crate::name_table::{NameTable, name_hash};
use crate::pairs::all_pairs;
use std::alloc::{AllocError, Global};

/// For each module the others all of whose exports it takes. A table of marks has a row and a column
/// for each module, at most a mebibyte in all. So it's one step to ask for two modules by their
/// indices.
#[derive(Drop)]
pub(crate) struct TakenModules {
    /// The modules of all files, each as the empty name of that module.
    modules: NameTable,
    /// For each module, by the indices of all, whether it takes all exports of that one.
    rows: Vec<Vec<bool>>,
}

/// An item for each file, whose name is made of the file's module alone.
fn module_items<'a>(alloc: Global, lookups: &Lookups<'a, '_>) -> Result<Vec<Item<'a>>, AllocError>
    ensures { IfOk result (λ items. map see_item items.items ≡ map module_item (files_of lookups.now)) }
{
    let mut items = Vec::with_capacity(alloc, lookups.known.len())?;
    for file in &lookups.known {
        items.push(Item {
            module: file.facts.module.as_str(),
            name: "",
            arity: 0,
            from_module: "",
            file: file.facts.file.as_str(),
            offset: 0,
        })?;
    }
    Ok(items)
}

/// So many rows of so many marks, none of which is set.
fn empty_rows(alloc: Global, size: usize) -> Result<Vec<Vec<bool>>, AllocError>
    ensures size { IfOk result (λ rows. HaveSize size rows.items) }
    ensures none { IfOk result (λ rows. AreUnmarked rows.items) }
{
    let mut rows = Vec::with_capacity(alloc, size)?;
    for _ in 0..size {
        rows.push(vec![in alloc; false; size]?)?;
    }
    Ok(rows)
}

/// Sets the mark at that index.
fn set(row: &mut [bool], from: usize)
    requires { from < length row.old }
    ensures long { length row.new ≡ length row.old }
    ensures here { marked_in row.new from ≡ true }
    ensures others { (n : ℕ) → n ≢ from → marked_in row.new n ≡ marked_in row.old n }
{
    row[from] = true;
}

/// Sets the mark in the row of one index at the other index.
fn mark(rows: &mut [Vec<bool>], size: usize, user: usize, from: usize)
    requires size { HaveSize size rows.old }
    requires user { user < size }
    requires from { from < size }
    ensures size { HaveSize size rows.new }
    ensures here { marked_at rows.new user from ≡ true }
    ensures others { (u n : ℕ) → ((u ≡ user) × (n ≡ from) → ⊥) → marked_at rows.new u n ≡ marked_at rows.old u n }
{
    set(&mut rows[user], from);
}

/// The index of a module, or `None` if it is that of no file.
fn place_of(modules: &NameTable, module: &str) -> Option<usize>
    ensures is { MatchOption result
        (list_any (is_same (module_name module.now)) modules.now ≡ false)
        (λ n. slice_get modules.now n ≡ Some (module_name module.now)) }
    ensures below { IfSome result (λ n. n < length modules.now) }
{
    modules.find(module, "", 0, name_hash(module, "", 0))
}

/// The marks of these items, each of which names two modules.
fn marked_rows(
    alloc: Global,
    modules: &NameTable,
    size: usize,
    pairs: &[Item<'_>],
) -> Result<Vec<Vec<bool>>, AllocError>
    requires in_order { AllPairs (λ p q. pred_cmp p q ≡ Less) modules.now }
    requires size { size ≡ length modules.now }
    ensures { IfOk result (λ rows. AreMarked modules.now (map see_item pairs.now) rows.items) }
{
    let mut rows = empty_rows(alloc, size)?;
    for pair in pairs {
        let Some(user) = place_of(modules, pair.module) else {
            continue;
        };
        let Some(from) = place_of(modules, pair.name) else {
            continue;
        };
        mark(&mut rows, size, user, from);
    }
    Ok(rows)
}

impl TakenModules {
    /// Which modules of the files take all exports of which others.
    pub(crate) fn make(alloc: Global, lookups: &Lookups<'_, '_>) -> Result<TakenModules, AllocError>
        requires { IsReady lookups.now }
        ensures { IfOk result (AreTaken (files_of lookups.now)) }
    {
        let items = module_items(alloc, lookups)?;
        let found = find_imports(alloc, items)?;
        let names = names_given(alloc, &found.firsts)?;
        let size = names.len();
        let modules = NameTable::make(alloc, names)?;
        let pairs = all_pairs(alloc, lookups)?;
        let rows = marked_rows(alloc, &modules, size, &pairs)?;
        Ok(TakenModules { modules, rows })
    }

    /// The index of a module, or `None` if it is that of no file.
    pub(crate) fn place(&self, module: &str) -> Option<usize>
        ensures { MatchOption result
            (list_any (is_same (module_name module.now)) self.now.modules ≡ false)
            (λ n. slice_get self.now.modules n ≡ Some (module_name module.now)) }
    {
        place_of(&self.modules, module)
    }

    /// Whether the module of one index takes all exports of the module of the other.
    pub(crate) fn has_at(&self, user: usize, from: usize) -> bool
        ensures { result ≡ marked_at self.now.rows.items user from }
    {
        let Some(row) = self.rows.get(user) else {
            return false;
        };
        let Some(mark) = row.get(from) else {
            return false;
        };
        *mark
    }

    /// Whether the module takes all exports of the other one.
    pub(crate) fn has(&self, module: &str, other: &str) -> bool
        requires { AllPairs (λ p q. pred_cmp p q ≡ Less) self.now.modules }
        ensures { IsTrue result ↔ IsTaken self.now module.now other.now }
    {
        let Some(user) = self.place(module) else {
            return false;
        };
        let Some(from) = self.place(other) else {
            return false;
        };
        self.has_at(user, from)
    }
}
