//! The names that are imported, and those that are imported from two modules.

ghost use Rattle.std.specs.Prelude.{◌≡◌, ◌++◌, IfOk, OnOk, map, find, option_to_list};
ghost use Rattle.module_table.specs.Kinds.{first_of};
ghost use Rattle.import_rules.specs.Clashes.{see_item, first_other, from_another, AreClashes, AreFirsts};

use crate::item::{Item, compare, is_same};
use std::alloc::{AllocError, Global};

/// One item for each name that is imported, and one for each name that is imported from two
/// modules. Both lists are in order of the names.
#[derive(Drop)]
pub(crate) struct Imported<'a> {
    pub firsts: Vec<Item<'a>>,
    pub clashes: Vec<Item<'a>>,
}

/// For each name the first item that gives it, and the first one that gives it from another module
/// than that.
pub(crate) fn find_imports<'a>(
    alloc: Global,
    mut items: Vec<Item<'a>>,
) -> Result<Imported<'a>, AllocError>
    ensures firsts { IfOk result (λ found. AreFirsts (map see_item items.entry.items) (map see_item found.firsts.items)) }
    ensures clashes { IfOk result (λ found. AreClashes (map see_item items.entry.items) (map see_item found.clashes.items)) }
{
    items.sort_by(|a, b| compare(a, b))?;
    let mut found = Imported {
        firsts: Vec::new(alloc),
        clashes: Vec::new(alloc),
    };
    for run in items.chunk_by(|a, b| is_same(a, b)) {
        add(run, &mut found)?;
    }
    Ok(found)
}

/// Adds the first of the items, which all give one name, and the first one from another module if
/// there is one.
fn add<'a>(run: &[Item<'a>], found: &mut Imported<'a>) -> Result<(), AllocError>
    ensures firsts { OnOk result (map see_item found.new.firsts.items
        ≡ map see_item found.old.firsts.items ++ option_to_list (first_of (map see_item run.now))) }
    ensures clashes { OnOk result (map see_item found.new.clashes.items
        ≡ map see_item found.old.clashes.items ++ option_to_list (first_other (map see_item run.now))) }
{
    let Some((first, others)) = run.split_first() else {
        return Ok(());
    };
    found.firsts.push(*first)?;
    let Some(other) = other_module(first.from_module, others) else {
        return Ok(());
    };
    found.clashes.push(other)?;
    Ok(())
}

/// The first of the items that is from another module than `from_module`.
fn other_module<'a>(from_module: &str, items: &[Item<'a>]) -> Option<Item<'a>>
    ensures { result ≡ find (from_another from_module.now) items.now }
{
    items
        .iter()
        .copied()
        .find(|item| item.from_module != from_module)
}
