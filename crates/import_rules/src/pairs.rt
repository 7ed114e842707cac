//! Which modules take all exports of which others.

ghost use Rattle.std.specs.Prelude.{◌≡◌, ◌++◌, flat_map, map, IfOk, OnOk};
ghost use Rattle.module_table.specs.Facts.{see_facts};
ghost use Rattle.module_table.specs.Said.{see_load};
ghost use Rattle.import_rules.specs.Clashes.{see_item};
ghost use Rattle.import_rules.specs.KnownFiles.{IsReady, files_of};
ghost use Rattle.import_rules.specs.Offers.{all_pairs, pairs_of_load};

use crate::item::Item;
use crate::lookups::Lookups;
use module_table::{FileFacts, Load, LoadKind};
use std::alloc::{AllocError, Global};

/// An item for each load that takes all exports of a file. Its name is made of the modules of the
/// user and of the file.
pub(crate) fn all_pairs<'a>(
    alloc: Global,
    lookups: &Lookups<'a, '_>,
) -> Result<Vec<Item<'a>>, AllocError>
    requires { IsReady lookups.now }
    ensures { IfOk result (λ items. map see_item items.items ≡ all_pairs (files_of lookups.now)) }
{
    let mut items = Vec::new(alloc);
    for file in &lookups.known {
        push_pairs(lookups, file.facts, &mut items)?;
    }
    Ok(items)
}

/// Adds the items of one file.
fn push_pairs<'a>(
    lookups: &Lookups<'a, '_>,
    user: &'a FileFacts,
    items: &mut Vec<Item<'a>>,
) -> Result<(), AllocError>
    requires { IsReady lookups.now }
    ensures { OnOk result (map see_item items.new.items ≡ map see_item items.old.items
        ++ flat_map (pairs_of_load (files_of lookups.now) (see_facts user.now)) (see_facts user.now).loads) }
{
    for load in &user.loads {
        push_pair(lookups, user, load, items)?;
    }
    Ok(())
}

/// Adds an item if the load takes all exports of a leading file of another module.
fn push_pair<'a>(
    lookups: &Lookups<'a, '_>,
    user: &'a FileFacts,
    load: &Load,
    items: &mut Vec<Item<'a>>,
) -> Result<(), AllocError>
    requires { IsReady lookups.now }
    ensures { OnOk result (map see_item items.new.items ≡ map see_item items.old.items
        ++ pairs_of_load (files_of lookups.now) (see_facts user.now) (see_load load.now)) }
{
    let Some(file) = lookups.file(&load.file) else {
        return Ok(());
    };
    if load.kind == LoadKind::UseSome {
        return Ok(());
    }
    if !file.leads {
        return Ok(());
    }
    let facts = file.facts;
    if facts.module == user.module {
        return Ok(());
    }
    items.push(Item {
        module: user.module.as_str(),
        name: facts.module.as_str(),
        arity: 0,
        from_module: facts.module.as_str(),
        file: user.file.as_str(),
        offset: load.from,
    })?;
    Ok(())
}
