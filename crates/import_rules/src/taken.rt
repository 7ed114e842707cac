//! The import items that loads make.

ghost use Rattle.std.specs.Prelude.{◌≡◌, ◌++◌, ◌∷◌, [], map, filter, OnOk, List};
ghost use Rattle.module_table.specs.Facts.{see_facts};
ghost use Rattle.module_table.specs.Said.{see_load};
ghost use Rattle.import_rules.specs.Clashes.{see_item};
ghost use Rattle.import_rules.specs.Files.{has_export};
ghost use Rattle.import_rules.specs.Items.{is_foreign, item};
ghost use Rattle.import_rules.specs.KnownFiles.{IsKnownIn, IsReady, files_of, see_known, shared_of};
ghost use Rattle.import_rules.specs.Offers.{is_shared, kept_given};

use crate::item::Item;
use crate::known_file::KnownFile;
use crate::lookups::Lookups;
use module_table::{FileFacts, Indicator, Load, LoadKind};
use std::alloc::AllocError;

/// Adds an item for each export of the file that the load lists, or whose name is shared if the load
/// takes all, except for local predicates. Nothing is added if the file doesn't lead, or is of the
/// user's own module.
pub(crate) fn push_given<'a>(
    lookups: &Lookups<'a, '_>,
    user: &'a FileFacts,
    load: &'a Load,
    file: &KnownFile<'a>,
    items: &mut Vec<Item<'a>>,
) -> Result<(), AllocError>
    requires ready { IsReady lookups.now }
    requires known { IsKnownIn (files_of lookups.now) file.now }
    ensures { OnOk result (map see_item items.new.items ≡ map see_item items.old.items
        ++ filter (is_foreign (files_of lookups.now))
        (kept_given (files_of lookups.now) (shared_of lookups.now) (see_facts user.now) (see_load load.now) (see_known file.now))) }
{
    if !file.leads {
        return Ok(());
    }
    if file.facts.module == user.module {
        return Ok(());
    }
    if load.kind == LoadKind::UseSome {
        return push_listed(lookups, user, load, file, items);
    }
    push_exports(lookups, user, load, file.facts, items)
}

/// Adds an item for each indicator of the load that the file exports.
fn push_listed<'a>(
    lookups: &Lookups<'a, '_>,
    user: &'a FileFacts,
    load: &'a Load,
    file: &KnownFile<'a>,
    items: &mut Vec<Item<'a>>,
) -> Result<(), AllocError>
    requires ready { IsReady lookups.now }
    requires known { IsKnownIn (files_of lookups.now) file.now }
    ensures { OnOk result (map see_item items.new.items ≡ map see_item items.old.items
        ++ filter (is_foreign (files_of lookups.now))
        (map (λ i. item (see_facts user.now) (see_known file.now) i.from i) (filter (has_export (see_known file.now)) load.now.items.items))) }
{
    for indicator in &load.items {
        if !file.has_export(indicator) {
            continue;
        }
        let item = make_item(user, file.facts, indicator, indicator.from);
        push_item(lookups, item, items)?;
    }
    Ok(())
}

/// Adds an item for each export of the file whose name is shared.
fn push_exports<'a>(
    lookups: &Lookups<'a, '_>,
    user: &'a FileFacts,
    load: &Load,
    file: &'a FileFacts,
    items: &mut Vec<Item<'a>>,
) -> Result<(), AllocError>
    requires ready { IsReady lookups.now }
    ensures { OnOk result (map see_item items.new.items ≡ map see_item items.old.items
        ++ filter (is_foreign (files_of lookups.now)) (map (item (see_facts user.now) (see_facts file.now) load.now.from)
        (filter (is_shared (shared_of lookups.now)) (see_facts file.now).exports))) }
{
    for export in &file.exports {
        if !lookups.is_shared(export) {
            continue;
        }
        let item = make_item(user, file, export, load.from);
        push_item(lookups, item, items)?;
    }
    Ok(())
}

/// The item by which the user's module imports the indicator from the file's module. The offset is
/// that of the load or of the indicator in its list.
fn make_item<'a>(
    user: &'a FileFacts,
    file: &'a FileFacts,
    indicator: &'a Indicator,
    offset: u32,
) -> Item<'a>
    ensures { see_item result ≡ item (see_facts user.now) (see_facts file.now) offset indicator.now }
{
    Item {
        module: user.module.as_str(),
        name: indicator.name.as_str(),
        arity: indicator.arity,
        from_module: file.module.as_str(),
        file: user.file.as_str(),
        offset,
    }
}

/// Adds the item, unless a file defines a predicate of that name for the importing module.
fn push_item<'a>(
    lookups: &Lookups<'a, '_>,
    item: Item<'a>,
    items: &mut Vec<Item<'a>>,
) -> Result<(), AllocError>
    requires { IsReady lookups.now }
    ensures { OnOk result (map see_item items.new.items
        ≡ map see_item items.old.items ++ filter (is_foreign (files_of lookups.now)) (see_item item.entry ∷ [])) }
{
    if lookups.is_local(item.module, item.name, item.arity) {
        return Ok(());
    }
    items.push(item)?;
    Ok(())
}
