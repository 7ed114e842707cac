//! What files offer to modules: the exports of those that lead, the first of their modules.

ghost use Rattle.std.specs.Prelude.{◌≡◌, ◌++◌, IfOk, OnOk, map};
ghost use Rattle.module_table.specs.Facts.{see_facts};
ghost use Rattle.import_rules.specs.Clashes.{see_item};
ghost use Rattle.import_rules.specs.KnownFiles.{IsKnownIn, IsReady, files_of, see_known};
ghost use Rattle.import_rules.specs.Offers.{offer, offers, offers_of};

use crate::item::Item;
use crate::known_file::KnownFile;
use crate::lookups::Lookups;
use module_table::FileFacts;
use std::alloc::{AllocError, Global};

/// All exports of the leading files, in the order of the files: each is an item for no module.
pub(crate) fn all_offers<'a>(
    alloc: Global,
    lookups: &Lookups<'a, '_>,
) -> Result<Vec<Item<'a>>, AllocError>
    requires { IsReady lookups.now }
    ensures { IfOk result (λ items. map see_item items.items ≡ offers (files_of lookups.now)) }
{
    let mut items = Vec::new(alloc);
    for file in &lookups.known {
        push_offers(lookups, file, &mut items)?;
    }
    Ok(items)
}

/// Adds the exports of the file if it leads.
fn push_offers<'a>(
    lookups: &Lookups<'a, '_>,
    file: &KnownFile<'a>,
    items: &mut Vec<Item<'a>>,
) -> Result<(), AllocError>
    requires { IsKnownIn (files_of lookups.now) file.now }
    ensures { OnOk result (map see_item items.new.items ≡ map see_item items.old.items ++ offers_of (files_of lookups.now) (see_known file.now)) }
{
    if !file.leads {
        return Ok(());
    }
    push_exported(file.facts, items)
}

/// Adds the exports of the file.
fn push_exported<'a>(file: &'a FileFacts, items: &mut Vec<Item<'a>>) -> Result<(), AllocError>
    ensures { OnOk result (map see_item items.new.items ≡ map see_item items.old.items ++ map (offer (see_facts file.now)) (see_facts file.now).exports) }
{
    for export in &file.exports {
        items.push(Item {
            module: "",
            name: export.name.as_str(),
            arity: export.arity,
            from_module: file.module.as_str(),
            file: file.file.as_str(),
            offset: export.from,
        })?;
    }
    Ok(())
}
