//! The import errors and the import items, file by file.

ghost use Rattle.std.specs.Prelude.{◌≡◌, ◌++◌, [], map, filter, flat_map, IfOk, OnOk};
ghost use Rattle.module_table.specs.Facts.{see_facts};
ghost use Rattle.module_table.specs.Said.{see_load};
ghost use Rattle.import_rules.specs.Clashes.{see_item};
ghost use Rattle.import_rules.specs.Findings.{see_findings};
ghost use Rattle.import_rules.specs.Flaws.{file_flaws, load_flaws};
ghost use Rattle.import_rules.specs.Items.{is_foreign};
ghost use Rattle.import_rules.specs.KnownFiles.{IsKnownIn, IsReady, absent_of, files_of, see_known, shared_of};
ghost use Rattle.import_rules.specs.Offers.{kept_items, kept_of_load};

use crate::finding::Finding;
use crate::flaws::{push_absent_flaws, push_export_flaws, push_module_flaws, push_use_flaws};
use crate::item::Item;
use crate::known_file::KnownFile;
use crate::lookups::Lookups;
use crate::taken::push_given;
use module_table::{FileFacts, Load, LoadKind};
use std::alloc::{AllocError, Global};

/// All errors except clashes, and the import items that loads list. The latter are of predicates that
/// no file defines under the imported name.
#[derive(Drop)]
pub(crate) struct Gathered<'a> {
    pub flaws: Vec<Finding<'a>>,
    pub items: Vec<Item<'a>>,
}

/// The errors and the listed import items of all files, in the order of the files.
pub(crate) fn gather<'a>(
    alloc: Global,
    lookups: &Lookups<'a, '_>,
) -> Result<Gathered<'a>, AllocError>
    requires { IsReady lookups.now }
    ensures flaws { IfOk result (λ found. see_findings found.flaws.items
        ≡ flat_map (file_flaws (files_of lookups.now) (absent_of lookups.now)) (files_of lookups.now)) }
    ensures items { IfOk result (λ found. map see_item found.items.items ≡ kept_items (files_of lookups.now) []) }
{
    let mut found = Gathered {
        flaws: Vec::new(alloc),
        items: Vec::new(alloc),
    };
    for file in &lookups.known {
        push_file(lookups, file, &mut found)?;
    }
    Ok(found)
}

/// Adds the errors and the listed import items of one file.
fn push_file<'a>(
    lookups: &Lookups<'a, '_>,
    file: &KnownFile<'a>,
    found: &mut Gathered<'a>,
) -> Result<(), AllocError>
    requires ready { IsReady lookups.now }
    requires known { IsKnownIn (files_of lookups.now) file.now }
    ensures flaws { OnOk result (see_findings found.new.flaws.items ≡ see_findings found.old.flaws.items
        ++ file_flaws (files_of lookups.now) (absent_of lookups.now) (see_known file.now)) }
    ensures items { OnOk result (map see_item found.new.items.items ≡ map see_item found.old.items.items
        ++ filter (is_foreign (files_of lookups.now))
        (flat_map (kept_of_load (files_of lookups.now) [] (see_known file.now)) (see_known file.now).loads)) }
{
    push_module_flaws(file, &mut found.flaws)?;
    push_export_flaws(lookups, file.facts, &mut found.flaws)?;
    for load in &file.facts.loads {
        push_load_flaws(lookups, file.facts, load, &mut found.flaws)?;
        push_listed_items(lookups, file.facts, load, &mut found.items)?;
    }
    Ok(())
}

/// Adds the errors of one load.
fn push_load_flaws<'a>(
    lookups: &Lookups<'a, '_>,
    user: &'a FileFacts,
    load: &'a Load,
    flaws: &mut Vec<Finding<'a>>,
) -> Result<(), AllocError>
    requires { IsReady lookups.now }
    ensures { OnOk result (see_findings flaws.new.items ≡ see_findings flaws.old.items
        ++ load_flaws (files_of lookups.now) (absent_of lookups.now) (see_facts user.now) (see_load load.now)) }
{
    push_absent_flaws(lookups, user, load, flaws)?;
    let Some(file) = lookups.file(&load.file) else {
        return Ok(());
    };
    push_use_flaws(user, load, file, flaws)
}

/// Adds the import items that one load lists.
fn push_listed_items<'a>(
    lookups: &Lookups<'a, '_>,
    user: &'a FileFacts,
    load: &'a Load,
    items: &mut Vec<Item<'a>>,
) -> Result<(), AllocError>
    requires { IsReady lookups.now }
    ensures { OnOk result (map see_item items.new.items ≡ map see_item items.old.items
        ++ filter (is_foreign (files_of lookups.now)) (kept_of_load (files_of lookups.now) [] (see_facts user.now) (see_load load.now))) }
{
    if load.kind != LoadKind::UseSome {
        return Ok(());
    }
    push_load_items(lookups, user, load, items)
}

/// Adds the import items of one load that lists them, or those of shared names if it takes all
/// exports. If its file isn't there, it has none.
pub(crate) fn push_load_items<'a>(
    lookups: &Lookups<'a, '_>,
    user: &'a FileFacts,
    load: &'a Load,
    items: &mut Vec<Item<'a>>,
) -> Result<(), AllocError>
    requires { IsReady lookups.now }
    ensures { OnOk result (map see_item items.new.items ≡ map see_item items.old.items
        ++ filter (is_foreign (files_of lookups.now)) (kept_of_load (files_of lookups.now) (shared_of lookups.now) (see_facts user.now) (see_load load.now))) }
{
    let Some(file) = lookups.file(&load.file) else {
        return Ok(());
    };
    push_given(lookups, user, load, file, items)
}
