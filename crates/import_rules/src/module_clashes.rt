//! The names that a module imports from two others, module by module.

ghost use Rattle.std.specs.Prelude.{◌≡◌, ◌++◌, ℕ, List, All, IfOk, OnOk, map, filter, flat_map};
ghost use Rattle.std.specs.BTreeSet.{contains};
ghost use Rattle.std.specs.Cmp.Lexicographic.{slice_cmp};
ghost use Rattle.std.specs.List.Sorted.{IsSortedByKey};
ghost use Rattle.std.specs.Ordering.{nat_cmp};
ghost use Rattle.std.specs.Str.{bytes_eq};
ghost use Rattle.module_table.specs.Facts.{see_facts};
ghost use Rattle.import_rules.specs.Clashes.{see_item, AreClashes, Imports};
ghost use Rattle.import_rules.specs.Enough.{AreEnough, AreGathered};
ghost use Rattle.import_rules.specs.Items.{is_foreign};
ghost use Rattle.import_rules.specs.KnownFiles.{IsReady, files_of, shared_of};
ghost use Rattle.import_rules.specs.ModuleClashes.{is_of, kept_of_users, module_of, see_user};
ghost use Rattle.import_rules.specs.declared.module_clashes.User.{User};
ghost use Rattle.import_rules.specs.Offers.{kept_items, kept_of_load};

use crate::clash::find_imports;
use crate::gather::push_load_items;
use crate::item::Item;
use crate::lookups::Lookups;
use module_table::{FileFacts, LoadKind};
use prolog_tokens::Text;
use std::alloc::{AllocError, Global};
use std::cmp::Ordering;
use std::collections::BTreeSet;

/// A file, as one that takes exports of others.
#[derive(Clone, Copy)]
struct User<'a> {
    file: &'a FileFacts,
}

/// The order of files by their modules.
fn compare(a: &User<'_>, b: &User<'_>) -> Ordering
    ensures { result ≡ slice_cmp nat_cmp (module_of a.now) (module_of b.now) }
{
    a.file.module.cmp(&b.file.module)
}

/// Whether the files are of one module.
fn is_same(a: &User<'_>, b: &User<'_>) -> bool
    ensures { result ≡ bytes_eq (module_of a.now) (module_of b.now) }
{
    a.file.module == b.file.module
}

/// The files in order of their modules. Those of one module stay in order.
fn by_module<'a>(alloc: Global, lookups: &Lookups<'a, '_>) -> Result<Vec<User<'a>>, AllocError>
    ensures sorted { IfOk result (λ users. IsSortedByKey module_of (slice_cmp nat_cmp) users.items) }
    ensures same { IfOk result (λ users. (own : List ℕ) → filter (is_of own) (map see_user users.items) ≡ filter (is_of own) (files_of lookups.now)) }
{
    let mut users = Vec::with_capacity(alloc, lookups.known.len())?;
    for file in &lookups.known {
        users.push(User { file: file.facts })?;
    }
    users.sort_by(|a, b| compare(a, b))?;
    Ok(users)
}

/// Adds the import items of a file. `whole` are the files of which its module took all exports
/// before: a load of all exports of one of these adds no items, since they would change no clash.
fn push_user<'a>(
    alloc: Global,
    lookups: &Lookups<'a, '_>,
    user: &'a FileFacts,
    whole: &mut BTreeSet<Text>,
    items: &mut Vec<Item<'a>>,
) -> Result<(), AllocError>
    requires { IsReady lookups.now }
    ensures { OnOk result ((before : List Imports)
        → AreGathered (files_of lookups.now) (shared_of lookups.now) (see_facts user.now).module_ before (map see_item items.old.items)
        (contains (slice_cmp nat_cmp) whole.old)
        → AreGathered (files_of lookups.now) (shared_of lookups.now) (see_facts user.now).module_ (before
        ++ filter (is_foreign (files_of lookups.now))
        (flat_map (kept_of_load (files_of lookups.now) (shared_of lookups.now) (see_facts user.now)) (see_facts user.now).loads))
        (map see_item items.new.items) (contains (slice_cmp nat_cmp) whole.new)) }
{
    for load in &user.loads {
        if load.kind == LoadKind::UseSome {
            push_load_items(lookups, user, load, items)?;
            continue;
        }
        if whole.contains(&load.file) {
            continue;
        }
        push_load_items(lookups, user, load, items)?;
        whole.insert(Text::new(alloc, load.file.as_str())?)?;
    }
    Ok(())
}

/// The import items of the files of one module, without those that change no clash.
fn items_of<'a>(
    alloc: Global,
    lookups: &Lookups<'a, '_>,
    users: &[User<'a>],
) -> Result<Vec<Item<'a>>, AllocError>
    requires ready { IsReady lookups.now }
    requires one { (own : List ℕ) × All (λ (u : User). module_of u ≡ own) users.now }
    ensures { IfOk result (λ items. AreEnough (kept_of_users (files_of lookups.now) (shared_of lookups.now) (map see_user users.now))
        (map see_item items.items)) }
{
    let mut whole = BTreeSet::new(alloc);
    let mut items = Vec::new(alloc);
    for user in users {
        push_user(alloc, lookups, user.file, &mut whole, &mut items)?;
    }
    Ok(items)
}

/// Adds the clashes of the files of one module.
fn push_clashes<'a>(
    alloc: Global,
    lookups: &Lookups<'a, '_>,
    users: &[User<'a>],
    clashes: &mut Vec<Item<'a>>,
) -> Result<(), AllocError>
    requires ready { IsReady lookups.now }
    requires one { (own : List ℕ) × All (λ (u : User). module_of u ≡ own) users.now }
    ensures { OnOk result ((found : List Imports) × AreClashes (kept_of_users (files_of lookups.now) (shared_of lookups.now) (map see_user users.now)) found
        × (map see_item clashes.new.items ≡ map see_item clashes.old.items ++ found)) }
{
    let items = items_of(alloc, lookups, users)?;
    let mut found = find_imports(alloc, items)?;
    clashes.append(&mut found.clashes)?;
    Ok(())
}

/// For each module and each name that it imports from two others, the first item that gives it from
/// another module than the first one does. The items of one module at a time are in memory.
pub(crate) fn all_clashes<'a>(
    alloc: Global,
    lookups: &Lookups<'a, '_>,
) -> Result<Vec<Item<'a>>, AllocError>
    requires { IsReady lookups.now }
    ensures { IfOk result (λ clashes. AreClashes (kept_items (files_of lookups.now) (shared_of lookups.now)) (map see_item clashes.items)) }
{
    let users = by_module(alloc, lookups)?;
    let mut clashes = Vec::new(alloc);
    for run in users.chunk_by(|a, b| is_same(a, b)) {
        push_clashes(alloc, lookups, run, &mut clashes)?;
    }
    Ok(clashes)
}
