//! What imported names mean: each the predicate that an item gives.

ghost use Rattle.std.specs.Prelude.{◌≡◌, ◌≤◌, List, [], IfOk, AllPairs, length, map};
ghost use Rattle.std.specs.declared.cmp.Ordering.TheVariants.{Less};
ghost use Rattle.module_table.specs.Facts.{Facts};
ghost use Rattle.import_rules.specs.Clashes.{see_item, AreClashes, Imports};
ghost use Rattle.import_rules.specs.Files.{AreNumbered};
ghost use Rattle.import_rules.specs.Items.{foreign_items};
ghost use Rattle.import_rules.specs.KnownFiles.{AreRising};
ghost use Rattle.import_rules.specs.Meanings.{AreTargets};
ghost use Rattle.import_rules.specs.Names.{pred_cmp};
ghost use Rattle.import_rules.specs.Imported.{AreImported};
ghost use Rattle.import_rules.specs.Offers.{AreRisingItems};
ghost use Rattle.import_rules.specs.Sources.{AreSources};

use crate::check::ImportItems;
use crate::item::Item;
use crate::name_table::NameTable;
use crate::names::PredName;
use crate::predicates::Predicates;
use crate::shared_names::SharedNames;
use crate::taken_modules::TakenModules;
use prolog_tokens::Text;
use std::alloc::{AllocError, Global};

/// What modules import, for look-ups.
#[derive(Drop)]
pub(crate) struct ImportTables {
    /// The names that loads list.
    pub names: NameTable,
    /// For each of these names the number of the predicate that it means.
    pub targets: Vec<u32>,
    /// The names that files export, each without a module.
    pub offered: NameTable,
    /// For each of these names the number of a predicate that a file exports under it.
    pub sources: Vec<u32>,
    /// The names that two files export, with all who export them.
    pub shared: SharedNames,
    /// Which modules take all exports of which others.
    pub taken: TakenModules,
}

/// Imported names one after another, and for each the number of the predicate that it means.
#[derive(Drop)]
struct Sources {
    names: Vec<PredName>,
    targets: Vec<u32>,
}

/// The name that an item gives.
fn name_given(alloc: Global, item: &Item<'_>) -> Result<PredName, AllocError>
    ensures { IfOk result (λ name. name ≡ (see_item item.now).into) }
{
    Ok(PredName {
        module: Text::new(alloc, item.module)?,
        name: Text::new(alloc, item.name)?,
        arity: item.arity,
    })
}

/// The names that the items give, without those of items that give no predicate. They are in the
/// order of the items.
fn find_sources(
    alloc: Global,
    predicates: &Predicates<'_>,
    items: &[Item<'_>],
) -> Result<Sources, AllocError>
    requires predicates { AllPairs (λ p q. pred_cmp p q ≡ Less) predicates.now }
    requires items { AreRisingItems items.now }
    ensures sources { IfOk result (λ made. AreSources predicates.now (map see_item items.now) made.names.items made.targets.items) }
    ensures in_order { IfOk result (λ made. AllPairs (λ p q. pred_cmp p q ≡ Less) made.names.items) }
{
    let mut made = Sources {
        names: Vec::new(alloc),
        targets: Vec::new(alloc),
    };
    for item in items {
        let Some(target) = predicates.find(item.from_module, item.name, item.arity) else {
            continue;
        };
        made.names.push(name_given(alloc, item)?)?;
        made.targets.push(target)?;
    }
    Ok(made)
}

/// The names that the items give.
pub(crate) fn names_given(alloc: Global, items: &[Item<'_>]) -> Result<Vec<PredName>, AllocError>
    ensures { IfOk result (λ names. names.items ≡ map (λ (i : Imports). i.into) (map see_item items.now)) }
{
    let mut names = Vec::with_capacity(alloc, items.len())?;
    for item in items {
        names.push(name_given(alloc, item)?)?;
    }
    Ok(names)
}

/// What imported names mean, by the items of imports that don't clash.
pub(crate) fn find_meanings(
    alloc: Global,
    predicates: &Predicates<'_>,
    imports: ImportItems<'_>,
) -> Result<ImportTables, AllocError>
    requires predicates { AllPairs (λ p q. pred_cmp p q ≡ Less) predicates.now }
    requires kept { AreRisingItems imports.kept.items }
    requires offered { AreRisingItems imports.offered.items }
    ensures { IfOk result (λ made. (files : List Facts) → AreRising files → AreNumbered files predicates.now → AreClashes (foreign_items files) []
        → AreImported files predicates.now imports.entry → AreTargets files predicates.now made) }
{
    let kept = find_sources(alloc, predicates, &imports.kept)?;
    let offered = find_sources(alloc, predicates, &imports.offered)?;
    Ok(ImportTables {
        names: NameTable::make(alloc, kept.names)?,
        targets: kept.targets,
        offered: NameTable::make(alloc, offered.names)?,
        sources: offered.targets,
        shared: imports.shared,
        taken: imports.taken,
    })
}
