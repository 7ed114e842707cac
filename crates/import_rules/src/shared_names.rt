//! The names that two files export.

ghost use Rattle.std.specs.Prelude.{◌≡◌, ◌<◌, ◌++◌, ◌∷◌, ◌≢◌, ℕ, [], true, false, All, AllPairs, Contains, IfOk, OnOk, MatchOption, length, map};
ghost use Rattle.std.specs.declared.cmp.Ordering.TheVariants.{Less};
ghost use Rattle.import_rules.specs.Clashes.{see_item, Imports};
ghost use Rattle.import_rules.specs.KnownFiles.{IsReady, files_of, shared_of};
ghost use Rattle.import_rules.specs.Names.{pred_cmp};
ghost use Rattle.import_rules.specs.Offers.{offers};
ghost use Rattle.import_rules.specs.SharedNames.{AreExporters, exporters_at};
ghost use Rattle.import_rules.specs.TakenModules.{marked_at};

use crate::import_tables::names_given;
use crate::item::Item;
use crate::lookups::Lookups;
use crate::name_table::{NameTable, name_hash};
use crate::offers::all_offers;
use crate::predicates::Predicates;
use crate::taken_modules::TakenModules;
use std::alloc::{AllocError, Global};

/// A module that exports a name, by its index, and the number of the predicate that it exports.
#[derive(Clone, Copy)]
pub(crate) struct Exporter {
    pub from: usize,
    pub source: u32,
}

/// The names that two files export, each without a module, and for each all modules that export it.
/// There are at most as many as files.
#[derive(Drop)]
pub(crate) struct SharedNames {
    pub names: NameTable,
    pub exporters: Vec<Vec<Exporter>>,
}

/// So many lists without exporters.
fn empty_lists(alloc: Global, size: usize) -> Result<Vec<Vec<Exporter>>, AllocError>
    ensures long { IfOk result (λ lists. length lists.items ≡ size) }
    ensures empty { IfOk result (λ lists. (n : ℕ) → exporters_at lists.items n ≡ []) }
{
    let mut lists = Vec::with_capacity(alloc, size)?;
    for _ in 0..size {
        lists.push(Vec::new(alloc))?;
    }
    Ok(lists)
}

/// Adds an exporter to the list.
fn push(list: &mut Vec<Exporter>, exporter: Exporter) -> Result<(), AllocError>
    ensures { OnOk result (list.new.items ≡ list.old.items ++ exporter ∷ []) }
{
    list.push(exporter)?;
    Ok(())
}

/// Adds an exporter to the list of that index.
fn push_at(lists: &mut [Vec<Exporter>], at: usize, exporter: Exporter) -> Result<(), AllocError>
    requires { at < length lists.old }
    ensures long { OnOk result (length lists.new ≡ length lists.old) }
    ensures here { OnOk result (exporters_at lists.new at ≡ exporters_at lists.old at ++ exporter ∷ []) }
    ensures others { OnOk result ((n : ℕ) → n ≢ at → exporters_at lists.new n ≡ exporters_at lists.old n) }
{
    push(&mut lists[at], exporter)?;
    Ok(())
}

/// The exporters of each name, by the items of what files offer.
fn exporters_of(
    alloc: Global,
    predicates: &Predicates<'_>,
    taken: &TakenModules,
    names: &NameTable,
    size: usize,
    offers: &[Item<'_>],
) -> Result<Vec<Vec<Exporter>>, AllocError>
    requires predicates { AllPairs (λ p q. pred_cmp p q ≡ Less) predicates.now }
    requires names { AllPairs (λ p q. pred_cmp p q ≡ Less) names.now }
    requires modules { AllPairs (λ p q. pred_cmp p q ≡ Less) taken.now.modules }
    requires size { size ≡ length names.now }
    ensures { IfOk result (λ lists. AreExporters taken.now.modules predicates.now (map see_item offers.now) names.now lists.items) }
{
    let mut lists = empty_lists(alloc, size)?;
    for offer in offers {
        let hash = name_hash(offer.module, offer.name, offer.arity);
        let Some(at) = names.find(offer.module, offer.name, offer.arity, hash) else {
            continue;
        };
        let Some(source) = predicates.find(offer.from_module, offer.name, offer.arity) else {
            continue;
        };
        let Some(from) = taken.place(offer.from_module) else {
            continue;
        };
        push_at(&mut lists, at, Exporter { from, source })?;
    }
    Ok(lists)
}

impl SharedNames {
    /// The shared names of the files with their exporters.
    pub(crate) fn make(
        alloc: Global,
        lookups: &Lookups<'_, '_>,
        taken: &TakenModules,
    ) -> Result<SharedNames, AllocError>
        requires ready { IsReady lookups.now }
        requires modules { AllPairs (λ p q. pred_cmp p q ≡ Less) taken.now.modules }
        ensures names { IfOk result (λ made. made.names ≡ map (λ (i : Imports). i.into) (shared_of lookups.now)) }
        ensures exporters { IfOk result (λ made.
            AreExporters taken.now.modules lookups.now.predicates.now (offers (files_of lookups.now)) made.names made.exporters.items) }
    {
        let shared = names_given(alloc, &lookups.shared)?;
        let size = shared.len();
        let names = NameTable::make(alloc, shared)?;
        let offers = all_offers(alloc, lookups)?;
        let exporters = exporters_of(alloc, lookups.predicates, taken, &names, size, &offers)?;
        Ok(SharedNames { names, exporters })
    }

    /// The number of the predicate that the module of an index takes under the name of another one:
    /// that of the first exporter that the module takes.
    pub(crate) fn taken_at(&self, at: usize, user: usize, taken: &TakenModules) -> Option<u32>
        ensures { MatchOption result
            (All (λ (e : Exporter). marked_at taken.now.rows.items user e.from ≡ false) (exporters_at self.now.exporters.items at))
            (λ source. (e : Exporter) × Contains (exporters_at self.now.exporters.items at) e × (e.source ≡ source)
            × (marked_at taken.now.rows.items user e.from ≡ true)) }
    {
        let Some(exporters) = self.exporters.get(at) else {
            return None;
        };
        for exporter in exporters {
            if taken.has_at(user, exporter.from) {
                return Some(exporter.source);
            }
        }
        None
    }
}
