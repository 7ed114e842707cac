//! The loaded files, indexed for look-ups.

ghost use Rattle.std.specs.Prelude.{◌≡◌, ◌&&◌, ◌||◌, not, ℕ, List, IfOk, IfSome, OnOk, All, Contains, map, option_map};
ghost use Rattle.std.specs.List.Sorted.{IsPermutation, IsSortedByKey};
ghost use Rattle.std.specs.Ordering.{nat_cmp};
ghost use Rattle.std.specs.Cmp.Lexicographic.{slice_cmp};
ghost use Rattle.std.specs.BTreeSet.{contains};
ghost use Rattle.module_table.specs.Facts.{see_facts};
ghost use Rattle.import_rules.specs.Files.{file_named, has_export};
ghost use Rattle.import_rules.specs.KnownFiles.{AreExports, AreKnown, AreRising, declares, indicator_cmp, indicators_of, see_known};

use module_table::{FileFacts, Indicator};
use prolog_tokens::Text;
use std::alloc::{AllocError, Global};
use std::cmp::Ordering;
use std::collections::BTreeSet;

/// A loaded file, with its exports in order of name and arity. It leads if it declares a module
/// that no file of lesser name declares.
#[derive(Drop)]
pub(crate) struct KnownFile<'a> {
    pub facts: &'a FileFacts,
    pub exports: Vec<&'a Indicator>,
    pub leads: bool,
}

/// The files, in order of name, each indexed for look-ups.
pub(crate) fn known_files<'a>(
    alloc: Global,
    files: &'a [FileFacts],
) -> Result<Vec<KnownFile<'a>>, AllocError>
    requires { AreRising (map see_facts files.now) }
    ensures { IfOk result (λ known. AreKnown (map see_facts files.now) known.items) }
{
    let mut declared = BTreeSet::new(alloc);
    let mut known = Vec::new(alloc);
    for file in files {
        let leads = declare(alloc, file, &mut declared)?;
        let exports = in_order(alloc, &file.exports)?;
        known.push(KnownFile {
            facts: file,
            exports,
            leads,
        })?;
    }
    Ok(known)
}

/// Adds the module of a module file to those that are declared. Returns whether it is a new one.
fn declare(
    alloc: Global,
    file: &FileFacts,
    declared: &mut BTreeSet<Text>,
) -> Result<bool, AllocError>
    ensures new { IfOk result (λ leads. leads
        ≡ ((see_facts file.now).is_module && not (contains (slice_cmp nat_cmp) declared.old (see_facts file.now).module_))) }
    ensures more { OnOk result ((own : List ℕ) → contains (slice_cmp nat_cmp) declared.new own
        ≡ (contains (slice_cmp nat_cmp) declared.old own || declares own (see_facts file.now))) }
{
    if !file.is_module {
        return Ok(false);
    }
    Ok(declared.insert(Text::new(alloc, file.module.as_str())?)?)
}

/// The indicators in order of name and arity.
fn in_order<'a>(
    alloc: Global,
    indicators: &'a [Indicator],
) -> Result<Vec<&'a Indicator>, AllocError>
    ensures sorted { IfOk result (λ sorted. IsSortedByKey (λ i. i.now) indicator_cmp sorted.items) }
    ensures moved { IfOk result (λ sorted. IsPermutation indicators.now (indicators_of sorted.items)) }
{
    let mut sorted = Vec::new(alloc);
    for indicator in indicators {
        sorted.push(indicator)?;
    }
    sorted.sort_by(|a, b| compare(a, b))?;
    Ok(sorted)
}

/// The order of indicators: by name, then by arity.
fn compare(a: &Indicator, b: &Indicator) -> Ordering
    ensures { result ≡ indicator_cmp a.now b.now }
{
    a.name.cmp(&b.name).then(a.arity.cmp(&b.arity))
}

impl<'a> KnownFile<'a> {
    /// Whether the file exports the indicator. It is a binary search.
    pub(crate) fn has_export(&self, indicator: &Indicator) -> bool
        requires { AreExports self.now }
        ensures { result ≡ has_export (see_known self.now) indicator.now }
    {
        self.exports
            .binary_search_by(|export| compare(export, indicator))
            .is_ok()
    }
}

/// The file of that name, or None if there is none. It is a binary search.
pub(crate) fn file_at<'t, 'a>(known: &'t [KnownFile<'a>], name: &str) -> Option<&'t KnownFile<'a>>
    requires { AreRising (map see_known known.now) }
    ensures is { option_map (λ file. see_known file.now) result ≡ file_named (map see_known known.now) name.now }
    ensures there { IfSome result (λ file. Contains known.now file.now) }
{
    let Ok(place) = known.binary_search_by(|file| file.facts.file.as_str().cmp(name)) else {
        return None;
    };
    Some(&known[place])
}
