//! The predicates of files in the order of their numbers, and how one is found by its name.

ghost use Rattle.std.specs.Prelude.{◌≡◌, ◌<◌, ◌≤◌, AllPairs, length, map, slice_get, Some, false, IfOk, IfSome, MatchOption};
ghost use Rattle.std.specs.List.{list_any};
ghost use Rattle.std.specs.declared.cmp.Ordering.TheVariants.{Less};
ghost use Rattle.import_rules.specs.Chained.{AreChained};
ghost use Rattle.import_rules.specs.declared.resolve.TheConstants.{MOST_PREDICATES};
ghost use Rattle.import_rules.specs.Names.{is_same, pred_cmp, pred_name};
ghost use Rattle.import_rules.specs.NameTable.{name_hash};
ghost use Rattle.import_rules.specs.Parts.{name_of_places, names_at};

use crate::name_table::{MOST_IN_CHAIN, bucket_of, name_hash};
use crate::names::compare;
use crate::places::Places;
use module_table::FileFacts;
use std::alloc::{AllocError, Global};
use std::marker::Model;

/// The hash of the name of a predicate, and one more than the number of the predicate before it in
/// its bucket, or 0 if there is none.
#[derive(Clone, Copy)]
struct Link {
    hash: u32,
    next: u32,
}

/// A hash table over predicates, with a chain for each bucket. Their names are only in the files.
#[derive(Drop)]
pub(crate) struct Chains {
    /// For each bucket one more than the number of its last predicate, or 0 if it has none.
    heads: Vec<u32>,
    links: Vec<Link>,
}

/// The predicates of files, each by the positions at which it is defined.
#[derive(Drop)]
pub(crate) struct Predicates<'a> {
    pub(crate) files: &'a [FileFacts],
    pub(crate) places: &'a [Places],
    pub(crate) chains: &'a Chains,
}

impl<'a> Model for Predicates<'a> {
    ghost use Rattle.std.specs.Prelude.{List};
    ghost use Rattle.import_rules.specs.declared.names.PredName.{PredName};
    ghost use Rattle.import_rules.specs.Chained.{AreChained};
    ghost use Rattle.import_rules.specs.Parts.{names_at};

    ghost Value = { List PredName };

    ghost view = { λ p. names_at p.files.now p.places.now };

    ghost invariant = { λ p. AreChained (names_at p.files.now p.places.now) p.chains.now };
}

/// The hashes of the names of predicates.
fn hashes_of(
    alloc: Global,
    files: &[FileFacts],
    predicates: &[Places],
) -> Result<Vec<u32>, AllocError>
    ensures { IfOk result (λ hashes. hashes.items ≡ map name_hash (names_at files.now predicates.now)) }
{
    let mut hashes = Vec::with_capacity(alloc, predicates.len())?;
    for places in predicates {
        hashes.push(places.hash(files))?;
    }
    Ok(hashes)
}

/// Whether it is the predicate with that name and hash. `kept` is the hash of its own name: if that
/// differs, the name isn't read.
fn is_named(
    files: &[FileFacts],
    places: &Places,
    kept: u32,
    module: &str,
    name: &str,
    arity: u32,
    hash: u32,
) -> bool
    requires kept { kept ≡ name_hash (name_of_places files.now places.now) }
    requires wanted { hash ≡ name_hash (pred_name module.now name.now arity) }
    ensures { result ≡ is_same (pred_name module.now name.now arity) (name_of_places files.now places.now) }
{
    if kept != hash {
        return false;
    }
    places.are_named(files, module, name, arity)
}

impl Chains {
    /// The chains of these predicates, which are few and in order. All hashes are computed first. A
    /// processor that reads no texts between two buckets looks up many of them at once.
    pub(crate) fn make(
        alloc: Global,
        files: &[FileFacts],
        predicates: &[Places],
    ) -> Result<Chains, AllocError>
        requires few { length predicates.now ≤ MOST_PREDICATES }
        requires in_order { AllPairs (λ p q. pred_cmp p q ≡ Less) (names_at files.now predicates.now) }
        ensures { IfOk result (AreChained (names_at files.now predicates.now)) }
    {
        let size = predicates.len().max(1);
        let mut heads = vec![in alloc; 0u32; size]?;
        let mut links = Vec::with_capacity(alloc, predicates.len())?;
        let hashes = hashes_of(alloc, files, predicates)?;
        for hash in &hashes {
            let bucket = bucket_of(*hash, size);
            links.push(Link {
                hash: *hash,
                next: heads[bucket],
            })?;
            heads[bucket] = links.len() as u32;
        }
        Ok(Chains { heads, links })
    }
}

impl<'a> Predicates<'a> {
    /// How many predicates there are.
    pub(crate) fn len(&self) -> usize
        ensures { result ≡ length self.now }
    {
        self.places.len()
    }

    /// The number of the predicate of that name.
    pub(crate) fn find(&self, module: &str, name: &str, arity: u32) -> Option<u32>
        ensures is { MatchOption result
            (list_any (is_same (pred_name module.now name.now arity)) self.now ≡ false)
            (λ n. slice_get self.now n ≡ Some (pred_name module.now name.now arity)) }
        ensures below { IfSome result (λ n. n < length self.now) }
    {
        self.find_hashed(module, name, arity, name_hash(module, name, arity))
    }

    /// The number of the predicate with that name and hash, or `None` if no file defines it. It takes
    /// at most `MOST_IN_CHAIN` steps along a chain and one binary search, and allocates nothing.
    pub(crate) fn find_hashed(&self, module: &str, name: &str, arity: u32, hash: u32) -> Option<u32>
        requires { hash ≡ name_hash (pred_name module.now name.now arity) }
        ensures is { MatchOption result
            (list_any (is_same (pred_name module.now name.now arity)) self.now ≡ false)
            (λ n. slice_get self.now n ≡ Some (pred_name module.now name.now arity)) }
        ensures below { IfSome result (λ n. n < length self.now) }
    {
        let mut at = self.chains.heads[bucket_of(hash, self.chains.heads.len())];
        for _ in 0..MOST_IN_CHAIN {
            if at == 0 {
                return None;
            }
            let node = at - 1;
            let link = self.chains.links[node as usize];
            let places = &self.places[node as usize];
            if is_named(self.files, places, link.hash, module, name, arity, hash) {
                return Some(node);
            }
            at = link.next;
        }
        self.find_ordered(module, name, arity)
    }

    /// The number of the predicate with that name, by binary search. Each step reads a name in the
    /// files and compares texts, so `find_hashed` walks a chain first.
    fn find_ordered(&self, module: &str, name: &str, arity: u32) -> Option<u32>
        ensures is { MatchOption result
            (list_any (is_same (pred_name module.now name.now arity)) self.now ≡ false)
            (λ n. slice_get self.now n ≡ Some (pred_name module.now name.now arity)) }
        ensures below { IfSome result (λ n. n < length self.now) }
    {
        let files = self.files;
        let Ok(node) = self
            .places
            .binary_search_by(|places| compare(places.name(files), module, name, arity))
        else {
            return None;
        };
        Some(node as u32)
    }
}
