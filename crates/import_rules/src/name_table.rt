//! A hash table over names in order: a name is found by one look-up, which allocates nothing.

ghost use Rattle.std.specs.Prelude.{◌≡◌, ◌<◌, AllPairs, length, map, slice_get, Some, false, IfOk, IfSome, MatchOption};
ghost use Rattle.std.specs.declared.cmp.Ordering.TheVariants.{Less};
ghost use Rattle.std.specs.List.{list_any};
ghost use Rattle.prolog_names.specs.Table.{bucket_in};
ghost use Rattle.import_rules.specs.Names.{is_same, pred_cmp, pred_name};
ghost use Rattle.import_rules.specs.NameTable.{joint_hash, name_hash};

use crate::names::{PredName, compare};
use prolog_names::text_hash;
use std::alloc::{AllocError, Global};
use std::marker::Model;

/// The longest walk along a chain, in names. A longer chain is given up for a binary search, which
/// takes 20 comparisons among a million names. Chains of ordinary programs are shorter. But all
/// names of a text may be chosen to share one hash, and a look-up is short there too.
pub(crate) const MOST_IN_CHAIN: usize = 32;

/// The hash of a name, and one more than the index of the name before it in its bucket, or 0 if
/// there is none.
#[derive(Clone, Copy)]
struct Link {
    hash: u32,
    next: usize,
}

/// Names in order with their indices: those that are imported, of which there may be any number. A
/// name is found by the hashes of its two texts and its arity. Names with other hashes are passed
/// without a look at their texts.
#[derive(Drop)]
pub(crate) struct NameTable {
    names: Vec<PredName>,
    /// For each bucket one more than the index of its last name, or 0 if it has none.
    heads: Vec<usize>,
    links: Vec<Link>,
}

impl Model for NameTable {
    ghost use Rattle.std.specs.Prelude.{List};
    ghost use Rattle.import_rules.specs.declared.names.PredName.{PredName};
    ghost use Rattle.import_rules.specs.NameTable.{IsLinked};

    ghost Value = { List PredName };

    ghost view = { λ table. table.names.items };

    ghost invariant = { λ table. IsLinked table.names.items table.heads.items table.links.items };
}

/// The hash of a name, from those of its module and of its own name. The latter is added last, so
/// names of one module whose own hashes are adjacent have adjacent hashes.
pub(crate) fn joint_hash(owner: u32, name: u32, arity: u32) -> u32
    ensures { result ≡ joint_hash owner name arity }
{
    owner
        .wrapping_mul(16_777_619)
        .wrapping_add(arity)
        .wrapping_mul(16_777_619)
        .wrapping_add(name)
}

/// The hash of the name of a predicate.
pub(crate) fn name_hash(module: &str, name: &str, arity: u32) -> u32
    ensures { result ≡ name_hash (pred_name module.now name.now arity) }
{
    joint_hash(text_hash(module), text_hash(name), arity)
}

/// The bucket of a hash among `size` buckets. Adjacent hashes have adjacent buckets, since adjacent
/// names are added and looked up one after another.
pub(crate) fn bucket_of(hash: u32, size: usize) -> usize
    requires { 0 < size }
    ensures is { result ≡ bucket_in size hash }
    ensures below { result < size }
{
    hash as usize % size
}

/// Whether it is the name with that hash. `kept` is its own hash: if that differs, the texts aren't
/// read.
fn is_named(one: &PredName, kept: u32, module: &str, name: &str, arity: u32, hash: u32) -> bool
    requires kept { kept ≡ name_hash one.now }
    requires wanted { hash ≡ name_hash (pred_name module.now name.now arity) }
    ensures { result ≡ is_same (pred_name module.now name.now arity) one.now }
{
    if kept != hash {
        return false;
    }
    one.module.is(module) && (one.name.is(name) && arity == one.arity)
}

/// The hashes of the names.
fn hashes_of(alloc: Global, names: &[PredName]) -> Result<Vec<u32>, AllocError>
    ensures { IfOk result (λ hashes. hashes.items ≡ map name_hash names.now) }
{
    let mut hashes = Vec::with_capacity(alloc, names.len())?;
    for one in names {
        hashes.push(name_hash(one.module.as_str(), one.name.as_str(), one.arity))?;
    }
    Ok(hashes)
}

impl NameTable {
    /// The table of these names, which are in order. All hashes are computed first. A processor that
    /// reads no texts between two buckets looks up many of them at once.
    pub(crate) fn make(alloc: Global, names: Vec<PredName>) -> Result<NameTable, AllocError>
        requires { AllPairs (λ p q. pred_cmp p q ≡ Less) names.items }
        ensures { IfOk result (λ table. table ≡ names.items) }
    {
        let size = names.len().max(1);
        let mut heads = vec![in alloc; 0usize; size]?;
        let mut links = Vec::with_capacity(alloc, names.len())?;
        let hashes = hashes_of(alloc, &names)?;
        for hash in &hashes {
            let bucket = bucket_of(*hash, size);
            links.push(Link {
                hash: *hash,
                next: heads[bucket],
            })?;
            heads[bucket] = links.len();
        }
        Ok(NameTable {
            names,
            heads,
            links,
        })
    }

    /// The index of the name with that hash, or `None` if it isn't in the table. It takes at most
    /// `MOST_IN_CHAIN` steps along a chain and one binary search, and allocates nothing.
    pub(crate) fn find(&self, module: &str, name: &str, arity: u32, hash: u32) -> Option<usize>
        requires { hash ≡ name_hash (pred_name module.now name.now arity) }
        ensures is { MatchOption result
            (list_any (is_same (pred_name module.now name.now arity)) self.now ≡ false)
            (λ n. slice_get self.now n ≡ Some (pred_name module.now name.now arity)) }
        ensures below { IfSome result (λ n. n < length self.now) }
    {
        let mut at = self.heads[bucket_of(hash, self.heads.len())];
        for _ in 0..MOST_IN_CHAIN {
            if at == 0 {
                return None;
            }
            let place = at - 1;
            let link = self.links[place];
            if is_named(&self.names[place], link.hash, module, name, arity, hash) {
                return Some(place);
            }
            at = link.next;
        }
        self.find_ordered(module, name, arity)
    }

    /// The index of the name, by binary search. Each step compares texts, so `find` walks a chain
    /// first.
    fn find_ordered(&self, module: &str, name: &str, arity: u32) -> Option<usize>
        ensures is { MatchOption result
            (list_any (is_same (pred_name module.now name.now arity)) self.now ≡ false)
            (λ n. slice_get self.now n ≡ Some (pred_name module.now name.now arity)) }
        ensures below { IfSome result (λ n. n < length self.now) }
    {
        let Ok(place) = self
            .names
            .binary_search_by(|one| compare(one.view(), module, name, arity))
        else {
            return None;
        };
        Some(place)
    }
}
