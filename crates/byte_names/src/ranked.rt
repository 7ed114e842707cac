//! The ranks of names in the order of their bytes.

ghost use Rattle.std.specs.Prelude.{◌≡◌, ◌<◌, ◌-◌, ◌^◌, ◌↔◌, length, IfOk, IsTrue};
ghost use Rattle.byte_names.specs.Keys.{AreKeys, IsAppended, IsLastName};
ghost use Rattle.byte_names.specs.Names.{names_of};
ghost use Rattle.byte_names.specs.Ranks.{IsRanking};

use crate::lead::lead;
use std::alloc::{AllocError, Global};

/// A name with its index, and what it is sorted by first.
#[derive(Clone, Copy, PartialEq, Eq, PartialOrd, Ord)]
struct Keyed<'a> {
    lead: u64,
    name: &'a [u8],
    place: u32,
}

/// Different names in the order of their bytes, and for each index that they had its rank among
/// them.
#[derive(Drop)]
pub struct Ranked<'a> {
    pub names: Vec<&'a [u8]>,
    pub ranks: Vec<u32>,
}

/// The names with their keys, in the order given.
fn keys_of<'a>(alloc: Global, names: &[&'a [u8]]) -> Result<Vec<Keyed<'a>>, AllocError>
    requires { length names.now < 2 ^ 32 }
    ensures { IfOk result (λ keys. AreKeys (names_of names.now) (length names.now) keys.items) }
{
    let mut keys = Vec::with_capacity(alloc, names.len())?;
    for name in names {
        keys.push(Keyed {
            lead: lead(name),
            name: *name,
            place: keys.len() as u32,
        })?;
    }
    Ok(keys)
}

/// Whether the name is the last of the names.
#[inline(always)]
fn is_last(names: &[&[u8]], name: &[u8]) -> bool
    ensures { IsTrue result ↔ IsLastName (names_of names.now) name.now }
{
    match names.last() {
        Some(last) => *last == name,
        None => false,
    }
}

/// Appends the name unless it is the last one, and returns its index.
fn append<'a>(names: &mut Vec<&'a [u8]>, name: &'a [u8]) -> Result<u32, AllocError>
    requires { length names.old.items < 2 ^ 32 - 1 }
    ensures { IfOk result (IsAppended (names_of names.old.items) name.now (names_of names.new.items)) }
{
    if is_last(names, name) {
        return Ok(names.len() as u32 - 1);
    }
    let rank = names.len() as u32;
    names.push(name)?;
    Ok(rank)
}

/// The different ones of these names in the order of their bytes, and for each index its rank among
/// them.
pub fn rank<'a>(alloc: Global, names: &[&'a [u8]]) -> Result<Ranked<'a>, AllocError>
    requires { length names.now < 2 ^ 32 }
    ensures { IfOk result (λ ranked. IsRanking (names_of names.now) (names_of ranked.names.items) ranked.ranks.items) }
{
    let mut keys = keys_of(alloc, names)?;
    keys.sort()?;
    let mut different: Vec<&'a [u8]> = Vec::new(alloc);
    let mut ranks = vec![in alloc; 0u32; names.len()]?;
    for key in &keys {
        let rank = append(&mut different, key.name)?;
        ranks[key.place as usize] = rank;
    }
    Ok(Ranked {
        names: different,
        ranks,
    })
}
