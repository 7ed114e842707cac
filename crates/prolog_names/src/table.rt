//! A hash table of names with chains: a name is found by one look-up, which allocates nothing.

ghost use Rattle.std.specs.Prelude.{◌≡◌, ◌<◌, ◌+◌, ◌-◌, ◌^◌, ◌++◌, [], ◌∷◌, ℕ, List, true, false, length, map, fold, IfOk, OnOk, MatchOption};
ghost use Rattle.std.specs.Int.{IsPowerOfTwo};
ghost use Rattle.std.specs.List.{list_any};
ghost use Rattle.std.specs.Str.{bytes_eq};
ghost use Rattle.prolog_names.specs.Names.{name_at, AreDistinct};
ghost use Rattle.std.specs.BTreeMap.{get_by_text};
ghost use Rattle.std.specs.Option.{option_copied};
ghost use Rattle.prolog_names.specs.Table.{text_hash, bucket_in, bytes_of, name_in, with_name, IsChainFor, IsSpan};

use std::alloc::{AllocError, Global};
use std::collections::BTreeMap;
use std::marker::Model;

/// How many bytes of names are reserved at first for each bucket: those of a usual name.
const NAME_BYTES: usize = 8;

/// How many names a chain may have. Names whose chain is full are in the last chain instead, and
/// are found in order of their bytes. So each look-up is short, whatever names a text has.
const MOST_IN_CHAIN: usize = 32;

/// Where a name starts and ends in the text of all names, its hash, and one more than the index of
/// the name before it in its bucket; 0 if there is none.
#[derive(Clone, Copy)]
struct Entry {
    start: u32,
    end: u32,
    hash: u32,
    next: u32,
}

/// Where a name may be in a table: one more than the last index of its bucket, with the hash of the
/// name; or 0 if the name there has another hash. The table may have grown since.
#[derive(Clone, Copy)]
pub(crate) struct Guess {
    head: u32,
    hash: u32,
}

/// No guess.
pub(crate) const NO_GUESS: Guess = Guess { head: 0, hash: 0 };

/// Names with their indices, each once. A name is found by the hash of its bytes. Names of other
/// hashes in its chain are skipped without reading their texts.
#[derive(Drop)]
pub struct NameTable {
    /// The names, one after the other, so that none needs an allocation of its own.
    texts: String,
    entries: Vec<Entry>,
    /// For each bucket one more than the index of its last name; 0 if it has none. The last entry
    /// is no bucket, but the chain of the far names.
    heads: Vec<u32>,
    /// The far names, whose chains were full, with their indices.
    far: BTreeMap<String, u32>,
}

impl Model for NameTable {
    ghost use Rattle.std.specs.Prelude.{List, ℕ};
    ghost use Rattle.std.specs.String.{string_bytes};
    ghost use Rattle.std.specs.BTreeMap.{get_by_text};
    ghost use Rattle.prolog_names.specs.Table.{names_of, IsTable};

    ghost Value = { List (List ℕ) };

    ghost view = { λ table. names_of (string_bytes table.texts) table.entries.items };

    ghost invariant = { λ table. IsTable (string_bytes table.texts) table.entries.items table.heads.items (get_by_text table.far) };
}

/// The hash of a text. Texts that differ only in their last byte have neighbouring hashes.
#[inline(always)]
pub fn text_hash(text: &str) -> u32
    ensures { result ≡ text_hash text.now }
{
    let mut state = 0u32;
    for byte in text.as_bytes() {
        state = state
            .wrapping_mul(16_777_619)
            .wrapping_add(u32::from(*byte));
    }
    state
}

/// The bucket of a hash among `size` buckets. Neighbouring hashes have neighbouring buckets, since
/// adjacent names of a text mostly differ only in their last byte. The size is a power of two, so
/// that no division is needed.
#[inline(always)]
fn bucket_of(hash: u32, size: usize) -> usize
    requires { IsPowerOfTwo size }
    ensures is { result ≡ bucket_in size hash }
    ensures below { result < size }
{
    hash as usize & (size - 1)
}

/// The name of an entry, in the text of all names.
#[inline(always)]
fn name_in<'a>(texts: &'a str, entry: &Entry) -> &'a str
    requires { IsSpan texts.now entry.now }
    ensures { result.now ≡ name_in texts.now entry.now }
{
    &texts[entry.start as usize..entry.end as usize]
}

/// Whether the entry is that of the name with the hash. If its own hash differs, its text isn't
/// read.
#[inline(always)]
fn is_named(texts: &str, entry: &Entry, name: &str, hash: u32) -> bool
    requires span { IsSpan texts.now entry.now }
    requires own { entry.now.hash ≡ text_hash (name_in texts.now entry.now) }
    requires wanted { hash ≡ text_hash name.now }
    ensures { result ≡ bytes_eq name.now (name_in texts.now entry.now) }
{
    if entry.hash != hash {
        return false;
    }
    name == name_in(texts, entry)
}

/// Whether a chain, from its head on, has fewer names than it may have. Both results are right, so
/// there is no contract.
fn has_room(entries: &[Entry], head: u32) -> bool {
    let mut at = head;
    for _ in 0..MOST_IN_CHAIN {
        if at == 0 {
            return true;
        }
        let Some(entry) = entries.get(at as usize - 1) else {
            return true;
        };
        at = entry.next;
    }
    false
}

/// The chain for a new name of that hash and index: that of its bucket, unless it is full. Then it
/// is the last one, and the name is added to the far ones.
fn chain_for(
    alloc: Global,
    entries: &[Entry],
    heads: &[u32],
    far: &mut BTreeMap<String, u32>,
    name: &str,
    hash: u32,
    place: u32,
) -> Result<usize, AllocError>
    requires { IsPowerOfTwo (length heads.now - 1) }
    ensures chain { IfOk result (IsChainFor (get_by_text far.new) (length heads.now - 1) name.now hash place) }
    ensures others { (other : List ℕ) → bytes_eq name.now other ≡ false → get_by_text far.new other ≡ get_by_text far.old other }
{
    let last = heads.len() - 1;
    if far_place(far, name).is_none() {
        let bucket = bucket_of(hash, last);
        if has_room(entries, heads[bucket]) {
            return Ok(bucket);
        }
    }
    let key = String::from_str(alloc, name)?;
    far.insert(key, place)?;
    Ok(last)
}

/// The index of the name among the far ones. A usual text has none of them, so that its look-ups
/// cost one test here.
#[inline(always)]
fn far_place<'a>(far: &'a BTreeMap<String, u32>, name: &str) -> Option<&'a u32>
    ensures { option_copied result ≡ get_by_text far.now name.now }
{
    if far.is_empty() {
        return None;
    }
    far.get(name)
}

impl NameTable {
    /// A table without names, with more than `buckets` buckets, and with capacity for as many
    /// names.
    pub fn new(alloc: Global, buckets: usize) -> Result<NameTable, AllocError>
        requires { buckets < 2 ^ 32 }
        ensures { IfOk result (λ table. table ≡ []) }
    {
        let size = (buckets + 1).next_power_of_two();
        Ok(NameTable {
            texts: String::with_capacity(alloc, buckets * NAME_BYTES)?,
            entries: Vec::with_capacity(alloc, buckets)?,
            heads: vec![in alloc; 0u32; size + 1]?,
            far: BTreeMap::new(alloc),
        })
    }

    /// How many names there are.
    pub fn len(&self) -> usize
        ensures is { result ≡ length self.now }
        ensures distinct { AreDistinct self.now }
    {
        self.entries.len()
    }

    /// The name at the index, or the empty name past the last one.
    #[inline(always)]
    pub fn text(&self, place: usize) -> &str
        ensures { result.now ≡ name_at self.now place }
    {
        match self.entries.get(place) {
            Some(entry) => name_in(self.texts.as_str(), entry),
            None => "",
        }
    }

    /// Whether the name at the index, or the empty one past the last, is this one.
    #[inline(always)]
    pub fn is(&self, place: usize, name: &str) -> bool
        ensures { result ≡ bytes_eq (name_at self.now place) name.now }
    {
        self.text(place) == name
    }

    /// The hash of the name at the index, or that of the empty name past the last one.
    #[inline(always)]
    pub fn hash(&self, place: usize) -> u32
        ensures { result ≡ text_hash (name_at self.now place) }
    {
        match self.entries.get(place) {
            Some(entry) => entry.hash,
            None => 0,
        }
    }

    /// The index of the name with that hash, if it is there.
    #[inline(always)]
    fn find(&self, name: &str, hash: u32) -> Option<u32>
        requires { hash ≡ text_hash name.now }
        ensures { MatchOption result (list_any (bytes_eq name.now) self.now ≡ false) (λ n. (n < length self.now) × (name_at self.now n ≡ name.now)) }
    {
        if let Some(place) = far_place(&self.far, name) {
            let place = *place;
            if place as usize >= self.entries.len() {
                return None;
            }
            if !self.is(place as usize, name) {
                return None;
            }
            return Some(place);
        }
        let texts = self.texts.as_str();
        let mut at = self.heads[bucket_of(hash, self.heads.len() - 1)];
        while at > 0 {
            let place = at - 1;
            let entry = &self.entries[place as usize];
            if is_named(texts, entry, name, hash) {
                return Some(place);
            }
            at = entry.next;
        }
        None
    }

    /// Appends a name of that hash, which isn't there yet, and returns its index. Capacity for its
    /// entry is reserved first, so that no text is without an entry if memory runs out.
    fn add(&mut self, name: &str, hash: u32) -> Result<u32, AllocError>
        requires hash { hash ≡ text_hash name.now }
        requires absent { list_any (bytes_eq name.now) self.old ≡ false }
        requires room { length self.old < 4294967295 }
        requires few { bytes_of self.old + length name.now < 2 ^ 32 }
        ensures names { OnOk result (self.new ≡ self.old ++ name.now ∷ []) }
        ensures place { IfOk result (λ place. place ≡ length self.old) }
    {
        let place = self.entries.len() as u32;
        let start = self.texts.len() as u32;
        self.entries.reserve(1)?;
        let alloc = *self.texts.allocator();
        let bucket = chain_for(
            alloc,
            &self.entries,
            &self.heads,
            &mut self.far,
            name,
            hash,
            place,
        )?;
        self.texts.push_str(name)?;
        self.entries.push(Entry {
            start,
            end: self.texts.len() as u32,
            hash,
            next: self.heads[bucket],
        })?;
        self.heads[bucket] = place + 1;
        Ok(place)
    }

    /// The index of the name. A name that isn't there yet is appended.
    pub fn place_of(&mut self, name: &str) -> Result<u32, AllocError>
        requires room { length self.old < 4294967295 }
        requires few { bytes_of self.old + length name.now < 2 ^ 32 }
        ensures names { OnOk result (self.new ≡ with_name self.old name.now) }
        ensures place { IfOk result (λ place. (place < length self.new) × (name_at self.new place ≡ name.now)) }
    {
        let hash = text_hash(name);
        if let Some(place) = self.find(name, hash) {
            return Ok(place);
        }
        self.add(name, hash)
    }

    /// Where the name may be: the last place of its bucket. Any result is right, so there is no
    /// contract.
    #[inline(always)]
    pub(crate) fn guess(&self, name: &str) -> Guess {
        let hash = text_hash(name);
        let bucket = hash as usize & (self.heads.len() - 1).wrapping_sub(1);
        match self.heads.get(bucket) {
            Some(head) => Guess { head: *head, hash },
            None => NO_GUESS,
        }
    }

    /// The guess, or none if the name there has another hash. Any result is right, so there is no
    /// contract.
    #[inline(always)]
    pub(crate) fn looked_up(&self, guess: Guess) -> Guess {
        match self.entries.get(guess.head.wrapping_sub(1) as usize) {
            Some(entry) if entry.hash == guess.hash => guess,
            _ => NO_GUESS,
        }
    }

    /// The index of the name, which is first looked for where it may be. A name that isn't there yet
    /// is appended.
    #[inline(always)]
    pub(crate) fn place_near(&mut self, name: &str, guess: Guess) -> Result<u32, AllocError>
        requires room { length self.old < 4294967295 }
        requires few { bytes_of self.old + length name.now < 2 ^ 32 }
        ensures names { OnOk result (self.new ≡ with_name self.old name.now) }
        ensures place { IfOk result (λ place. (place < length self.new) × (name_at self.new place ≡ name.now)) }
    {
        let place = guess.head.wrapping_sub(1);
        if self.has_at(place, name) {
            return Ok(place);
        }
        self.place_of(name)
    }

    /// Whether the name is the one at the index.
    #[inline(always)]
    fn has_at(&self, place: u32, name: &str) -> bool
        ensures { result ≡ true → (place < length self.now) × (name_at self.now place ≡ name.now) }
    {
        if place as usize >= self.len() {
            return false;
        }
        self.is(place as usize, name)
    }

    /// Appends each of the names that isn't there yet, in their order.
    pub fn place_each(&mut self, names: &[&str]) -> Result<(), AllocError>
        requires room { length self.old + length names.now < 4294967296 }
        requires few { bytes_of self.old + bytes_of (map (λ name. name.now) names.now) < 2 ^ 32 }
        ensures { OnOk result (self.new ≡ fold with_name self.old (map (λ name. name.now) names.now)) }
    {
        for name in names {
            self.place_of(name)?;
        }
        Ok(())
    }
}
