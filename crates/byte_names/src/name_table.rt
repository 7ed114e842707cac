//! A hash table of names, in which each look-up is short, whatever names there are.

ghost use Rattle.std.specs.Prelude.{◌≡◌, ◌<◌, ◌-◌, ◌^◌, ◌++◌, [], ◌∷◌, length, IfOk, OnOk, OnErr, IsTrue};
ghost use Rattle.byte_names.specs.Names.{names_of, IsPlaced};
ghost use Rattle.byte_names.specs.Seats.{IsNameAt, IsSeat};

use std::alloc::{AllocError, Global};
use std::marker::Model;

/// How many slots a look-up passes at most.
const MOST_PROBES: usize = 48;

/// How many slots a table has at first. It is a power of two, as are all later sizes.
const FIRST_SIZE: usize = 4096;

/// A hash, and one more than the index of a name with that hash; 0 if the slot is free.
#[derive(Clone, Copy)]
struct Slot {
    hash: u32,
    place: u32,
}

const FREE: Slot = Slot { hash: 0, place: 0 };

/// Where a look-up ends: at the name, or at the slot that a new name may take.
#[derive(Clone, Copy)]
enum Seat {
    Taken(u32),
    Free(usize),
}

/// Names with their indices, each a range of a text. Contracts see the list of the names.
///
/// A name that is there already nearly always keeps its index. It gets a further one only if too
/// many others share its slots, so that a look-up is short for hostile names too.
#[derive(Drop)]
pub struct NameTable<'a> {
    names: Vec<&'a [u8]>,
    /// Where to look for a name. What a slot says is checked before it is used.
    slots: Vec<Slot>,
}

impl<'a> Model for NameTable<'a> {
    ghost use Rattle.std.specs.Prelude.{List, ℕ};
    ghost use Rattle.byte_names.specs.Names.{names_of};

    ghost Value = { List (List ℕ) };

    ghost view = { λ table. names_of table.names.items };
}

/// The hash of a name.
#[inline(always)]
fn hash_of(name: &[u8]) -> u32 {
    let mut state = 0x811c_9dc5u32;
    for byte in name {
        state = (state ^ u32::from(*byte)).wrapping_mul(0x0100_0193);
    }
    state ^ (state >> 15)
}

/// The slot after that one among `size` of them, a power of two.
#[inline(always)]
fn next_slot(at: usize, size: usize) -> usize {
    at.wrapping_add(1) & size.wrapping_sub(1)
}

/// Puts the slot at the first free one for its hash. If none of those is free, the name is left out.
fn put(slots: &mut [Slot], slot: Slot) {
    let size = slots.len();
    let mut at = slot.hash as usize & size.wrapping_sub(1);
    for _ in 0..MOST_PROBES {
        let Some(other) = slots.get_mut(at) else {
            return;
        };
        if other.place == 0 {
            *other = slot;
            return;
        }
        at = next_slot(at, size);
    }
}

impl<'a> NameTable<'a> {
    /// A table without names.
    pub fn new(alloc: Global) -> Result<NameTable<'a>, AllocError>
        ensures { IfOk result (λ table. table ≡ []) }
    {
        Ok(NameTable {
            names: Vec::new(alloc),
            slots: vec![in alloc; FREE; FIRST_SIZE]?,
        })
    }

    /// The names, one for each index.
    pub fn names(&self) -> &[&'a [u8]]
        ensures { names_of result.now ≡ self.now }
    {
        &self.names
    }

    /// Whether the name has the index.
    #[inline(always)]
    fn is_at(&self, place: u32, name: &[u8]) -> bool
        ensures { IsTrue result → IsNameAt self.now place name.now }
    {
        match self.names.get(place as usize) {
            Some(other) => *other == name,
            None => false,
        }
    }

    /// Where the name of that hash is, or may be put.
    #[inline(always)]
    fn seat_of(&self, name: &[u8], hash: u32) -> Seat
        ensures { IsSeat self.now name.now result }
    {
        let size = self.slots.len();
        let mut at = hash as usize & size.wrapping_sub(1);
        for _ in 0..MOST_PROBES {
            let Some(slot) = self.slots.get(at) else {
                return Seat::Free(at);
            };
            if slot.place == 0 {
                return Seat::Free(at);
            }
            if slot.hash == hash {
                let place = slot.place - 1;
                if self.is_at(place, name) {
                    return Seat::Taken(place);
                }
            }
            at = next_slot(at, size);
        }
        Seat::Free(at)
    }

    /// Twice as many slots, once half of them are taken. If there is no memory for them, those that
    /// there are go on serving.
    fn grow(&mut self)
        ensures { self.new ≡ self.old }
    {
        let size = self.slots.len();
        if self.names.len() < size / 2 {
            return;
        }
        let alloc = *self.slots.allocator();
        let Ok(mut slots) = vec![in alloc; FREE; size.saturating_mul(2)] else {
            return;
        };
        for slot in &self.slots {
            if slot.place > 0 {
                put(&mut slots, *slot);
            }
        }
        self.slots = slots;
    }

    /// Appends a name of that hash, and lets the slot lead to it.
    fn add(&mut self, name: &'a [u8], hash: u32, at: usize) -> Result<u32, AllocError>
        requires { length self.old < 2 ^ 32 - 1 }
        ensures place { IfOk result (λ place. place ≡ length self.old) }
        ensures names { OnOk result (self.new ≡ self.old ++ name.now ∷ []) }
        ensures err { OnErr result (self.new ≡ self.old) }
    {
        let place = self.names.len() as u32;
        self.names.push(name)?;
        if let Some(slot) = self.slots.get_mut(at) {
            *slot = Slot {
                hash,
                place: place + 1,
            };
        }
        self.grow();
        Ok(place)
    }

    /// The index of the name. A name that isn't found is appended.
    pub fn place_of(&mut self, name: &'a [u8]) -> Result<u32, AllocError>
        requires { length self.old < 2 ^ 32 - 1 }
        ensures ok { IfOk result (IsPlaced self.old name.now self.new) }
        ensures err { OnErr result (self.new ≡ self.old) }
    {
        let hash = hash_of(name);
        match self.seat_of(name, hash) {
            Seat::Taken(place) => Ok(place),
            Seat::Free(at) => self.add(name, hash, at),
        }
    }
}
