ghost use Rattle.std.specs.Prelude.{◌≡◌, ◌↔◌, ◌<◌, ℕ, List, [], None, IfOk, IfSome, IfNone, IsTrue};
ghost use Rattle.search_stack.specs.Search.{SearchValue};
ghost use Rattle.blocked_table.specs.Blocked.{HasReady, IsTaken, IsTable};
ghost use Rattle.blocked_table.specs.Kept.{Holds, IsFree};

use crate::waiters::Waiters;
use crate::words::write_words;
use search_stack::Search;
use std::alloc::{AllocError, Global};
use std::marker::Model;

mod suspend;
mod transfer;
mod wake;

/// Suspended searches, each kept until the node that it waits for is finished.
///
/// Contracts see a list of slots (`place`), each with a search or none. A suspended search is
/// blocked if it waits for a node, and ready otherwise. No node is on two of them. Following what
/// they wait for ends at a ready search, or at a node that none of them holds.
#[derive(Drop)]
pub struct Blocked {
    kept: Vec<Option<Search>>,
    /// For each node one more than the slot of the search that holds it, or 0. Empty until a search is
    /// suspended.
    holders: Vec<u32>,
    /// For each node the slots of the searches that wait for it. Empty until a search is suspended.
    waiters: Waiters,
    vacant: Vec<u32>,
    ready: Vec<u32>,
    count: u32,
    most: u32,
}

impl Model for Blocked {
    ghost use Rattle.blocked_table.specs.Blocked.{BlockedValue};

    ghost Value = { BlockedValue };

    ghost use Rattle.blocked_table.specs.BlockedFields.{value_of, IsBlocked};

    ghost view = { value_of };

    ghost invariant = { IsBlocked };
}

impl Blocked {
    /// No search yet, with capacity for `most` of them over nodes below `count`. Nothing is written
    /// here for nodes or slots: the first `suspend` does that, since a worker that searches alone
    /// never suspends a search.
    pub fn make(alloc: Global, count: u32, most: u32) -> Result<Blocked, AllocError>
        ensures { IfOk result (λ made. made ≡ record { count = count; most = most; kept = [] }) }
    {
        Ok(Blocked {
            kept: Vec::with_capacity(alloc, most as usize)?,
            holders: Vec::new(alloc),
            waiters: Waiters::make(alloc, 0, 0)?,
            vacant: Vec::with_capacity(alloc, most as usize)?,
            ready: Vec::with_capacity(alloc, most as usize)?,
            count,
            most,
        })
    }

    /// The slot of the search that holds the node, or none. It takes constant time.
    pub fn holder(&self, node: u32) -> Option<u32>
        ensures some { IfSome result (λ place. Holds self.now.kept place node) }
        ensures none { IfNone result (IsFree self.now.kept node) }
        ensures table { IsTable self.now }
    {
        let word = self.holders.get(node as usize).copied().unwrap_or(0);
        if word == 0 {
            return None;
        }
        Some(word - 1)
    }

    /// Whether a suspended search is ready. It takes constant time.
    pub fn has_ready(&self) -> bool
        ensures { IsTrue result ↔ HasReady self.now.kept }
    {
        !self.ready.is_empty()
    }

    /// Takes a ready search from its slot, if there is one. It takes a step for each node of the
    /// search.
    pub fn take_ready(&mut self) -> Option<Search>
        ensures only { self.new ≡ record self.old { kept = self.new.kept } }
        ensures some { IfSome result (λ search. IsTaken self.old.kept self.new.kept search) }
        ensures none { IfNone result (HasReady self.old.kept → ⊥) }
        ensures unchanged { IfNone result (self.new ≡ self.old) }
    {
        let place = self.ready.pop()?;
        let search = self.kept[place as usize].take()?;
        write_words(&mut self.holders, &search, 0, 0);
        self.vacant.push(place).unwrap();
        Some(search)
    }
}
