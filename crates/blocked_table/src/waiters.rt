ghost use Rattle.std.specs.Prelude.{◌≡◌, ◌+◌, ◌<◌, ◌≤◌, ℕ, length, set, replicate, slice_index_or, IfOk, IfSome, IfNone};
ghost use Rattle.blocked_table.specs.Waiters.{IsWrittenFor};

use std::alloc::{AllocError, Global};
use std::marker::Model;

/// For each node a list of the slots (`place`) that wait for it. A slot is on one list at most.
///
/// Contracts see the number of nodes and a word for each slot: one more than the node that it waits
/// for, or 0. Each call takes constant time, except `make`.
#[derive(Drop)]
pub(crate) struct Waiters {
    /// For each node one more than the first slot on its list, or 0.
    heads: Vec<u32>,
    /// For each slot one more than the node that it waits for, or 0.
    nodes: Vec<u32>,
    /// For each slot on a list one more than the slot after it there, or 0.
    after: Vec<u32>,
    /// For each slot on a list one more than the slot before it there, or 0.
    before: Vec<u32>,
}

impl Model for Waiters {
    ghost use Rattle.blocked_table.specs.Waiters.{WaitersValue};

    ghost Value = { WaitersValue };

    ghost use Rattle.blocked_table.specs.WaitersFields.{value_of, AreWaiters};

    ghost view = { value_of };

    ghost invariant = { AreWaiters };
}

impl Waiters {
    /// Empty lists for `count` nodes and `room` slots. It takes time linear in both.
    pub(crate) fn make(alloc: Global, count: u32, room: u32) -> Result<Waiters, AllocError>
        ensures { IfOk result (λ made. made ≡ record { count = count; words = replicate room 0 }) }
    {
        Ok(Waiters {
            heads: vec![in alloc; 0u32; count as usize]?,
            nodes: vec![in alloc; 0u32; room as usize]?,
            after: vec![in alloc; 0u32; room as usize]?,
            before: vec![in alloc; 0u32; room as usize]?,
        })
    }

    /// The first slot on the list of a node, or none.
    pub(crate) fn first(&self, node: u32) -> Option<u32>
        ensures some { IfSome result (λ place. slice_index_or self.now.words place 0 ≡ node + 1) }
        ensures none { IfNone result ((place : ℕ) → slice_index_or self.now.words place 0 ≡ node + 1 → ⊥) }
    {
        let word = self.heads.get(node as usize).copied().unwrap_or(0);
        if word == 0 {
            return None;
        }
        Some(word - 1)
    }

    /// Adds a slot to the list of a node.
    pub(crate) fn add(&mut self, place: u32, node: u32)
        requires place { place < length self.old.words }
        requires node { node < self.old.count }
        requires none { slice_index_or self.old.words place 0 ≡ 0 }
        ensures { self.new ≡ record { count = self.old.count; words = set self.old.words place (node + 1) } }
    {
        let next = self.heads[node as usize];
        write_for(&mut self.before, next, place + 1);
        self.before[place as usize] = 0;
        self.after[place as usize] = next;
        self.heads[node as usize] = place + 1;
        self.nodes[place as usize] = node + 1;
    }

    /// Removes a slot from the list that it is on.
    pub(crate) fn remove(&mut self, place: u32)
        requires place { place < length self.old.words }
        requires waits { 0 < slice_index_or self.old.words place 0 }
        ensures { self.new ≡ record { count = self.old.count; words = set self.old.words place 0 } }
    {
        let node = self.nodes[place as usize] - 1;
        let next = self.after[place as usize];
        let last = self.before[place as usize];
        self.nodes[place as usize] = 0;
        write_for(&mut self.before, next, last);
        write_for(&mut self.after, last, next);
        if last == 0 {
            self.heads[node as usize] = next;
        }
    }
}

/// Writes a word for a slot. `place` is one more than its index, or 0 if there is none to write.
fn write_for(words: &mut Vec<u32>, place: u32, word: u32)
    requires { place ≤ length words.old.items }
    ensures { IsWrittenFor place word words.old.items words.new.items }
{
    if place == 0 {
        return;
    }
    words[(place - 1) as usize] = word;
}
