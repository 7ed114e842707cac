ghost use Rattle.std.specs.Prelude.{◌≡◌, ◌<◌, ℕ, [], length, All, IfOk};
ghost use Rattle.graph_law.specs.Classes.{HasMember};
ghost use Rattle.graph_law.specs.Graph.{Calls, lists_of};
ghost use Rattle.graph_law.specs.LegalOrder.{IsComplete, IsLegalOrder};
ghost use Rattle.graph_law.specs.Reach.{IsReached};
ghost use Rattle.list_laws.specs.Counts.{times};
ghost use Rattle.node_claims.specs.Claims.{ClaimsValue, IsPassOf, claim_number, look_number};
ghost use Rattle.node_claims.specs.Steps.{IsLater, IsLent};
ghost use Rattle.node_claims.specs.Taking.{IsTurnTaken};
ghost use Rattle.node_claims.specs.Views.{both, claimed, fresh, looked, outline_of};

use crate::bound_book::BoundBook;
use crate::claim_rule::{Claim, ClaimRule, Look, Part, Take, Whole};
use crate::pass::Pass;
use crate::turn::Turn;
use crate::view::View;
use atomic_table::{Refused, Seat, Table};
use graph_law::Opener;
use group_release::Book;
use std::alloc::{AllocError, Global};
use std::marker::Model;
use std::snapshot::Snapshot;
use std::sync::Wait;
use std::sync::atomic::{AtomicU64, Ordering};
use std::{hint, thread};

// How often a thread that waits for the lock yields before it sleeps.
const TRIES: u32 = 64;

// How often it spins before that.
const SPINS: u32 = 256;

/// What a claim found in the word of the node.
#[derive(Clone, Copy, Debug, PartialEq, Eq)]
pub enum Claimed {
    /// Nobody had it: the worker has it now.
    Won,
    /// A worker or a suspended search has it.
    Held,
    /// It is released, or is about to be.
    Done,
}

/// What a look found in the word of the node.
#[derive(Clone, Copy, Debug, PartialEq, Eq)]
pub enum Looked {
    Unseen,
    Held,
    Done,
}

/// An atomic word for each node and for the lock, and the slot of the book. Contracts see it as the
/// table of its words, with the graph and the roots of its book.
#[derive(Drop)]
pub struct Claims {
    /// How many threads sleep, or are about to, until the lock is released.
    pub(crate) sleepers: AtomicU64,
    pub(crate) table: Table<Option<BoundBook>, View, Snapshot<Book>, ClaimRule, Global>,
}

impl Model for Claims {
    ghost use Rattle.node_claims.specs.Claims.{ClaimsValue};

    ghost Value = { ClaimsValue };

    ghost use Rattle.node_claims.specs.ClaimsFields.{claims_of, IsClaims};

    ghost view = { claims_of };

    ghost invariant = { IsClaims };
}

impl Claims {
    /// A new table: no node is claimed, the book is new, and there is one pass, which has nothing.
    pub fn make<O: Opener>(
        alloc: Global,
        opener: &O,
        roots: &[u32],
    ) -> Result<(Claims, Pass), AllocError>
        requires { All (λ root. root < length (O.lists opener.now)) roots.now }
        ensures lists { IfOk result (λ made. made.0.lists ≡ O.lists opener.now) }
        ensures roots { IfOk result (λ made. made.0.roots ≡ roots.now) }
        ensures pass { IfOk result (λ made. IsPassOf made.0 made.1) }
        ensures fresh { IfOk result (λ made. made.1.view ≡ fresh (O.lists opener.now) roots.now) }
    {
        let words = vec![in alloc; 0u64; opener.count() as usize + 1]?;
        let mut slots = Vec::with_capacity(alloc, 1)?;
        let book = BoundBook::make(alloc, opener, roots)?;
        let about = Snapshot::of(book.pages());
        slots.push_reserved(Some(book));
        match Table::new(alloc, words.as_slice(), slots, &about) {
            Ok((table, seat)) => Ok((
                Claims {
                    sleepers: AtomicU64::new(0),
                    table,
                },
                Pass { seat },
            )),
            Err(Refused { slots: _ }) => Err(AllocError),
        }
    }

    /// Claims a node by one compare-and-swap of its word. It takes no lock and never waits.
    pub fn claim(&self, pass: &mut Pass, node: u32) -> Claimed
        requires pass { IsPassOf self.now pass.old }
        requires node { node < length self.now.lists }
        ensures pass { IsPassOf self.now pass.new }
        ensures later { IsLater node pass.old.view (claim_number result) }
        ensures view { pass.new.view ≡ claimed node (claim_number result) pass.old.view }
    {
        let found = self
            .table
            .shared
            .compare_exchange::<Claim>(&mut pass.seat, node as usize + 1, 0, 1);
        match found {
            0 => Claimed::Won,
            1 => Claimed::Held,
            _ => Claimed::Done,
        }
    }

    /// Reads the word of a node by one atomic load. It never waits.
    pub fn look(&self, pass: &mut Pass, node: u32) -> Looked
        requires pass { IsPassOf self.now pass.old }
        requires node { node < length self.now.lists }
        ensures pass { IsPassOf self.now pass.new }
        ensures later { IsLater node pass.old.view (look_number result) }
        ensures view { pass.new.view ≡ looked node (look_number result) pass.old.view }
    {
        match self
            .table
            .shared
            .load::<Look>(&mut pass.seat, node as usize + 1)
        {
            0 => Looked::Unseen,
            1 => Looked::Held,
            _ => Looked::Done,
        }
    }

    /// Locks: waits until no other pass has the lock, and lends the book.
    ///
    /// All nodes that the pass saw finished are released in the book. No node of the pass is
    /// released or suspended in it. If the pass gave back a failed book before, this book has
    /// failed too. `Book::keeps` states the rest of its invariant.
    ///
    /// The contract holds if the call returns.
    pub fn turn(&self, rt: &impl Wait, pass: Pass) -> Turn<'_>
        requires { IsPassOf self.now pass }
        ensures table { result.table ≡ pass.table }
        ensures view { result.view ≡ pass.view }
        ensures taken { result.taken ≡ record { book = outline_of result.book; closed = [] } }
        ensures lent { IsLent pass.view (outline_of result.book) }
    {
        let (seat, book) = self.take(rt, pass);
        Turn {
            claims: self,
            seat,
            book,
        }
    }

    /// Splits the pass: the second one has nothing yet.
    pub fn split(&self, pass: Pass) -> (Pass, Pass)
        requires { IsPassOf self.now pass }
        ensures first { result.0 ≡ pass }
        ensures second { result.1 ≡ record { table = pass.table; view = fresh self.now.lists self.now.roots } }
    {
        let Pass { mut seat } = pass;
        let other = self.table.shared.split_seat::<Part>(&mut seat);
        (Pass { seat }, Pass { seat: other })
    }

    /// Joins two passes to one that has and knows what both did: of each list the left's and then
    /// the right's.
    pub fn join(&self, left: Pass, right: Pass) -> Pass
        requires left { IsPassOf self.now left }
        requires right { IsPassOf self.now right }
        ensures { result ≡ record { table = left.table; view = both left.view right.view } }
    {
        let Pass { mut seat } = left;
        self.table.shared.join_seat::<Whole>(&mut seat, right.seat);
        Pass { seat }
    }

    /// Locks for the last time, and returns the SCCs in reverse topological order, members
    /// ascending. The contract holds if the call returns.
    pub fn finish(self, rt: &impl Wait, pass: Pass) -> Vec<Vec<u32>>
        requires pass { IsPassOf self pass }
        requires idle { pass.view.nodes ≡ [] }
        requires seen { All (λ root. 0 < times root pass.view.seen) self.roots }
        ensures legal { IsLegalOrder (Calls self.lists) (lists_of result.items) }
        ensures complete { IsComplete self.roots (lists_of result.items) }
        ensures reached { (v : ℕ) → HasMember (lists_of result.items) v → IsReached (Calls self.lists) self.roots v }
    {
        let (_seat, book) = self.take(rt, pass);
        book.into_pages().into_groups()
    }

    // Waits for the lock, and takes the book out of its slot.
    fn take(&self, rt: &impl Wait, pass: Pass) -> (Seat<Option<BoundBook>, View>, BoundBook)
        requires { pass.table ≡ self.now.table }
        ensures { IsTurnTaken pass result.0 result.1 }
    {
        let Pass { mut seat } = pass;
        let mut tries = 0;
        for _ in rt.forever() {
            if self
                .table
                .shared
                .compare_exchange::<Take>(&mut seat, 0, 0, 1)
                == 0
            {
                let book = self.table.shared.exchange(&mut seat, 0, None).unwrap();
                return (seat, book);
            }
            tries = self.pause(rt, tries);
        }
        unreachable!()
    }

    // Spins, yields, or sleeps until the lock is released, by the number of tries so far. It counts
    // as a sleeper before it reads the lock's word for the last time. So a thread that stores 0
    // after that finds it counted, and wakes it.
    fn pause(&self, rt: &impl Wait, tries: u32) -> u32 {
        if tries < SPINS {
            hint::spin_loop();
            return tries + 1;
        }
        if tries < SPINS + TRIES {
            thread::yield_now();
            return tries + 1;
        }
        self.sleepers.fetch_add(1, Ordering::SeqCst);
        self.table.shared.park(rt, 0, 1);
        self.sleepers.fetch_sub(1, Ordering::SeqCst);
        tries
    }
}
