ghost use Rattle.std.specs.Prelude.{◌≡◌, ◌<◌, [], ◌∷◌, ◌++◌, length};
ghost use Rattle.std.specs.Borrow.{sem};
ghost use Rattle.graph_law.specs.Classes.{HasMember};
ghost use Rattle.list_laws.specs.Counts.{flat};
ghost use Rattle.node_claims.specs.Claims.{nodes_with};
ghost use Rattle.node_claims.specs.Steps.{MayClose, MayGive};
ghost use Rattle.node_claims.specs.Views.{outline_of};

use crate::bound_book::BoundBook;
use crate::claim_rule::{Close, Give, Naming};
use crate::claims::Claims;
use crate::pass::Pass;
use crate::view::View;
use atomic_table::Seat;
use group_release::Book;
use search_stack::Search;
use std::marker::{Brand, Model};
use std::sync::atomic::Ordering;

/// The guard of the lock: the book is out with one pass, which has to give it back. Contracts see
/// what the pass knew, the book as it was taken with the nodes closed since, and the book as it is.
pub struct Turn<'a> {
    pub(crate) claims: &'a Claims,
    pub(crate) seat: Seat<Option<BoundBook>, View>,
    pub(crate) book: BoundBook,
}

impl<'a> Model for Turn<'a> {
    ghost use Rattle.node_claims.specs.Claims.{TurnValue};

    ghost Value = { TurnValue };

    ghost use Rattle.node_claims.specs.TurnFields.{turn_of, IsTurn};

    ghost view = { turn_of };

    ghost invariant = { IsTurn };
}

impl<'a> Turn<'a> {
    ghost use Rattle.node_claims.specs.Lending.{LendsBook};

    /// The book, as long as the lock is held.
    pub fn book(&mut self) -> &mut Book
        ensures* lends { sem 𝓛 (LendsBook self.entry result) }
        ensures value { result.now ≡ self.old.book }
    {
        &mut self.book.pages
    }

    /// Marks a released node as finished, by one store to its word.
    pub fn close(&mut self, node: u32)
        requires node { node < length self.old.view.lists }
        requires released { HasMember self.old.book.groups node }
        requires may { MayClose self.old.view self.old.taken node }
        ensures { self.new ≡ record self.old { taken = record self.old.taken { closed = self.old.taken.closed ++ node ∷ [] } } }
    {
        let claims = self.claims;
        claims
            .table
            .shared
            .store::<Close>(&mut self.seat, node as usize + 1, 2);
    }

    /// Unlocks: puts the book back. The pass then has the nodes of `running`, and last `unopened`,
    /// which is a node that it won and hasn't pushed. It has seen all released nodes finished. If
    /// the book has failed, the pass knows it.
    pub fn give(self, running: &Search, unopened: Option<u32>) -> Pass
        requires { MayGive self.view self.taken (outline_of self.book) (nodes_with running.now unopened) }
        ensures table { result.table ≡ self.entry.table }
        ensures view { result.view ≡ record self.entry.view {
          nodes = nodes_with running.now unopened;
          seen = self.entry.view.seen ++ flat self.entry.book.groups;
          told = self.entry.book.failed;
        } }
    {
        self.give_named::<Brand>(running, unopened)
    }

    // The same, if `N` names the nodes that the pass has then.
    fn give_named<N: Naming>(self, running: &Search, unopened: Option<u32>) -> Pass
        requires named { nodes_with running.now unopened ≡ N.nodes }
        requires may { MayGive self.view self.taken (outline_of self.book) (nodes_with running.now unopened) }
        ensures table { result.table ≡ self.entry.table }
        ensures view { result.view ≡ record self.entry.view {
          nodes = nodes_with running.now unopened;
          seen = self.entry.view.seen ++ flat self.entry.book.groups;
          told = self.entry.book.failed;
        } }
    {
        let Turn {
            claims,
            mut seat,
            book,
        } = self;
        let _ = running;
        drop(claims.table.shared.exchange(&mut seat, 0, Some(book)));
        claims.table.shared.store::<Give<N>>(&mut seat, 0, 0);
        if claims.sleepers.load(Ordering::SeqCst) > 0 {
            claims.table.shared.wake_one(0);
        }
        Pass { seat }
    }
}
