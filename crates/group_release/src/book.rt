ghost use Rattle.std.specs.Prelude.{◌≡◌, ◌↔◌, ◌+◌, ◌<◌, ◌≤◌, ℕ, true, false, [], length, slice_get, All, IfOk, IfSome, IfNone, IsTrue};
ghost use Rattle.list_laws.specs.Counts.{times};
ghost use Rattle.graph_law.specs.Classes.{HasMember};
ghost use Rattle.graph_law.specs.Graph.{Calls, lists_of};
ghost use Rattle.graph_law.specs.LegalOrder.{IsLegalOrder};
ghost use Rattle.graph_law.specs.Reach.{IsReached};
ghost use Rattle.blocked_table.specs.Blocked.{HasReady, IsTable};
ghost use Rattle.group_release.specs.Book.{IsGoodBook, released_of, table_of};
ghost use Rattle.group_release.specs.Released.{AreReleased};

use crate::lists::Lists;
use crate::released::Released;
use blocked_table::Blocked;
use boxcar::tag::Tag;
use graph_law::Opener;
use std::alloc::{AllocError, Global};
use std::marker::Model;

mod suspend;

/// The shared registry of searches of one graph: released groups, and searches that are suspended
/// (kept) until a node is finished.
///
/// Contracts see it with the graph and the roots that it was made with, how many roots were handed
/// out, and whether it has failed. They also see the suspended searches and the groups. Each
/// suspended search is well-formed for the released nodes. The groups are in reverse topological
/// order, and the roots reach their nodes. Only `make` and `suspend` take memory.
#[derive(Drop)]
pub struct Book {
    lists: Tag,
    roots: Vec<u32>,
    given: usize,
    failed: bool,
    blocked: Blocked,
    released: Released,
}

impl Model for Book {
    ghost use Rattle.group_release.specs.Book.{BookValue};

    ghost Value = { BookValue };

    ghost use Rattle.group_release.specs.BookFields.{value_of, IsBook};

    ghost view = { value_of };

    ghost invariant = { IsBook };
}

impl Book {
    /// A new book: nothing is suspended, nothing is released, and no root is handed out.
    pub fn make<O: Opener>(alloc: Global, opener: &O, roots: &[u32]) -> Result<Book, AllocError>
        requires { All (λ root. root < length (O.lists opener.now)) roots.now }
        ensures { IfOk result (λ book. book ≡ record {
          lists = O.lists opener.now;
          roots = roots.now;
          given = 0;
          failed = false;
          kept = [];
          groups = [];
        }) }
    {
        let count = opener.count();
        Ok(Book {
            lists: Tag::of::<O, Lists>(opener),
            roots: roots.to_vec(alloc)?,
            given: 0,
            failed: false,
            blocked: Blocked::make(alloc, count, count)?,
            released: Released::make(alloc, count)?,
        })
    }

    /// The next of the roots, or none if all were handed out.
    pub fn next_root(&mut self) -> Option<u32>
        ensures next { result ≡ slice_get self.old.roots self.old.given }
        ensures given { IfSome result (λ _. self.new ≡ record self.old { given = self.old.given + 1 }) }
        ensures unchanged { IfNone result (self.new ≡ self.old) }
        ensures all { IfNone result (self.old.given ≡ length self.old.roots) }
    {
        let root = self.roots.get(self.given).copied()?;
        self.given += 1;
        Some(root)
    }

    /// Marks the book as failed: workers that find the mark end. Nothing else changes.
    pub fn fail(&mut self)
        ensures { self.new ≡ record self.old { failed = true } }
    {
        self.failed = true;
    }

    /// Whether the book is marked as failed.
    pub fn has_failed(&self) -> bool
        ensures { result ≡ self.now.failed }
    {
        self.failed
    }

    /// The roots that the book was made with.
    pub fn roots(&self) -> &[u32]
        ensures { result.now ≡ self.now.roots }
    {
        &self.roots
    }

    /// The released groups.
    pub fn released(&self) -> &Released
        ensures { result.now ≡ released_of self.now }
    {
        &self.released
    }

    /// The suspended searches.
    pub fn blocked(&self) -> &Blocked
        ensures { result.now ≡ table_of self.now }
    {
        &self.blocked
    }

    /// Whether a suspended search is ready. It takes constant time.
    pub fn has_ready(&self) -> bool
        ensures { IsTrue result ↔ HasReady self.now.kept }
    {
        self.blocked.has_ready()
    }

    /// The invariant of each book. The function does nothing, and is called for what it ensures.
    pub fn keeps(&self)
        ensures good { IsGoodBook self.now }
        ensures table { IsTable (table_of self.now) }
        ensures released { AreReleased (released_of self.now) }
    {
        self.blocked.holder(0);
        self.released.groups();
    }

    /// The released groups in reverse topological order, which leave the book.
    pub fn into_groups(self) -> Vec<Vec<u32>>
        ensures groups { lists_of result.items ≡ self.groups }
        ensures legal { IsLegalOrder (Calls self.lists) self.groups }
        ensures reached { (v : ℕ) → HasMember self.groups v → IsReached (Calls self.lists) self.roots v }
    {
        self.released.into_groups()
    }
}
