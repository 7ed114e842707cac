ghost use Rattle.std.specs.Prelude.{◌≡◌, ◌<◌, [], false, length, All, IfOk};

use graph_law::Opener;
use group_release::Book;
use std::alloc::{AllocError, Global};
use std::marker::Model;

/// A book in a box, so that taking it out of its slot moves only a pointer. Contracts see it as the
/// book.
#[derive(Drop)]
pub struct BoundBook {
    pub(crate) pages: Box<Book>,
}

impl Model for BoundBook {
    ghost use Rattle.group_release.specs.Book.{BookValue};

    ghost Value = { BookValue };

    ghost view = { λ bound. bound.pages.value };
}

impl BoundBook {
    /// A new book, in a box.
    pub(crate) fn make<O: Opener>(
        alloc: Global,
        opener: &O,
        roots: &[u32],
    ) -> Result<BoundBook, AllocError>
        requires { All (λ root. root < length (O.lists opener.now)) roots.now }
        ensures { IfOk result (λ book. book ≡ record {
          lists = O.lists opener.now;
          roots = roots.now;
          given = 0;
          failed = false;
          kept = [];
          groups = [];
        }) }
    {
        let book = Book::make(alloc, opener, roots)?;
        let pages = Box::new(alloc, book)?;
        Ok(BoundBook { pages })
    }

    pub(crate) fn pages(&self) -> &Book
        ensures { result.now ≡ self.now }
    {
        &self.pages
    }

    pub(crate) fn into_pages(self) -> Book
        ensures { result ≡ self }
    {
        Box::into_inner(self.pages)
    }
}
