//! The clauses of a predicate.

ghost use Rattle.std.specs.Prelude.{◌≡◌, ◌++◌, ◌∷◌, [], IfOk, OnOk};
ghost use Rattle.module_table.specs.Defined.{kept_clauses};

use clause_text::Clause;
use std::alloc::{AllocError, Global};

/// The clauses of a predicate, in the order of the text. Most predicates of a large file have one,
/// which takes no memory of its own.
#[derive(Drop)]
pub enum Clauses {
    One([Clause; 1]),
    More(Vec<Clause>),
}

impl Clauses {
    /// The clauses in the order of the text.
    pub fn as_slice(&self) -> &[Clause]
        ensures { result.now ≡ kept_clauses self.now }
    {
        match self {
            Clauses::One(one) => one,
            Clauses::More(more) => more.as_slice(),
        }
    }

    /// The clauses as a list, to which more are added.
    fn into_list(self, alloc: Global) -> Result<Vec<Clause>, AllocError>
        ensures { IfOk result (λ list. list.items ≡ kept_clauses self) }
    {
        match self {
            Clauses::One(one) => Ok(Vec::from_array(alloc, one)?),
            Clauses::More(more) => Ok(more),
        }
    }

    /// Adds a clause.
    pub(crate) fn push(&mut self, alloc: Global, clause: Clause) -> Result<(), AllocError>
        ensures { OnOk result (kept_clauses self.new ≡ kept_clauses self.old ++ clause ∷ []) }
    {
        let old = std::mem::replace(self, Clauses::More(Vec::new(alloc)));
        let mut list = old.into_list(alloc)?;
        list.push(clause)?;
        *self = Clauses::More(list);
        Ok(())
    }

    /// Adds more clauses.
    pub(crate) fn append(&mut self, alloc: Global, more: Clauses) -> Result<(), AllocError>
        ensures { OnOk result (kept_clauses self.new ≡ kept_clauses self.old ++ kept_clauses more) }
    {
        let old = std::mem::replace(self, Clauses::More(Vec::new(alloc)));
        let mut list = old.into_list(alloc)?;
        let mut others = more.into_list(alloc)?;
        list.append(&mut others)?;
        *self = Clauses::More(list);
        Ok(())
    }
}
