//! A theorem about the tokens of each clause: a function that does nothing, and is called for what
//! it ensures.

ghost use Rattle.std.specs.Prelude.{◌⊎◌, ℕ, List};
ghost use Rattle.prolog_ops.specs.Table.{Ops, IsOps};
ghost use Rattle.prolog_terms.specs.Tree.{Tree};
ghost use Rattle.prolog_terms.specs.Words.{table_of};
ghost use Rattle.prolog_terms.specs.Clause.{ArePart, IsClauseOf, IsReadFault};

use prolog_terms::ReadFault;
use prolog_tokens::Token;

/// A part of the tokens of a text is a clause, or there is an error of reading it.
pub fn clause_or_fault()
    ensures { (ops : Ops) → IsOps ops → (text : List ℕ) (ts : List Token) → ArePart text ts
        → ((tree : Tree) × IsClauseOf (table_of ops) text ts tree) ⊎ ((fault : ReadFault) × IsReadFault (table_of ops) text ts fault) }
{}
