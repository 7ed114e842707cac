//! Theorems about each clause: functions that do nothing, and are called for what they ensure.

ghost use Rattle.std.specs.Prelude.{◌≡◌, ◌++◌, ◌∷◌, [], ◌+◌, ◌≤◌, ℕ, List, length};
ghost use Rattle.prolog_terms.specs.declared.reader.TheConstants.{DEEPEST};
ghost use Rattle.prolog_ops.specs.Table.{Ops, IsOps};
ghost use Rattle.prolog_terms.specs.Tree.{Tree, depth};
ghost use Rattle.prolog_terms.specs.Words.{Word, Table, table_of};
ghost use Rattle.prolog_terms.specs.Grammar.{Parse, IsClause, yield};
ghost use Rattle.prolog_terms.specs.Clause.{IsClauseOf};
ghost use Rattle.prolog_terms.specs.Weight.{weight};

use prolog_tokens::Token;

/// No two clauses have the same tokens, under any table of operators.
pub fn one_clause()
    ensures { (ops : Ops) → IsOps ops → (a b : Parse) (e f : Word) → IsClause (table_of ops) a e → IsClause (table_of ops) b f → yield a ++ e ∷ []
        ≡ yield b ++ f ∷ [] → a ≡ b }
{}

/// A clause has at least two tokens more than arguments, items, tails and terms in brackets.
pub fn clause_weights()
    ensures { (T : Table) (text : List ℕ) (ts : List Token) (tree : Tree) → IsClauseOf T text ts tree → weight tree + 2 ≤ length ts }
{}

/// No clause is deeper than 1,000.
pub fn clause_depths()
    ensures { (T : Table) (text : List ℕ) (ts : List Token) (tree : Tree) → IsClauseOf T text ts tree → depth tree ≤ DEEPEST }
{}
