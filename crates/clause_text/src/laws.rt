//! Theorems about each text: functions that do nothing, and are called for what they ensure.

ghost use Rattle.std.specs.Prelude.{◌≡◌, ℕ, List, All, map};
ghost use Rattle.kept_clauses.specs.Plain.{plain};
ghost use Rattle.prolog_terms.specs.Tree.{Tree};
ghost use Rattle.clause_text.specs.Cause.{number_of};
ghost use Rattle.clause_text.specs.Clauses.{ReadsAs};
ghost use Rattle.clause_text.specs.Offsets.{HasOffsets};
ghost use Rattle.clause_text.specs.TextFault.{HasTextFault};

use crate::cause::Cause;
use crate::fault::TextFault;

/// No two causes have the same number.
pub fn numbers_differ()
    ensures { (a b : Cause) → number_of a ≡ number_of b → a ≡ b }
{}

/// A text has at most one list of clauses.
pub fn one_reading()
    ensures { (text : List ℕ) (trees others : List Tree) → ReadsAs text trees → ReadsAs text others → trees ≡ others }
{}

/// A text has at most one error.
pub fn one_fault()
    ensures { (text : List ℕ) (fault second : TextFault) → HasTextFault text fault → HasTextFault text second → fault ≡ second }
{}

/// A text with an error has no list of clauses.
pub fn fault_is_no_reading()
    ensures { (text : List ℕ) (fault : TextFault) (trees : List Tree) → HasTextFault text fault → ReadsAs text trees → ⊥ }
{}

/// Each term of the clauses of a text starts at an offset of it, and so does each of their plain
/// trees.
pub fn terms_placed()
    ensures whole { (text : List ℕ) (trees : List Tree) → ReadsAs text trees → All (HasOffsets text) trees }
    ensures plain { (text : List ℕ) (trees : List Tree) → ReadsAs text trees → All (HasOffsets text) (map plain trees) }
{}
