//! Each text has clauses or an error, and each file has facts or an error.

ghost use Rattle.std.specs.Prelude.{◌≡◌, ◌⊎◌, ℕ, List, Err};
ghost use Rattle.prolog_terms.specs.Tree.{Tree};
ghost use Rattle.clause_text.specs.declared.fault.TextFault.{TextFault};
ghost use Rattle.clause_text.specs.Clauses.{ReadsAs};
ghost use Rattle.clause_text.specs.TextFault.{HasTextFault};
ghost use Rattle.module_table.specs.Said.{Refusal};
ghost use Rattle.module_table.specs.Facts.{Facts, AreFacts, file_said};
ghost use Rattle.module_table.specs.FileText.{HasFacts, HasFault};

use crate::clause::clause_or_fault;
use crate::cut::cut_or_fault;

/// The clauses of a file have facts, or what they say has an error.
pub fn facts_or_refusal()
    ensures { (name : List ℕ) (trees : List Tree)
        → ((facts : Facts) × AreFacts name trees facts) ⊎ ((refusal : Refusal) × (file_said name trees ≡ Err refusal)) }
{}

/// A text has clauses or an error.
pub fn reading_or_fault()
    ensures { (text : List ℕ) → ((trees : List Tree) × ReadsAs text trees) ⊎ ((fault : TextFault) × HasTextFault text fault) }
{
    cut_or_fault();
    clause_or_fault();
}

/// A file, by its name and its text, has facts or an error.
pub fn file_or_fault()
    ensures { (name text : List ℕ) → ((facts : Facts) × HasFacts name text facts) ⊎ ((refusal : Refusal) × HasFault name text refusal) }
{
    cut_or_fault();
    clause_or_fault();
}
