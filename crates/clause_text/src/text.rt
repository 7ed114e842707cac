ghost use Rattle.std.specs.Prelude.{◌≡◌, ◌≢◌, ◌≤◌, List, length, IfOk, IfErr, IfSome};
ghost use Rattle.prolog_tokens.specs.declared.limits.TheConstants.{MOST_BYTES};
ghost use Rattle.prolog_tokens.specs.Places.{IsOffset};
ghost use Rattle.prolog_terms.specs.Tree.{Tree};
ghost use Rattle.clause_text.specs.Clauses.{ReadsAs, text_trees, total_weight};
ghost use Rattle.clause_text.specs.Kept.{ReadsPlainly};
ghost use Rattle.clause_text.specs.TextFault.{HasTextFault, offset_of};

use crate::cause::Cause;
use crate::cutting::cut_text;
use crate::fault::TextFault;
use crate::parts::read_clauses;
use crate::text_clauses::TextClauses;
use prolog_names::number_rows;
use std::alloc::Global;
use std::thread::Threads;

/// The clauses of a text of at most 8,388,608 bytes in their order (ISO/IEC 13211-1, 6.2). Each is
/// read with the operators that those before it leave, and kept by its plain tree.
///
/// An error of its bytes comes first, then one of its tokens, and then the first one of its
/// clauses. Each clause is read before its operator items are done. Clauses between operator items
/// are read in parallel, which doesn't change the result. No more stretches of clauses are read in
/// vain than are used.
pub fn read_text<R: Threads + Sync>(
    rt: &R,
    alloc: Global,
    bytes: &[u8],
) -> Result<TextClauses, TextFault>
    requires small { length bytes.now ≤ MOST_BYTES }
    ensures ok { IfOk result (λ clauses. ReadsPlainly bytes.now (text_trees clauses)) }
    ensures only { IfOk result (λ clauses. (others : List Tree) → ReadsPlainly bytes.now others → others ≡ text_trees clauses) }
    ensures none { IfErr result (λ fault. fault ≢ TextFault.NoMemory → (others : List Tree) → ReadsAs bytes.now others → ⊥) }
    ensures fault { IfErr result (λ fault. fault ≢ TextFault.NoMemory → HasTextFault bytes.now fault) }
    ensures only_fault { IfErr result (λ fault. fault ≢ TextFault.NoMemory → (other : TextFault) → HasTextFault bytes.now other → other ≡ fault) }
    ensures offset { IfErr result (λ fault. IfSome (offset_of fault) (λ at. IsOffset bytes.now at)) }
    ensures weights { IfOk result (λ clauses. total_weight (text_trees clauses) ≤ length bytes.now) }
{
    let text = match str::from_utf8(bytes) {
        Ok(text) => text,
        Err(error) => return Err(TextFault::At(Cause::NotUtf8, error.valid_up_to() as u32)),
    };
    let rows = cut_text(rt, alloc, text)?;
    let numbered = number_rows(alloc, text, rows)?;
    read_clauses(rt, alloc, text, numbered)
}
