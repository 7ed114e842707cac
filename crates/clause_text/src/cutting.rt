//! The tokens of a text, which is lexed in parallel if it is long.

ghost use Rattle.std.specs.Prelude.{◌≡◌, ◌≢◌, ◌≤◌, length, All, IfOk, IfErr, IfSome};
ghost use Rattle.prolog_tokens.specs.declared.limits.TheConstants.{MOST_BYTES};
ghost use Rattle.prolog_tokens.specs.Cut.{IsCut, HasFault};
ghost use Rattle.prolog_tokens.specs.Places.{IsOffset, fault_offset};
ghost use Rattle.prolog_tokens.specs.Rows.{IsSpan, IsRow, EachEndsClause, tokens_of};

use prolog_tokens::{Span, Token, TokenFault, TokenRow, after_end, clause_rows, spans, tokens_in};
use rayon::current_num_threads;
use rayon::prelude::*;
use std::alloc::{AllocError, Global};
use std::thread::Threads;

/// Texts of fewer bytes are lexed in sequence: they are too short for threads to be worth it.
const LONG: usize = 1_048_576;

/// How few spans are worth a thread of their own.
const FEWEST: usize = 1;

/// The tokens of the span after its first End.
fn row_of(alloc: Global, text: &str, span: &Span) -> Result<TokenRow, AllocError>
    requires small { length text.now ≤ MOST_BYTES }
    requires span { IsSpan text.now span.now }
    ensures { IfOk result (IsRow text.now) }
{
    let clauses = after_end(text, span);
    tokens_in(alloc, text, &clauses)
}

/// The tokens of each of the spans of a text after its first End, lexed in parallel.
fn rows_of<R: Threads + Sync>(
    rt: &R,
    alloc: Global,
    text: &str,
    spans: &[Span],
) -> Result<Vec<TokenRow>, AllocError>
    requires small { length text.now ≤ MOST_BYTES }
    requires spans { All (IsSpan text.now) spans.now }
    ensures { IfOk result (λ rows. All (IsRow text.now) rows.items) }
{
    spans
        .par_iter()
        .with_min_len(FEWEST)
        .map(
            |span: &Span| -> Result<TokenRow, AllocError>
                requires { (length text.now ≤ MOST_BYTES) × IsSpan text.now span.now }
                ensures { IfOk result (IsRow text.entry.now) }
            { row_of(alloc, text, span) },
        )
        .collect::<Result<Vec<TokenRow>, AllocError>>(rt, alloc)?
}

/// The tokens of a text of at most 8,388,608 bytes in rows, or its first error, like `tokens`. No
/// clause goes on from one row to the next. The number of threads changes neither the tokens nor
/// the error.
pub fn cut_text<R: Threads + Sync>(
    rt: &R,
    alloc: Global,
    text: &str,
) -> Result<Vec<Vec<Token>>, TokenFault>
    requires small { length text.now ≤ MOST_BYTES }
    ensures ok { IfOk result (λ rows. IsCut text.now (tokens_of rows.items)) }
    ensures ends { IfOk result (λ rows. EachEndsClause rows.items) }
    ensures fault { IfErr result (λ fault. fault ≢ TokenFault.NoMemory → HasFault text.now fault) }
    ensures place { IfErr result (λ fault. IfSome (fault_offset fault) (λ at. IsOffset text.now at)) }
{
    if text.len() < LONG {
        return clause_rows(alloc, text, Vec::new(alloc));
    }
    if current_num_threads(rt) == 1 {
        return clause_rows(alloc, text, Vec::new(alloc));
    }
    let spans = spans(alloc, text)?;
    let rows = rows_of(rt, alloc, text, &spans)?;
    clause_rows(alloc, text, rows)
}
