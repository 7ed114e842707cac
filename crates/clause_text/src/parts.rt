ghost use Rattle.std.specs.Prelude.{◌≡◌, ◌≢◌, ◌≤◌, ◌<◌, ℕ, List, length, All, IfOk, IfErr, OnOk};
ghost use Rattle.prolog_tokens.specs.declared.limits.TheConstants.{MOST_BYTES};
ghost use Rattle.prolog_tokens.specs.declared.token.Token.{Token as TokenOf};
ghost use Rattle.prolog_tokens.specs.Cut.{IsCut};
ghost use Rattle.prolog_tokens.specs.Rows.{EachEndsClause, tokens_of};
ghost use Rattle.prolog_names.specs.Numbers.{IsNumberedRow, token_rows};
ghost use Rattle.prolog_ops.specs.Table.{ops_of};
ghost use Rattle.clause_text.specs.Kept.{ArePlainClauses};
ghost use Rattle.clause_text.specs.Clauses.{HasClauseFault, clause_trees, opening_ops, text_trees};
ghost use Rattle.clause_text.specs.Pieces.{AreRowTokens, IsBehindClause, ArePieces, AreAdded, IsFaultAhead};

use crate::fault::TextFault;
use crate::items::apply_items;
use crate::piece::{Piece, PieceEnd, read_each, stretches_from};
use crate::text_clauses::{Clause, TextClauses};
use prolog_names::{Names, Numbered, NumberedRow, NumberedRows};
use prolog_ops::OpTable;
use prolog_tokens::{Kind, Token};
use std::alloc::Global;
use std::thread::Threads;

/// How far the clauses of a text are final: up to the token `to`. The stretch that they are read
/// from ends at `until`, which is `to` unless operators changed. The next `ahead` stretches may be
/// read in parallel.
#[derive(Clone, Copy)]
struct Kept {
    to: usize,
    until: usize,
    ahead: usize,
}

/// Takes over the clauses of the pieces up to the first that sets operators, and sets these.
///
/// Later pieces were read with other operators, so they are dropped and read again. The rest of the
/// clause's stretch comes next. If no clause sets operators, twice as many stretches may be read
/// next. So no more stretches are read in vain than were taken over.
fn keep(
    alloc: Global,
    names: &Names,
    table: &mut OpTable,
    from: usize,
    pieces: Vec<Piece>,
    clauses: &mut Vec<Clause>,
) -> Result<Kept, TextFault>
    ensures kept { IfOk result (λ kept. (text : List ℕ) (ts : List TokenOf) (to : ℕ) → ArePieces names.now (ops_of table.old) text ts from pieces.items to
        → AreAdded (ops_of table.old) text ts from (clause_trees names.now clauses.old.items) (clause_trees names.now clauses.new.items)
        (ops_of table.new) kept.to) }
    ensures forward { IfOk result (λ kept. (text : List ℕ) (ts : List TokenOf) (to : ℕ) → ArePieces names.now (ops_of table.old) text ts from pieces.items to
        → from < to → from < kept.to) }
    ensures until { IfOk result (λ kept. (text : List ℕ) (ts : List TokenOf) (to : ℕ) → ArePieces names.now (ops_of table.old) text ts from pieces.items to
        → from < to → IsBehindClause ts kept.until) }
    ensures fault { IfErr result (λ fault. fault ≢ TextFault.NoMemory → (text : List ℕ) (ts : List TokenOf) (to : ℕ)
        → ArePieces names.now (ops_of table.old) text ts from pieces.items to → IsFaultAhead (ops_of table.old) text ts from fault) }
{
    let ahead = pieces.len().saturating_mul(2);
    let mut to = from;
    for piece in pieces {
        let Piece {
            clauses: mut more,
            to: until,
            end,
        } = piece;
        clauses.append(&mut more)?;
        match end {
            PieceEnd::Whole => to = until,
            PieceEnd::AtOperators(clause, place) => {
                apply_items(alloc, table, names, &clause)?;
                if clauses.push(clause).is_err() {
                    return Err(TextFault::NoMemory);
                }
                to = place;
                let ahead = 1;
                return Ok(Kept { to, until, ahead });
            }
            PieceEnd::Refused(fault) => return Err(fault),
        }
    }
    let until = to;
    Ok(Kept { to, until, ahead })
}

/// How many of the tokens are Ends, and so how many clauses need capacity.
fn count_ends(tokens: &[Token]) -> usize {
    tokens
        .iter()
        .filter(|token| token.kind == Kind::End)
        .count()
}

/// How many clauses need capacity.
fn count_clauses(rows: &[NumberedRow]) -> usize {
    let mut count: usize = 0;
    for row in rows {
        count = count.saturating_add(count_ends(&row.tokens));
    }
    count
}

/// Adds the clauses of a row of tokens, each up to its End, or fails with the error of the first
/// that can't be read. A clause is read with the operators that those before it leave in the table.
/// Returns how many stretches may be read in parallel next, which are `ahead` at first.
fn read_row<R: Threads + Sync>(
    rt: &R,
    alloc: Global,
    table: &mut OpTable,
    text: &str,
    tokens: &[Token],
    numbered: &Numbered,
    mut ahead: usize,
    clauses: &mut Vec<Clause>,
) -> Result<usize, TextFault>
    requires tokens { AreRowTokens text.now tokens.now numbered.now }
    ensures ok { OnOk result (AreAdded (ops_of table.old) text.now tokens.now 0 (clause_trees numbered.now.names clauses.old.items)
        (clause_trees numbered.now.names clauses.new.items) (ops_of table.new) (length tokens.now)) }
    ensures fault { IfErr result (λ fault. fault ≢ TextFault.NoMemory → IsFaultAhead (ops_of table.old) text.now tokens.now 0 fault) }
{
    let mut from = 0;
    let mut until = 0;
    while from < tokens.len() {
        let stretches = stretches_from(alloc, tokens, from, until, ahead)?;
        let pieces = read_each(rt, alloc, table, text, tokens, numbered, &stretches)?;
        let kept = keep(alloc, &numbered.names, table, from, pieces, clauses)?;
        from = kept.to;
        until = kept.until;
        ahead = kept.ahead;
    }
    Ok(ahead)
}

/// The clauses of the tokens of a text in their order, with the names in them. The operators at its
/// beginning are the opening ones. A row of tokens is freed when its clauses are read.
pub fn read_clauses<R: Threads + Sync>(
    rt: &R,
    alloc: Global,
    text: &str,
    numbered: NumberedRows,
) -> Result<TextClauses, TextFault>
    requires small { length text.now ≤ MOST_BYTES }
    requires cut { IsCut text.now (tokens_of (token_rows numbered.rows.items)) }
    requires ends { EachEndsClause (token_rows numbered.rows.items) }
    requires numbered { All (IsNumberedRow text.now numbered.names) numbered.rows.items }
    ensures ok { IfOk result (λ clauses. ArePlainClauses opening_ops text.now (tokens_of (token_rows numbered.rows.items)) (text_trees clauses)) }
    ensures fault { IfErr result (λ fault. fault ≢ TextFault.NoMemory
        → HasClauseFault opening_ops text.now (tokens_of (token_rows numbered.rows.items)) fault) }
{
    let NumberedRows {
        names: mut names,
        rows,
    } = numbered;
    let mut table = OpTable::opening(alloc)?;
    let mut clauses = Vec::with_capacity(alloc, count_clauses(&rows))?;
    let mut ahead = 1;
    for row in rows {
        let NumberedRow { tokens, numbers } = row;
        let numbered = Numbered { names, numbers };
        ahead = read_row(
            rt,
            alloc,
            &mut table,
            text,
            &tokens,
            &numbered,
            ahead,
            &mut clauses,
        )?;
        names = numbered.names;
    }
    Ok(TextClauses { names, clauses })
}
