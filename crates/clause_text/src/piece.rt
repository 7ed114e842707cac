//! Adjacent clauses of a text, read under one table of operators.

ghost use Rattle.std.specs.Prelude.{◌≡◌, ◌≢◌, ◌<◌, ◌++◌, ℕ, List, length, map, All, IfOk, IfErr, OnOk};
ghost use Rattle.std.specs.Arc.{arc_value};
ghost use Rattle.prolog_tokens.specs.declared.token.Token.{Token as TokenOf};
ghost use Rattle.prolog_ops.specs.Table.{Ops, ops_of};
ghost use Rattle.prolog_terms.specs.declared.node.Node.{Node as NodeOf};
ghost use Rattle.prolog_terms.specs.Terms.{root_tree, tree_in};
ghost use Rattle.prolog_terms.specs.Clause.{AreClauseTokens, IsClauseOf};
ghost use Rattle.prolog_terms.specs.Words.{table_of};
ghost use Rattle.clause_text.specs.Items.{has_some, items_of};
ghost use Rattle.clause_text.specs.Clauses.{EndsFirst, IsUnread, clause_trees};
ghost use Rattle.clause_text.specs.Pieces.{AreRowTokens, IsBehindClause, IsStretch, AreStretches, IsRead, ReadEndIs, KeptEndIs, IsPiece, EndIs, ArePieces};
ghost use Rattle.kept_clauses.specs.Plain.{plain};
ghost use Rattle.kept_clauses.specs.Words.{AreKept, kept_tree};
ghost use Rattle.prolog_terms.specs.Tree.{Tree};

use crate::Clause;
use crate::fault::TextFault;
use crate::items::has_items;
use kept_clauses::KeptList;
use prolog_names::{Names, Numbered, numbered_part};
use prolog_ops::OpTable;
use prolog_terms::{NodeList, Reader, Term, read_onto};
use prolog_tokens::{Kind, Token};
use rayon::prelude::*;
use std::alloc::{AllocError, Global};
use std::sync::Arc;
use std::thread::Threads;

/// How many tokens a stretch has at least, except the last one of a text.
const SIZE: usize = 4096;

/// How few stretches are worth a thread of their own.
const FEWEST: usize = 2;

/// Adjacent clauses, as yet unread: from one token index up to another.
#[derive(Clone, Copy)]
pub struct Stretch {
    pub from: usize,
    pub to: usize,
}

/// What follows the clauses of a piece.
#[derive(Drop)]
pub enum PieceEnd {
    /// Nothing: the stretch is read completely.
    Whole,
    /// A clause that sets operators, which aren't set yet, and the index of the token after it.
    AtOperators(Clause, usize),
    /// A clause that can't be read.
    Refused(TextFault),
}

/// What a stretch is read as: the clauses at its front that set no operators.
#[derive(Drop)]
pub struct Piece {
    pub clauses: Vec<Clause>,
    /// The end of the stretch.
    pub to: usize,
    pub end: PieceEnd,
}

/// The token index after the first End from `from` on, or after the last token.
fn part_end(tokens: &[Token], from: usize) -> usize
    requires { from < length tokens.now }
    ensures { EndsFirst tokens.now from result }
{
    let mut at = from;
    while at + 1 < tokens.len() {
        if tokens[at].kind == Kind::End {
            break;
        }
        at += 1;
    }
    at + 1
}

/// The end of a new stretch that begins at the token index.
fn stretch_end(tokens: &[Token], from: usize) -> usize
    requires { from < length tokens.now }
    ensures some { from < result }
    ensures ends { IsBehindClause tokens.now result }
{
    let size = SIZE.min(tokens.len() - from);
    part_end(tokens, from + size - 1)
}

/// The end of the next stretch from the token index on. It is `until` if that is after the index,
/// which is within a stretch then.
fn end_from(tokens: &[Token], at: usize, until: usize) -> usize
    requires within { at < length tokens.now }
    requires until { at < until → IsBehindClause tokens.now until }
    ensures some { at < result }
    ensures ends { IsBehindClause tokens.now result }
{
    if at < until {
        return until;
    }
    stretch_end(tokens, at)
}

/// The next stretches from the token index `from` on: at least one, and at most `most`. The first
/// ends at `until` if that is after `from`.
pub fn stretches_from(
    alloc: Global,
    tokens: &[Token],
    from: usize,
    until: usize,
    most: usize,
) -> Result<Vec<Stretch>, AllocError>
    requires within { from < length tokens.now }
    requires until { from < until → IsBehindClause tokens.now until }
    ensures { IfOk result (λ stretches. (to : ℕ) × (from < to) × AreStretches tokens.now from stretches.items to) }
{
    let mut stretches = Vec::new(alloc);
    let mut at = from;
    while at < tokens.len() {
        let to = end_from(tokens, at, until);
        stretches.push(Stretch { from: at, to })?;
        at = to;
        if stretches.len() >= most {
            break;
        }
    }
    Ok(stretches)
}

/// Adds the nodes of the clause that the tokens up to an End are under the table, with the numbers
/// of their names. Returns whether it sets operators.
fn read_part(
    alloc: Global,
    reader: &mut Reader,
    table: &OpTable,
    names: &Names,
    text: &str,
    tokens: &[Token],
    numbers: &[u32],
    nodes: &mut NodeList,
) -> Result<bool, TextFault>
    requires { AreClauseTokens text.now names.now tokens.now numbers.now }
    ensures more { (more : List NodeOf) × (nodes.new ≡ nodes.old ++ more) }
    ensures clause { OnOk result (IsClauseOf (table_of (ops_of table.now)) text.now tokens.now (root_tree names.now nodes.new)) }
    ensures sets { IfOk result (λ sets. sets ≡ has_some (items_of (root_tree names.now nodes.new))) }
    ensures fault { IfErr result (λ fault. fault ≢ TextFault.NoMemory → IsUnread (ops_of table.now) text.now tokens.now fault) }
{
    read_onto(reader, table, names, text, tokens, numbers, nodes)?;
    let sets = has_items(alloc, &Term::root(names, nodes))?;
    Ok(sets)
}

/// What follows the clauses that were read of a stretch.
#[derive(Clone, Copy)]
enum ReadEnd {
    /// Nothing: the stretch is read completely.
    Whole,
    /// A clause that sets operators, the last of the nodes, and the index of the token after it.
    AtOperators(usize),
    /// A clause that can't be read.
    Refused(TextFault),
}

/// What is read of a stretch: nodes, how many of them there are up to the end of each clause, and
/// what follows these clauses.
#[derive(Drop)]
struct ReadStretch {
    nodes: NodeList,
    ends: Vec<usize>,
    end: ReadEnd,
}

/// What the stretch is read as under the table, up to a clause that sets operators or an error. Its
/// nodes are added to `nodes`.
fn read_on(
    alloc: Global,
    table: &OpTable,
    text: &str,
    tokens: &[Token],
    numbered: &Numbered,
    stretch: &Stretch,
    mut nodes: NodeList,
) -> ReadStretch
    requires tokens { AreRowTokens text.now tokens.now numbered.now }
    requires stretch { IsStretch tokens.now stretch.now }
    ensures { IsRead numbered.now.names (ops_of table.now) text.now tokens.now stretch.now.from stretch.now.to result }
{
    numbered_part();
    let names = &numbered.names;
    let numbers = numbered.numbers.as_slice();
    let mut reader = Reader::new(alloc);
    let mut ends = Vec::new(alloc);
    let mut at = stretch.from;
    while at < stretch.to {
        let next = part_end(tokens, at);
        let sets = match read_part(
            alloc,
            &mut reader,
            table,
            names,
            text,
            &tokens[at..next],
            &numbers[at..next],
            &mut nodes,
        ) {
            Ok(sets) => sets,
            Err(fault) => {
                let end = ReadEnd::Refused(fault);
                return ReadStretch { nodes, ends, end };
            }
        };
        if sets {
            let end = ReadEnd::AtOperators(next);
            return ReadStretch { nodes, ends, end };
        }
        if ends.push(nodes.len()).is_err() {
            let end = ReadEnd::Refused(TextFault::NoMemory);
            return ReadStretch { nodes, ends, end };
        }
        at = next;
    }
    let end = ReadEnd::Whole;
    ReadStretch { nodes, ends, end }
}

/// The clauses that end at these indices of the nodes, as they are kept, and the indices at which
/// they begin in the list.
fn plain_clauses(
    alloc: Global,
    names: &Names,
    nodes: &NodeList,
    ends: &[usize],
) -> Result<(KeptList, Vec<usize>), AllocError>
    ensures { IfOk result (λ kept. AreKept names.now kept.0 kept.1.items (map (λ end. plain (tree_in names.now nodes.now end)) ends.now)) }
{
    let mut list = KeptList::new(alloc);
    let mut begins = Vec::with_capacity(alloc, ends.len())?;
    for end in ends {
        let clause = Term {
            names,
            nodes,
            end: *end,
        };
        begins.push(list.push_clause(&clause)?)?;
    }
    Ok((list, begins))
}

/// Adds the last clause of the nodes if it sets operators, and returns the index at which it begins.
fn push_last(
    list: &mut KeptList,
    names: &Names,
    nodes: &NodeList,
    end: ReadEnd,
) -> Result<usize, AllocError>
    ensures same { IfOk result (λ at. (begins : List ℕ) (trees : List Tree) → AreKept names.now list.old begins trees
        → AreKept names.now list.new begins trees) }
    ensures last { IfOk result (λ at. (table : Ops) (text : List ℕ) (ts : List TokenOf) (from to : ℕ)
        → ReadEndIs names.now table text ts from to nodes.now end → KeptEndIs names.now table text ts from to list.new at end) }
{
    match end {
        ReadEnd::Whole => Ok(0),
        ReadEnd::AtOperators(_) => list.push_clause(&Term::root(names, nodes)),
        ReadEnd::Refused(_) => Ok(0),
    }
}

/// The clauses that begin at these indices of the list, which they share.
fn sharing(alloc: Global, list: &Arc<KeptList>, begins: &[usize]) -> Result<Vec<Clause>, AllocError>
    ensures { IfOk result (λ clauses. (names : List (List ℕ)) → clause_trees names clauses.items ≡ map (kept_tree names (arc_value list.now)) begins.now) }
{
    let mut clauses = Vec::with_capacity(alloc, begins.len())?;
    for at in begins {
        let list = Arc::try_clone(list)?;
        clauses.push(Clause { list, at: *at })?;
    }
    Ok(clauses)
}

/// What follows the clauses, if the last of the list begins at that index.
fn piece_end(list: Arc<KeptList>, at: usize, end: ReadEnd) -> PieceEnd
    ensures { (names : List (List ℕ)) (table : Ops) (text : List ℕ) (ts : List TokenOf) (from to : ℕ)
        → KeptEndIs names table text ts from to (arc_value list) at end → EndIs names table text ts from to result }
{
    match end {
        ReadEnd::Whole => PieceEnd::Whole,
        ReadEnd::AtOperators(place) => PieceEnd::AtOperators(Clause { list, at }, place),
        ReadEnd::Refused(fault) => PieceEnd::Refused(fault),
    }
}

/// What was read of a stretch up to the token `to`, as clauses that share their list. The list has
/// no spare capacity.
fn share_list(
    alloc: Global,
    names: &Names,
    read: ReadStretch,
    to: usize,
) -> Result<Piece, AllocError>
    ensures { IfOk result (λ piece. (table : Ops) (text : List ℕ) (ts : List TokenOf) (from : ℕ)
        → IsRead names.now table text ts from to read → IsPiece names.now table text ts from to piece) }
{
    let (mut list, begins) = plain_clauses(alloc, names, &read.nodes, &read.ends)?;
    let last = push_last(&mut list, names, &read.nodes, read.end)?;
    let list = Arc::new(alloc, list.exact_copy(alloc)?)?;
    let clauses = sharing(alloc, &list, &begins)?;
    let end = piece_end(list, last, read.end);
    Ok(Piece { clauses, to, end })
}

/// What the stretch is read as under the table. A clause has no more nodes than tokens.
fn read_stretch(
    alloc: Global,
    table: &OpTable,
    text: &str,
    tokens: &[Token],
    numbered: &Numbered,
    stretch: &Stretch,
) -> Result<Piece, AllocError>
    requires tokens { AreRowTokens text.now tokens.now numbered.now }
    requires stretch { IsStretch tokens.now stretch.now }
    ensures { IfOk result (IsPiece numbered.now.names (ops_of table.now) text.now tokens.now stretch.now.from stretch.now.to) }
{
    let room = stretch.to - stretch.from;
    let nodes = NodeList::with_room(alloc, room)?;
    let read = read_on(alloc, table, text, tokens, numbered, stretch, nodes);
    share_list(alloc, &numbered.names, read, stretch.to)
}

/// The piece of a stretch up to the token `to` if memory runs out.
fn unread(alloc: Global, to: usize) -> Piece
    ensures { (names : List (List ℕ)) (table : Ops) (text : List ℕ) (ts : List TokenOf) (from : ℕ)
        → from < to → IsBehindClause ts to → IsPiece names table text ts from to result }
{
    Piece {
        clauses: Vec::new(alloc),
        to,
        end: PieceEnd::Refused(TextFault::NoMemory),
    }
}

/// What the stretch is read as under the table, or that memory ran out.
fn piece_of(
    alloc: Global,
    table: &OpTable,
    text: &str,
    tokens: &[Token],
    numbered: &Numbered,
    stretch: &Stretch,
) -> Piece
    requires tokens { AreRowTokens text.now tokens.now numbered.now }
    requires stretch { IsStretch tokens.now stretch.now }
    ensures { IsPiece numbered.now.names (ops_of table.now) text.now tokens.now stretch.now.from stretch.now.to result }
{
    match read_stretch(alloc, table, text, tokens, numbered, stretch) {
        Ok(piece) => piece,
        Err(_) => unread(alloc, stretch.to),
    }
}

/// What the stretches are read as under the table, in their order. They are read in parallel, and
/// share the names.
pub fn read_each<R: Threads + Sync>(
    rt: &R,
    alloc: Global,
    table: &OpTable,
    text: &str,
    tokens: &[Token],
    numbered: &Numbered,
    stretches: &[Stretch],
) -> Result<Vec<Piece>, AllocError>
    requires tokens { AreRowTokens text.now tokens.now numbered.now }
    requires stretches { All (IsStretch tokens.now) stretches.now }
    ensures { IfOk result (λ pieces. (from to : ℕ) → AreStretches tokens.now from stretches.now to
        → ArePieces numbered.now.names (ops_of table.now) text.now tokens.now from pieces.items to) }
{
    stretches
        .par_iter()
        .with_min_len(FEWEST)
        .map(
            |stretch: &Stretch| -> Piece
                requires { AreRowTokens text.now tokens.now numbered.now × IsStretch tokens.now stretch.now }
                ensures { IsPiece numbered.entry.now.names (ops_of table.entry.now) text.entry.now tokens.entry.now
                    stretch.entry.now.from stretch.entry.now.to result }
            { piece_of(alloc, table, text, tokens, numbered, stretch) },
        )
        .collect(rt, alloc)
}
