ghost use Rattle.std.specs.Prelude.{◌≡◌, ◌≢◌, ◌≤◌, ◌++◌, List, length, IfOk, IfErr, OnOk};
ghost use Rattle.prolog_tokens.specs.declared.limits.TheConstants.{MOST_BYTES};
ghost use Rattle.prolog_ops.specs.Table.{ops_of};
ghost use Rattle.prolog_terms.specs.declared.node.Node.{Node as NodeOf};
ghost use Rattle.prolog_terms.specs.ReaderSeen.{is_finished};
ghost use Rattle.prolog_terms.specs.StackSeen.{Names as NamesSeen, see_reader};
ghost use Rattle.prolog_terms.specs.Terms.{root_tree};
ghost use Rattle.prolog_terms.specs.Words.{table_of};
ghost use Rattle.prolog_terms.specs.Clause.{AreClauseTokens, IsOnlyClauseOf, IsOnlyReadFault};

use crate::feed::{feed, waiting_floor};
use crate::node_list::NodeList;
use crate::operator_sides::table_law;
use crate::read_fault::ReadFault;
use crate::state::Mode;
use crate::waiting::{Reader, Waiting};
use crate::word::word_of;
use prolog_names::Names;
use prolog_ops::OpTable;
use prolog_tokens::Token;
use std::alloc::Global;

/// The greatest depth of a clause.
pub const DEEPEST: usize = 1000;

/// The tokens run out, at the length of the text.
fn no_end(text: &str) -> ReadFault
    requires { length text.now ≤ MOST_BYTES }
    ensures { result ≡ ReadFault.NoEnd (length text.now) }
{
    ReadFault::NoEnd(text.len() as u32)
}

/// Whether the clause and its End are read.
fn is_finished(reader: &Reader) -> bool
    ensures { (names : NamesSeen) → result ≡ is_finished (see_reader names reader.now) }
{
    match reader.waiting {
        Waiting::Nothing => match reader.state.mode {
            Mode::Done => true,
            Mode::Want => false,
            Mode::Have => false,
        },
        Waiting::Name => false,
        Waiting::Operator => false,
        Waiting::Doubt => false,
    }
}

/// Reads the tokens as one clause and its End. The clause is the last of the reader's nodes.
fn read_nodes(
    reader: &mut Reader,
    table: &OpTable,
    names: &Names,
    text: &str,
    tokens: &[Token],
    numbers: &[u32],
) -> Result<(), ReadFault>
    requires { AreClauseTokens text.now names.now tokens.now numbers.now }
    ensures ok { OnOk result (IsOnlyClauseOf (table_of (ops_of table.now)) text.now tokens.now (root_tree names.now reader.new.state.nodes)) }
    ensures fault { IfErr result (λ fault. fault ≢ ReadFault.NoMemory
        → IsOnlyReadFault (table_of (ops_of table.now)) text.now tokens.now fault) }
{
    table_law(table);
    reader.begin();
    for (at, token) in tokens.iter().enumerate() {
        let word = word_of(names, text, *token, numbers[at]);
        if !feed(table, names, reader, word)? {
            return Err(ReadFault::Stuck(token.start));
        }
        if waiting_floor(reader) > DEEPEST {
            return Err(ReadFault::TooDeep(token.start));
        }
    }
    if !is_finished(reader) {
        return Err(no_end(text));
    }
    Ok(())
}

/// Reads the tokens like `read_clause`, and appends the nodes of the clause. It is the last of all
/// nodes then, and the earlier ones stay unchanged.
///
/// Its errors are those of `read_clause`.
pub fn read_onto(
    reader: &mut Reader,
    table: &OpTable,
    names: &Names,
    text: &str,
    tokens: &[Token],
    numbers: &[u32],
    nodes: &mut NodeList,
) -> Result<(), ReadFault>
    requires { AreClauseTokens text.now names.now tokens.now numbers.now }
    ensures more { (more : List NodeOf) × (nodes.new ≡ nodes.old ++ more) }
    ensures ok { OnOk result (IsOnlyClauseOf (table_of (ops_of table.now)) text.now tokens.now (root_tree names.now nodes.new)) }
    ensures fault { IfErr result (λ fault. fault ≢ ReadFault.NoMemory
        → IsOnlyReadFault (table_of (ops_of table.now)) text.now tokens.now fault) }
{
    match read_nodes(reader, table, names, text, tokens, numbers) {
        Ok(()) => {}
        Err(fault) => return Err(fault),
    }
    nodes.append(&mut reader.state.nodes)?;
    Ok(())
}

/// Reads the tokens up to an End as one clause (ISO/IEC 13211-1, 6.3). The clause is the last of
/// the nodes that it returns.
///
/// The tokens are a part of those of a text of at most 8,388,608 bytes, and `numbers` has the
/// number of the name of each. What the reader has read before doesn't matter.
///
/// Fails with the byte offset of the first token with which no clause continues, or only one deeper
/// than 1,000, or with the length of the text if the tokens end too early. The steps are linear in
/// the tokens.
pub fn read_clause(
    alloc: Global,
    reader: &mut Reader,
    table: &OpTable,
    names: &Names,
    text: &str,
    tokens: &[Token],
    numbers: &[u32],
) -> Result<NodeList, ReadFault>
    requires { AreClauseTokens text.now names.now tokens.now numbers.now }
    ensures ok { IfOk result (λ nodes. IsOnlyClauseOf (table_of (ops_of table.now)) text.now tokens.now (root_tree names.now nodes)) }
    ensures fault { IfErr result (λ fault. fault ≢ ReadFault.NoMemory
        → IsOnlyReadFault (table_of (ops_of table.now)) text.now tokens.now fault) }
{
    let mut nodes = NodeList::new(alloc);
    match read_onto(reader, table, names, text, tokens, numbers, &mut nodes) {
        Ok(()) => Ok(nodes),
        Err(fault) => Err(fault),
    }
}
