ghost use Rattle.std.specs.Prelude.{◌≡◌, ◌<◌, ◌≤◌, ℕ, length, IfOk};
ghost use Rattle.search_stack.specs.Search.{IsDistinct, IsOn};
ghost use Rattle.search_stack.specs.Stack.{size};
ghost use Rattle.blocked_table.specs.BlockedFields.{AreWaiting, AreWhole, AreWords};
ghost use Rattle.blocked_table.specs.Words.{AreWritten};

use crate::waiters::Waiters;
use search_stack::Search;
use std::alloc::AllocError;

/// Writes the words of all nodes and slots if no slot was used yet, since the first suspended search
/// needs them. If out of memory, `holders` and `waiters` stay as they were.
pub(crate) fn write_first(
    kept: &Vec<Option<Search>>,
    holders: &mut Vec<u32>,
    waiters: &mut Waiters,
    count: u32,
    most: u32,
) -> Result<(), AllocError>
    requires words { AreWords holders.old.items kept.now.items }
    requires waiting { AreWaiting waiters.old.words kept.now.items }
    requires whole { 0 < length kept.now.items → AreWhole count most holders.old.items waiters.old }
    ensures words { AreWords holders.new.items kept.now.items }
    ensures waiting { AreWaiting waiters.new.words kept.now.items }
    ensures whole { IfOk result (λ done. AreWhole count most holders.new.items waiters.new) }
    ensures still { 0 < length kept.now.items → AreWhole count most holders.new.items waiters.new }
{
    if !kept.is_empty() {
        return Ok(());
    }
    let alloc = *holders.allocator();
    let words = vec![in alloc; 0u32; count as usize]?;
    *waiters = Waiters::make(alloc, count, most)?;
    *holders = words;
    Ok(())
}

/// Writes a word at each node of a search, from a position on. It takes a step a node.
pub(crate) fn write_words(holders: &mut Vec<u32>, search: &Search, from: u32, word: u32)
    requires within { from ≤ size search.now.stack }
    requires below { (v : ℕ) → IsOn search.now.stack v → v < length holders.old.items }
    ensures written { AreWritten search.now.stack from (size search.now.stack) word holders.old.items holders.new.items }
    ensures distinct { IsDistinct search.now.stack }
{
    'positions: for position in from..search.len() {
        let node = search.node_at(position) as usize;
        holders[node] = word;
    }
}
