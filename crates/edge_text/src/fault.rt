//! Names that are too long.

ghost use Rattle.std.specs.Prelude.{◌≡◌, ◌<◌, ◌≤◌, ℕ, length, MatchOption};
ghost use Rattle.edge_text.specs.declared.limits.TheConstants.{MOST_BYTES};
ghost use Rattle.edge_text.specs.declared.fault.Fault.{Fault as FaultOf};
ghost use Rattle.edge_text.specs.Faults.{IsFault, IsFirstFault, IsFirstLong, IsLongName};

use crate::limits::MOST_NAME;
use crate::line::{is_comment, line_end};
use crate::words::{Word, next_word, word_in};

/// Where a name is too long. Line and column count from 1, and a column is a byte.
#[derive(Clone, Copy)]
pub struct Fault {
    pub line: u32,
    pub column: u32,
}

/// Where the first name of the line begins that is too long. Nearly no line is long enough to be
/// looked at.
fn long_name(line: &[u8]) -> Option<usize>
    ensures { MatchOption result ((start : ℕ) → IsLongName line.now start → ⊥) (IsFirstLong line.now) }
{
    if line.len() <= MOST_NAME {
        return None;
    }
    if is_comment(line) {
        return None;
    }
    let mut at = 0;
    while let Some(word) = next_word(line, at) {
        if word.end - word.start > MOST_NAME {
            return Some(word.start);
        }
        at = word.end;
    }
    None
}

/// The first place of a text of at most 1,073,741,824 bytes where a name is too long. A comment has
/// no names. It takes one pass over the text, and a second one over lines that are longer than a
/// name may be.
pub fn first_fault(text: &[u8]) -> Option<Fault>
    requires { length text.now ≤ MOST_BYTES }
    ensures { MatchOption result ((fault : FaultOf) → IsFault text.now fault → ⊥) (IsFirstFault text.now) }
{
    let mut at = 0;
    let mut number = 0u32;
    while at <= text.len() {
        let end = line_end(text, at);
        let line = word_in(text, Word { start: at, end });
        if let Some(start) = long_name(line) {
            return Some(Fault {
                line: number + 1,
                column: start as u32 + 1,
            });
        }
        number += 1;
        at = end + 1;
    }
    None
}
