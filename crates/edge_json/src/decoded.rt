//! The names of all lines.

ghost use Rattle.std.specs.Prelude.{◌≡◌, ◌≤◌, IfOk, MatchOption, length, slice_range};
ghost use Rattle.edge_text.specs.declared.limits.TheConstants.{MOST_BYTES};
ghost use Rattle.edge_json.specs.Faults.{IsDecoded};
ghost use Rattle.edge_json.specs.Meaning.{bad};
ghost use Rattle.edge_json.specs.Said.{IsHeard, see_line};

use crate::cause::{Cause, LineFault};
use crate::edge_line::EdgeLine;
use crate::line::{Line, read_line};
use edge_text::line_end;
use std::alloc::{AllocError, Global};

/// The names of the lines of a text, or its first line that is no edge.
#[derive(Drop)]
pub enum Decoded {
    /// Without those of lines that are blank.
    Lines(Vec<EdgeLine>),
    Fault(LineFault),
}

/// The bytes from one offset up to another.
fn line_in(text: &[u8], start: usize, end: usize) -> &[u8]
    requires ordered { start ≤ end }
    requires within { end ≤ length text.now }
    ensures { result.now ≡ slice_range text.now start end }
{
    &text[start..end]
}

/// Adds the names of a line, or returns what is wrong with it.
fn push_line(lines: &mut Vec<EdgeLine>, line: Line) -> Result<Option<Cause>, AllocError>
    ensures { IfOk result (λ found. MatchOption found
        (IsHeard (see_line line) lines.old.items lines.new.items) (λ cause. see_line line ≡ bad cause)) }
{
    match line {
        Line::Blank => Ok(None),
        Line::Edge(names) => {
            lines.push(names)?;
            Ok(None)
        }
        Line::Bad(cause) => Ok(Some(cause)),
    }
}

/// The names of the lines of a text of at most 1,073,741,824 bytes, or its first line that is no
/// edge.
///
/// Fails only if memory runs out. It takes steps about linear in the bytes of the text.
pub fn decode(alloc: Global, text: &[u8]) -> Result<Decoded, AllocError>
    requires { length text.now ≤ MOST_BYTES }
    ensures { IfOk result (IsDecoded text.now) }
{
    let mut lines = Vec::new(alloc);
    let mut at = 0;
    let mut number = 0u32;
    while at <= text.len() {
        let end = line_end(text, at);
        let line = read_line(alloc, line_in(text, at, end))?;
        if let Some(cause) = push_line(&mut lines, line)? {
            return Ok(Decoded::Fault(LineFault {
                line: number + 1,
                cause,
            }));
        }
        number += 1;
        at = end + 1;
    }
    Ok(Decoded::Lines(lines))
}
