//! The graph of the names of lines.

ghost use Rattle.std.specs.Prelude.{◌≡◌, ◌<◌, ◌≤◌, ◌+◌, ◌-◌, ◌^◌, ◌++◌, [], IfOk, OnOk, length};
ghost use Rattle.edge_text.specs.declared.limits.TheConstants.{MOST_BYTES};
ghost use Rattle.edge_text.specs.EdgeGraph.{calls_of};
ghost use Rattle.edge_text.specs.Read.{AreAdded};
ghost use Rattle.edge_text.specs.Readings.{IsReading};
ghost use Rattle.edge_json.specs.Said.{AreLinesRead, said_of};

use crate::edge_line::EdgeLine;
use edge_text::{MOST_EDGES, Reader, Reading, graph_of_read};
use std::alloc::{AllocError, Global};

/// Reads the names of a line, and its call if it has two.
fn read_line<'a>(reader: &mut Reader<'a>, line: &'a EdgeLine) -> Result<(), AllocError>
    requires { length reader.old.names < 2 ^ 32 - 2 }
    ensures names { OnOk result (AreAdded line.entry.now reader.old.names reader.new.names) }
    ensures calls { OnOk result (reader.new.calls ≡ reader.old.calls ++ calls_of line.entry.now) }
    ensures few { OnOk result (length reader.new.names ≤ length reader.old.names + 2) }
{
    let from = reader.node(&line.from)?;
    let Some(name) = &line.to else {
        return Ok(());
    };
    let to = reader.node(name)?;
    reader.call(from, to)?;
    Ok(())
}

/// Reads all lines. False if they have too many edges: then not all are read.
fn read_lines<'a>(reader: &mut Reader<'a>, lines: &'a [EdgeLine]) -> Result<bool, AllocError>
    requires small { length lines.now ≤ MOST_BYTES + 1 }
    requires names { reader.old.names ≡ [] }
    requires calls { reader.old.calls ≡ [] }
    ensures { IfOk result (AreLinesRead (said_of lines.entry.now) reader.new) }
{
    for line in lines {
        read_line(reader, line)?;
        if reader.call_count() > MOST_EDGES {
            return Ok(false);
        }
    }
    Ok(true)
}

/// The graph of the names of at most 1,073,741,825 lines, or the limit that they are past.
///
/// Fails only if memory runs out. It takes steps linear in the bytes of the names, and those to sort
/// the names and the callees of each.
pub fn graph_of_lines<'a>(alloc: Global, lines: &'a [EdgeLine]) -> Result<Reading<'a>, AllocError>
    requires { length lines.now ≤ MOST_BYTES + 1 }
    ensures { IfOk result (IsReading (said_of lines.entry.now)) }
{
    let mut reader = Reader::new(alloc)?;
    let whole = read_lines(&mut reader, lines)?;
    if !whole {
        return Ok(Reading::TooManyEdges);
    }
    let reading = graph_of_read(alloc, reader)?;
    Ok(reading)
}
