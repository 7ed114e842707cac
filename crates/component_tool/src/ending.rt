//! Where the bytes of a run go.

ghost use Rattle.std.specs.Prelude.{◌⊎◌, MatchResult};
ghost use Rattle.std.specs.String.{string_bytes};
ghost use Rattle.tool_run.specs.Keeps.{LeavesOther};
ghost use Rattle.tool_run.specs.Lines.{memory_line};
ghost use Rattle.tool_run.specs.Run.{SaidWith};
ghost use Rattle.component_tool.specs.End.{end_of, end_of_stop, err_of, status_of};
ghost use Rattle.component_tool.specs.Lines.{program_name};
ghost use Rattle.component_tool.specs.Run.{PutsEnd};

use crate::lines::{EDGES, MEMORY, NODES, PROGRAM, fault_line, large_line, missing_line};
use crate::stop::Stop;
use prolog_tokens::Text;
use std::alloc::{AllocError, Global};
use tool_run::{Sink, say_with, unread_line};

/// Writes the line and returns the status, or reports that there was no memory for it.
fn say_line<S: Sink>(sink: &mut S, line: Result<String, AllocError>, status: u8) -> u8
    ensures { MatchResult line
        (λ text. SaidWith (string_bytes text) status result (S.seen sink.old, S.seen sink.new))
        (λ _. SaidWith (memory_line program_name) 7 result (S.seen sink.old, S.seen sink.new)) }
{
    match line {
        Ok(text) => say_with(sink, text.as_bytes(), status),
        Err(_) => say_with(sink, MEMORY.as_bytes(), 7),
    }
}

/// Writes why there is no report, and returns the status for that.
fn say_stop<S: Sink>(alloc: Global, file: &Text, stop: Stop, sink: &mut S) -> u8
    ensures { SaidWith (err_of (end_of_stop file.now stop)) (status_of (end_of_stop file.now stop)) result (S.seen sink.old, S.seen sink.new)
        ⊎ SaidWith (memory_line program_name) 7 result (S.seen sink.old, S.seen sink.new) }
{
    match stop {
        Stop::Unread => say_line(sink, unread_line(alloc, PROGRAM, file), 4),
        Stop::TooLarge => say_line(sink, large_line(alloc, file), 6),
        Stop::Fault(fault) => say_line(sink, fault_line(alloc, file, fault), 3),
        Stop::TooManyEdges => say_with(sink, EDGES.as_bytes(), 6),
        Stop::TooManyNodes => say_with(sink, NODES.as_bytes(), 6),
        Stop::NoNode(root) => say_line(sink, missing_line(alloc, &root), 2),
        Stop::NoMemory => say_with(sink, MEMORY.as_bytes(), 7),
    }
}

/// Writes the report on a text of that name to `out`, or to `err` why there is none, and flushes
/// that sink. Returns the exit status.
pub fn put_end<O: Sink, E: Sink>(
    alloc: Global,
    file: &Text,
    told: Result<Vec<u8>, Stop>,
    out: &mut O,
    err: &mut E,
) -> u8
    ensures put { PutsEnd result (O.seen out.old, O.seen out.new) (E.seen err.old, E.seen err.new) (end_of file.now told) }
    ensures left { LeavesOther (out.old, out.new) (err.old, err.new) result }
{
    match told {
        Ok(bytes) => say_with(out, &bytes, 0),
        Err(stop) => say_stop(alloc, file, stop, err),
    }
}
