//! Where the bytes of a run go, shared by all programs.

ghost use Rattle.std.specs.Prelude.{◌≡◌, ◌≢◌, ◌⊎◌, MatchResult};
ghost use Rattle.std.specs.String.{string_bytes};
ghost use Rattle.tool_run.specs.End.{err_of, status_of};
ghost use Rattle.tool_run.specs.Keeps.{LeavesOther};
ghost use Rattle.tool_run.specs.Lines.{memory_line};
ghost use Rattle.tool_run.specs.Run.{PutsEnd, SaidWith};
ghost use Rattle.tool_run.specs.Stop.{end_of, end_of_stop};

use crate::lines::{fault_lines, limit_line, missing_line, unread_line};
use crate::saying::{say_texts, say_with};
use crate::sink::Sink;
use crate::stop::Stop;
use crate::tool::Tool;
use std::alloc::{AllocError, Global};

/// Writes the lines and returns the status, or reports that there was no memory for them.
fn say_lines<T: Tool, S: Sink>(sink: &mut S, lines: Result<String, AllocError>, status: u8) -> u8
    ensures { MatchResult lines
        (λ text. SaidWith (string_bytes text) status result (S.seen sink.old, S.seen sink.new))
        (λ _. SaidWith (memory_line T.is.name) 7 result (S.seen sink.old, S.seen sink.new)) }
{
    match lines {
        Ok(text) => say_with(sink, text.as_bytes(), status),
        Err(_) => say_with(sink, T::memory_line().as_bytes(), 7),
    }
}

/// Writes why there is no output, and returns the status for that.
fn say_stop<T: Tool, S: Sink>(alloc: Global, sink: &mut S, stop: &Stop) -> u8
    ensures { SaidWith (err_of T.is.name T.is.usage (end_of_stop stop.now)) (status_of (end_of_stop stop.now)) result (S.seen sink.old, S.seen sink.new)
        ⊎ SaidWith (memory_line T.is.name) 7 result (S.seen sink.old, S.seen sink.new) }
{
    match stop {
        Stop::Usage => say_with(sink, T::usage_line().as_bytes(), 2),
        Stop::Faults(faults) => say_lines::<T, S>(sink, fault_lines(alloc, faults), 3),
        Stop::NoPredicate(root) => {
            say_lines::<T, S>(sink, missing_line(alloc, T::name(), root), 2)
        }
        Stop::ReadFault(name) => say_lines::<T, S>(sink, unread_line(alloc, T::name(), name), 4),
        Stop::Passed(limit) => say_lines::<T, S>(sink, limit_line(alloc, T::name(), limit), 6),
        Stop::NoMemory => say_with(sink, T::memory_line().as_bytes(), 7),
    }
}

/// Writes the texts to `out`, one after another, or to `err` why there are none, and flushes that
/// sink. Returns the exit status:
///
/// - 0: the output is written;
/// - 2: the arguments aren't valid, or a name in them is no predicate of the program;
/// - 3: the files have errors;
/// - 4: a file could not be read;
/// - 5: the sink failed;
/// - 6: a limit was passed;
/// - 7: memory ran out.
pub fn put_end<T: Tool, O: Sink, E: Sink>(
    alloc: Global,
    told: Result<Vec<Vec<u8>>, Stop>,
    out: &mut O,
    err: &mut E,
) -> u8
    ensures put { PutsEnd T.is.name T.is.usage result (O.seen out.old, O.seen out.new) (E.seen err.old, E.seen err.new) (end_of told) }
    ensures left { LeavesOther (out.old, out.new) (err.old, err.new) result }
{
    match told {
        Ok(texts) => say_texts(out, &texts),
        Err(stop) => say_stop::<T, E>(alloc, err, &stop),
    }
}
