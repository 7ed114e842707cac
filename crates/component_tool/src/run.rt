//! The runs of the program.

ghost use Rattle.component_tool.specs.Keeps.{RunKeeps};
ghost use Rattle.component_tool.specs.Run.{IsRun};
ghost use Rattle.component_answer.specs.Searches.{FindsGroups};
ghost use Rattle.component_words.specs.Settings.{AreLawful, see_settings};
ghost use Rattle.tool_run.specs.Keeps.{LeavesOther};
ghost use Rattle.std.specs.Prelude.{ℕ, List, ◌<◌, ◌≤◌};

use crate::ending::put_end;
use crate::lines::{MEMORY, USAGE};
use crate::source::Source;
use crate::telling::tell;
use component_answer::Reach;
use component_words::{Settings, parse_words};
use prolog_tokens::Text;
use search_pool::{Gate, drive_workers};
use search_stack::groups_plain;
use std::alloc::{AllocError, Global};
use std::sync::Wait;
use std::thread::Threads;
use tool_run::{Sink, say_with};

/// Writes the report that the settings ask for to `out`, or to `err` why there is none. `search`
/// finds the groups.
fn run_with<S: Source, O: Sink, E: Sink, F: FnOnce(Reach<'_>) -> Result<Vec<Vec<u32>>, AllocError>>(
    alloc: Global,
    settings: &Settings,
    source: &mut S,
    out: &mut O,
    err: &mut E,
    search: F,
) -> u8
    requires callable { F.IsAlwaysCallable search }
    requires finds { FindsGroups (F.post search) }
    ensures run { (words : List (List ℕ)) → AreLawful words (see_settings settings.now)
        → IsRun words (S.seen source.old, S.seen source.new) (O.seen out.old, O.seen out.new) (E.seen err.old, E.seen err.new) result }
    ensures left { LeavesOther (out.old, out.new) (err.old, err.new) result }
{
    let told = tell(alloc, settings, source, search);
    put_end(alloc, &settings.file, told, out, err)
}

/// Runs `components` like `run_components`, but with settings and on one thread, and always returns.
/// It finds the same groups for any number of threads in the settings.
pub fn run_alone<S: Source, O: Sink, E: Sink>(
    alloc: Global,
    settings: &Settings,
    source: &mut S,
    out: &mut O,
    err: &mut E,
) -> u8
    // The run keeps the contract of `components`, if these settings are asked for.
    ensures run { (words : List (List ℕ)) → AreLawful words (see_settings settings.now)
        → RunKeeps words (S.seen source.old, S.seen source.new) (O.seen out.old, O.seen out.new) (E.seen err.old, E.seen err.new) result }
    // The other sink is unchanged.
    ensures left { LeavesOther (out.old, out.new) (err.old, err.new) result }
{
    run_with(alloc, settings, source, out, err, |reach: Reach<'_>| {
        groups_plain(alloc, reach.graph, reach.starts)
    })
}

/// Does what `run_alone` does, but as many workers as the settings ask for find the groups. They may
/// wait for each other.
fn run_workers<R: Threads + Wait + Sync, S: Source, O: Sink, E: Sink, G: Gate>(
    rt: &R,
    alloc: Global,
    settings: &Settings,
    source: &mut S,
    out: &mut O,
    err: &mut E,
    gate: &G,
) -> u8
    // The run keeps the contract of `components`, if these settings are asked for.
    ensures run { (words : List (List ℕ)) → AreLawful words (see_settings settings.now)
        → RunKeeps words (S.seen source.old, S.seen source.new) (O.seen out.old, O.seen out.new) (E.seen err.old, E.seen err.new) result }
    // The other sink is unchanged.
    ensures left { LeavesOther (out.old, out.new) (err.old, err.new) result }
{
    let jobs = settings.jobs;
    run_with(
        alloc,
        settings,
        source,
        out,
        err,
        |reach: Reach<'_>|
            requires some { 0 < jobs }
            requires few { jobs ≤ 64 }
        { drive_workers(rt, alloc, reach.graph, reach.starts, jobs, gate) },
    )
}

/// Runs with these settings. If they ask for one thread, `run_alone` does it, which always returns.
fn run_settings<R: Threads + Wait + Sync, S: Source, O: Sink, E: Sink, G: Gate>(
    rt: &R,
    alloc: Global,
    settings: &Settings,
    source: &mut S,
    out: &mut O,
    err: &mut E,
    gate: &G,
) -> u8
    // The run keeps the contract of `components`, if these settings are asked for.
    ensures run { (words : List (List ℕ)) → AreLawful words (see_settings settings.now)
        → RunKeeps words (S.seen source.old, S.seen source.new) (O.seen out.old, O.seen out.new) (E.seen err.old, E.seen err.new) result }
    // The other sink is unchanged.
    ensures left { LeavesOther (out.old, out.new) (err.old, err.new) result }
{
    if settings.jobs == 1 {
        return run_alone(alloc, settings, source, out, err);
    }
    run_workers(rt, alloc, settings, source, out, err, gate)
}

/// Runs `components` with the arguments over the source. It writes the report to `out`, or to `err`
/// why there is none. Returns the exit status:
///
/// - 0: the report is written;
/// - 2: the arguments aren't valid, or a root is no node of the graph;
/// - 3: a name in the text is too long;
/// - 4: the text can't be read;
/// - 5: a sink failed;
/// - 6: a limit was passed;
/// - 7: memory ran out.
///
/// With one thread (`--jobs 1`, as without it) `run_alone` does all, which always returns. With more
/// of them, which may wait for each other, the contract holds if it returns.
pub fn run_components<R: Threads + Wait + Sync, S: Source, O: Sink, E: Sink, G: Gate>(
    rt: &R,
    alloc: Global,
    words: &[Text],
    source: &mut S,
    out: &mut O,
    err: &mut E,
    gate: &G,
) -> u8
    // The output is right, and each status has its meaning.
    ensures run { RunKeeps words.now (S.seen source.old, S.seen source.new)
        (O.seen out.old, O.seen out.new) (E.seen err.old, E.seen err.new) result }
    // The other sink is unchanged.
    ensures left { LeavesOther (out.old, out.new) (err.old, err.new) result }
{
    match parse_words(alloc, words) {
        Ok(Some(settings)) => run_settings(rt, alloc, &settings, source, out, err, gate),
        Ok(None) => say_with(err, USAGE.as_bytes(), 2),
        Err(_) => say_with(err, MEMORY.as_bytes(), 7),
    }
}
