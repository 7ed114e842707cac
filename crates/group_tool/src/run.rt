//! The runs of the program.

ghost use Rattle.std.specs.Prelude.{◌≡◌, ◌⊎◌, List, ℕ, None, true, false, is_some};
ghost use Rattle.group_words.specs.Settings.{AreLawful, see_options};
ghost use Rattle.group_tool.specs.Groups.{groups_tool};
ghost use Rattle.tool_run.specs.Keeps.{LeavesOther, RunKeeps};
ghost use Rattle.tool_run.specs.Wanted.{IsJust};

use crate::answer::{report_alone, report_lawful};
use crate::groups::Groups;
use file_library::Library;
use group_words::{Options, parse_words, settings_within};
use prolog_tokens::Text;
use search_pool::Gate;
use std::alloc::Global;
use std::sync::Wait;
use std::thread::Threads;
use tool_run::{Sink, Stop, put_end};

/// Whether one thread finds the groups. It does if there are several searches on it or at most one
/// worker, and levels are computed after the groups.
fn is_alone(options: &Options) -> bool
    requires { (words : List (List ℕ)) × AreLawful words (see_options options.now) }
    ensures at_the_end { result ≡ true → (see_options options.now).stream ≡ false }
    ensures alone { result ≡ true → (is_some (see_options options.now).searches ≡ true) ⊎ ((see_options options.now).jobs ≡ 1) }
    ensures workers { result ≡ false → (see_options options.now).searches ≡ None }
{
    settings_within();
    if options.stream {
        return false;
    }
    if options.searches.is_some() {
        return true;
    }
    options.jobs == 1
}

/// Writes what the options of valid arguments ask for, or why there is none, to the sink for it. If
/// one thread suffices, `run_alone` does it, which always returns.
fn run_lawful<R: Threads + Wait + Sync, L: Library, O: Sink, E: Sink, G: Gate>(
    rt: &R,
    alloc: Global,
    options: &Options,
    library: &mut L,
    out: &mut O,
    err: &mut E,
    gate: &G,
) -> u8
    requires { (words : List (List ℕ)) × AreLawful words (see_options options.now) }
    ensures run { RunKeeps groups_tool (IsJust (see_options options.now)) (L.seen library.old, L.seen library.new)
        (O.seen out.old, O.seen out.new) (E.seen err.old, E.seen err.new) result }
    ensures left { LeavesOther (out.old, out.new) (err.old, err.new) result }
{
    if is_alone(options) {
        return run_alone(rt, alloc, options, library, out, err);
    }
    let told = report_lawful(rt, alloc, options, library, gate);
    put_end::<Groups, O, E>(alloc, told, out, err)
}

/// Runs `groups` with the arguments over the library. It writes the report to `out`, or to `err`
/// why there is none. Returns the exit status:
///
/// - 0: the report is written;
/// - 2: the arguments aren't valid, or a name in them is no predicate of the program;
/// - 3: the files have errors;
/// - 4: the library could not read a file;
/// - 5: a sink failed;
/// - 6: a limit was passed;
/// - 7: memory ran out.
///
/// The memory of the program that it read isn't freed, since a run is the last thing that its
/// process does.
pub fn run_groups<R: Threads + Wait + Sync, L: Library, O: Sink, E: Sink, G: Gate>(
    rt: &R,
    alloc: Global,
    words: &[Text],
    library: &mut L,
    out: &mut O,
    err: &mut E,
    gate: &G,
) -> u8
    // The run keeps the contract of `groups`, if the arguments are valid for what is asked for. It
    // has the right answer, why there is another one, what each status means, and what was read.
    ensures run { RunKeeps groups_tool (AreLawful words.now) (L.seen library.old, L.seen library.new)
        (O.seen out.old, O.seen out.new) (E.seen err.old, E.seen err.new) result }
    // The other sink is unchanged.
    ensures left { LeavesOther (out.old, out.new) (err.old, err.new) result }
{
    match parse_words(alloc, words) {
        Ok(options) => run_lawful(rt, alloc, &options, library, out, err, gate),
        Err(fault) => put_end::<Groups, O, E>(alloc, Err(Stop::from(fault)), out, err),
    }
}

/// Runs `groups` like `run_groups`, but with options and on one thread, and always returns. The
/// options ask for several searches or for at most one worker, and not for levels as groups come.
pub fn run_alone<R: Threads + Sync, L: Library, O: Sink, E: Sink>(
    rt: &R,
    alloc: Global,
    options: &Options,
    library: &mut L,
    out: &mut O,
    err: &mut E,
) -> u8
    requires lawful { (words : List (List ℕ)) × AreLawful words (see_options options.now) }
    requires at_the_end { (see_options options.now).stream ≡ false }
    requires alone { (is_some (see_options options.now).searches ≡ true) ⊎ ((see_options options.now).jobs ≡ 1) }
    // The run keeps the contract of `groups`, if exactly these options are asked for.
    ensures run { RunKeeps groups_tool (IsJust (see_options options.now)) (L.seen library.old, L.seen library.new)
        (O.seen out.old, O.seen out.new) (E.seen err.old, E.seen err.new) result }
    // The other sink is unchanged.
    ensures left { LeavesOther (out.old, out.new) (err.old, err.new) result }
{
    let report = report_alone(rt, alloc, options, library);
    put_end::<Groups, O, E>(alloc, report, out, err)
}
