//! Finding the groups: with one search, with many that take turns on one thread, or with workers,
//! with or without a stream of their groups.

ghost use Rattle.std.specs.Prelude.{◌≡◌, ◌<◌, ◌≤◌, [], List, ℕ, None, true, All, IfOk, length};
ghost use Rattle.graph_law.specs.Graph.{Calls as ListCalls, lists_of};
ghost use Rattle.call_edges.specs.Successors.{successor_lists};
ghost use Rattle.report_lines.specs.Reportable.{AreGroups, AreLeveled};
ghost use Rattle.group_words.specs.Settings.{AreLawful, see_options};
ghost use Rattle.group_tool.specs.Driving.{AreInScheduleOrder};

use call_edges::CallLists;
use group_feed::{LevelTaker, drive_feed};
use group_words::{Options, settings_within};
use import_rules::Program;
use search_machine::drive_many;
use search_pool::{Gate, drive_workers};
use search_stack::groups_plain;
use std::alloc::{AllocError, Global};
use std::sync::Wait;
use std::thread::Threads;

/// The groups of exactly what the roots reach, in reverse topological order: found by one search,
/// or by many that take turns. Then they are in the order of their schedule.
pub fn groups_alone(
    alloc: Global,
    options: &Options,
    program: &Program,
    calls: &CallLists<'_>,
    roots: &[u32],
) -> Result<Vec<Vec<u32>>, AllocError>
    requires lawful { (words : List (List ℕ)) × AreLawful words (see_options options.now) }
    requires calls { calls.now ≡ program.now }
    requires roots { All (λ q. q < length program.now.predicates) roots.now }
    ensures groups { IfOk result (λ groups. AreGroups (ListCalls (successor_lists program.now)) roots.now (lists_of groups.items)) }
    ensures order { IfOk result (λ groups.
        AreInScheduleOrder (see_options options.now).searches (successor_lists program.now) roots.now (lists_of groups.items)) }
{
    settings_within();
    let _program = program;
    match options.searches {
        Some((searches, seed)) => drive_many(alloc, calls, roots, searches, seed),
        None => groups_plain(alloc, calls, roots),
    }
}

/// The same, found by workers, each in a thread of its own with a search of its own.
pub fn groups_by_workers<R: Threads + Wait + Sync, G: Gate>(
    rt: &R,
    alloc: Global,
    options: &Options,
    program: &Program,
    calls: &CallLists<'_>,
    roots: &[u32],
    gate: &G,
) -> Result<Vec<Vec<u32>>, AllocError>
    requires lawful { (words : List (List ℕ)) × AreLawful words (see_options options.now) }
    requires calls { calls.now ≡ program.now }
    requires roots { All (λ q. q < length program.now.predicates) roots.now }
    ensures { IfOk result (λ groups. AreGroups (ListCalls (successor_lists program.now)) roots.now (lists_of groups.items)) }
{
    settings_within();
    let _program = program;
    drive_workers(rt, alloc, calls, roots, options.jobs, gate)
}

/// The same, and the taker computes their levels as they come.
pub fn groups_by_stream<R: Threads + Wait + Sync, G: Gate>(
    rt: &R,
    alloc: Global,
    options: &Options,
    program: &Program,
    calls: &CallLists<'_>,
    roots: &[u32],
    gate: &G,
    taker: &mut LevelTaker<'_, CallLists<'_>>,
) -> Result<Vec<Vec<u32>>, AllocError>
    requires lawful { (words : List (List ℕ)) × AreLawful words (see_options options.now) }
    requires calls { calls.now ≡ program.now }
    requires roots { All (λ q. q < length program.now.predicates) roots.now }
    requires lists { taker.old.lists ≡ successor_lists calls.now }
    requires fresh { taker.old.taken ≡ [] }
    ensures groups { IfOk result (λ groups. AreGroups (ListCalls (successor_lists program.now)) roots.now (lists_of groups.items)) }
    ensures leveled { IfOk result (λ groups.
        AreLeveled (ListCalls (successor_lists program.now)) roots.now (lists_of groups.items) taker.new.levels) }
{
    settings_within();
    let _program = program;
    let groups = drive_feed(rt, alloc, calls, roots, options.jobs, gate, taker)?;
    taker.levels();
    Ok(groups)
}
