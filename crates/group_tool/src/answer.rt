ghost use Rattle.std.specs.Prelude.{◌≡◌, ℕ, List, None, IfErr, IfOk};
ghost use Rattle.call_edges.specs.Successors.{successor_lists};
ghost use Rattle.graph_law.specs.Graph.{Calls as ListCalls, lists_of};
ghost use Rattle.group_words.specs.Settings.{AreLawful, see_options};
ghost use Rattle.tool_run.specs.Carrying.{ProgramComesTo};
ghost use Rattle.group_tool.specs.Driving.{AreInScheduleOrder};
ghost use Rattle.group_tool.specs.Groups.{ReportsProgram, groups_tool};
ghost use Rattle.group_tool.specs.Asked.{IsAskedOf};
ghost use Rattle.tool_run.specs.Run.{EndIs};
ghost use Rattle.tool_run.specs.Say.{concatenated};
ghost use Rattle.tool_run.specs.Stop.{end_of, end_of_stop};
ghost use Rattle.tool_run.specs.Wanted.{IsJust};
ghost use Rattle.report_lines.specs.Reportable.{AreGroups};

use crate::asked::{Asked, Grouped};
use crate::driver::{groups_alone, groups_by_stream, groups_by_workers};
use crate::loading::load_program;
use crate::parts::report_texts;
use call_edges::call_lists;
use file_library::Library;
use group_feed::LevelTaker;
use group_release::levels;
use group_words::Options;
use import_rules::Program;
use search_pool::Gate;
use std::alloc::{AllocError, Global};
use std::mem::forget;
use std::sync::Wait;
use std::thread::Threads;
use tool_run::{Stop, ends_by, roots_by};

/// The report that the options ask for, or why there is none. One thread finds the groups.
pub fn report_alone<R: Threads + Sync, L: Library>(
    rt: &R,
    alloc: Global,
    options: &Options,
    library: &mut L,
) -> Result<Vec<Vec<u8>>, Stop>
    requires { (words : List (List ℕ)) × AreLawful words (see_options options.now) }
    ensures { EndIs groups_tool (IsJust (see_options options.now)) (L.seen library.old, L.seen library.new) (end_of result) }
{
    let program = load_program(rt, alloc, options, library)?;
    let told = tell_alone(rt, alloc, options, &program);
    leave(program);
    told
}

/// The same, but workers find the groups, which may wait.
pub fn report_lawful<R: Threads + Wait + Sync, L: Library, G: Gate>(
    rt: &R,
    alloc: Global,
    options: &Options,
    library: &mut L,
    gate: &G,
) -> Result<Vec<Vec<u8>>, Stop>
    requires lawful { (words : List (List ℕ)) × AreLawful words (see_options options.now) }
    requires workers { (see_options options.now).searches ≡ None }
    ensures { EndIs groups_tool (IsJust (see_options options.now)) (L.seen library.old, L.seen library.new) (end_of result) }
{
    let program = load_program(rt, alloc, options, library)?;
    let told = tell(rt, alloc, options, &program, gate);
    leave(program);
    told
}

/// Leaves the memory of the program to the end of the process, which comes next. Freeing it term by
/// term would take a fifth of the run.
fn leave(program: Program) {
    forget(program);
}

/// What is asked of the program, if each of its goals is callable and it has all roots and the ends
/// of the path. Otherwise why there is no report of it.
fn asked_of<'p, R: Threads + Sync>(
    rt: &R,
    alloc: Global,
    options: &Options,
    program: &'p Program,
) -> Result<Asked<'p>, Stop>
    ensures asked { IfOk result (IsAskedOf (see_options options.now) program.now) }
    ensures stops { IfErr result (λ stop. ProgramComesTo groups_tool (see_options options.now) program.now (end_of_stop stop)) }
{
    let calls = call_lists(rt, alloc, program)?;
    let roots = roots_by(alloc, program, options)?;
    let ends = ends_by(alloc, program, options)?;
    Ok(Asked { calls, roots, ends })
}

/// The report of the program, or why there is none. One thread finds the groups. It takes no
/// `Wait`, so it always returns.
fn tell_alone<R: Threads + Sync>(
    rt: &R,
    alloc: Global,
    options: &Options,
    program: &Program,
) -> Result<Vec<Vec<u8>>, Stop>
    requires { (words : List (List ℕ)) × AreLawful words (see_options options.now) }
    ensures { ProgramComesTo groups_tool (see_options options.now) program.now (end_of result) }
{
    let asked = asked_of(rt, alloc, options, program)?;
    let groups = groups_alone(alloc, options, program, &asked.calls, &asked.roots)?;
    let texts = report_groups(rt, alloc, options, program, &asked, &groups)?;
    Ok(texts)
}

/// The same, but workers find the groups, which may wait.
fn tell<R: Threads + Wait + Sync, G: Gate>(
    rt: &R,
    alloc: Global,
    options: &Options,
    program: &Program,
    gate: &G,
) -> Result<Vec<Vec<u8>>, Stop>
    requires lawful { (words : List (List ℕ)) × AreLawful words (see_options options.now) }
    requires workers { (see_options options.now).searches ≡ None }
    ensures { ProgramComesTo groups_tool (see_options options.now) program.now (end_of result) }
{
    let asked = asked_of(rt, alloc, options, program)?;
    let texts = report_waiting(rt, alloc, options, program, &asked, gate)?;
    Ok(texts)
}

/// The report of the groups that workers find. Their levels are computed as they come, or after
/// them.
fn report_waiting<R: Threads + Wait + Sync, G: Gate>(
    rt: &R,
    alloc: Global,
    options: &Options,
    program: &Program,
    asked: &Asked<'_>,
    gate: &G,
) -> Result<Vec<Vec<u8>>, AllocError>
    requires lawful { (words : List (List ℕ)) × AreLawful words (see_options options.now) }
    requires workers { (see_options options.now).searches ≡ None }
    requires asked { IsAskedOf (see_options options.now) program.now asked.now }
    ensures { IfOk result (λ texts. ReportsProgram (see_options options.now) program.now (concatenated texts.items)) }
{
    if !options.stream {
        let groups = groups_by_workers(
            rt,
            alloc,
            options,
            program,
            &asked.calls,
            &asked.roots,
            gate,
        )?;
        return report_groups(rt, alloc, options, program, asked, &groups);
    }
    let mut taker = LevelTaker::new(alloc, &asked.calls)?;
    let groups = groups_by_stream(
        rt,
        alloc,
        options,
        program,
        &asked.calls,
        &asked.roots,
        gate,
        &mut taker,
    )?;
    let grouped = Grouped {
        asked,
        groups: &groups,
        levels: taker.levels(),
    };
    report_texts(rt, alloc, options, program, &grouped)
}

/// The report of the groups that the roots reach, whose levels are computed from the call graph.
fn report_groups<R: Threads + Sync>(
    rt: &R,
    alloc: Global,
    options: &Options,
    program: &Program,
    asked: &Asked<'_>,
    groups: &[Vec<u32>],
) -> Result<Vec<Vec<u8>>, AllocError>
    requires asked { IsAskedOf (see_options options.now) program.now asked.now }
    requires groups { AreGroups (ListCalls (successor_lists program.now)) asked.now.roots.items (lists_of groups.now) }
    requires order { AreInScheduleOrder (see_options options.now).searches (successor_lists program.now) asked.now.roots.items
        (lists_of groups.now) }
    ensures { IfOk result (λ texts. ReportsProgram (see_options options.now) program.now (concatenated texts.items)) }
{
    let levels = levels(alloc, &asked.calls, groups)?;
    let grouped = Grouped {
        asked,
        groups,
        levels: &levels,
    };
    report_texts(rt, alloc, options, program, &grouped)
}
