//! The texts of a report: its lines, and after them effects, cycles and a path.

ghost use Rattle.std.specs.Prelude.{◌≡◌, ◌<◌, ◌^◌, ◌++◌, ℕ, IfOk, length};
ghost use Rattle.graph_law.specs.Graph.{lists_of};
ghost use Rattle.group_words.specs.Settings.{see_options};
ghost use Rattle.group_tool.specs.Asked.{IsGroupedOf};
ghost use Rattle.group_tool.specs.Groups.{IsOutput, ReportsProgram};
ghost use Rattle.group_tool.specs.Parts.{IsPart, IsPathPart, TellEffects, TellLoops};
ghost use Rattle.loop_report.specs.Report.{head_line};
ghost use Rattle.report_lines.specs.Reportable.{AreReportable};
ghost use Rattle.tool_run.specs.Say.{concatenated};

use crate::asked::Grouped;
use crate::own_kinds::own_kinds;
use effect_flow::flow;
use group_words::Options;
use import_rules::Program;
use loop_paths::{circuits, shortest};
use loop_report::{
    circuit_lines, effect_lines, head_line, order_report_pieces, report_pieces, walk_line,
};
use std::alloc::{AllocError, Global};
use std::thread::Threads;

fn one_text(alloc: Global, text: Vec<u8>) -> Result<Vec<Vec<u8>>, AllocError>
    ensures { IfOk result (λ texts. concatenated texts.items ≡ text.items) }
{
    let mut texts = Vec::new(alloc);
    texts.push(text)?;
    Ok(texts)
}

/// The first line of the report, as the only text.
fn first_line(alloc: Global, grouped: &Grouped<'_, '_>) -> Result<Vec<Vec<u8>>, AllocError>
    requires { (count : ℕ) × (count < 2 ^ 32) × AreReportable count (lists_of grouped.now.groups.now) grouped.now.levels.now }
    ensures { IfOk result (λ texts. concatenated texts.items
        ≡ head_line (lists_of grouped.now.groups.now) grouped.now.levels.now) }
{
    let line = head_line(alloc, grouped.groups, grouped.levels)?;
    let texts = one_text(alloc, line)?;
    Ok(texts)
}

/// The lines of the report itself, in texts one after another.
fn lines_of_report<R: Threads + Sync>(
    rt: &R,
    alloc: Global,
    options: &Options,
    program: &Program,
    grouped: &Grouped<'_, '_>,
) -> Result<Vec<Vec<u8>>, AllocError>
    requires { IsGroupedOf (see_options options.now) program.now grouped.now }
    ensures { IfOk result (λ texts. IsOutput (see_options options.now).make (see_options options.now).order (see_options options.now).unreached
        program.now (lists_of grouped.now.groups.now) grouped.now.levels.now (concatenated texts.items)) }
{
    program.is_known();
    if options.make.is_some() {
        return first_line(alloc, grouped);
    }
    if options.order {
        return order_report_pieces(
            rt,
            alloc,
            program,
            grouped.groups,
            grouped.levels,
            options.unreached,
        );
    }
    report_pieces(
        rt,
        alloc,
        program,
        grouped.groups,
        grouped.levels,
        options.unreached,
    )
}

/// A line for each group and each effect that it may reach, with the predicate that has the effect,
/// if they are asked for.
fn effects_part<R: Threads + Sync>(
    rt: &R,
    alloc: Global,
    options: &Options,
    program: &Program,
    grouped: &Grouped<'_, '_>,
) -> Result<Vec<u8>, AllocError>
    requires { IsGroupedOf (see_options options.now) program.now grouped.now }
    ensures { IfOk result (λ bytes. IsPart (see_options options.now).effects
        (TellEffects program.now (lists_of grouped.now.groups.now) grouped.now.levels.now) bytes.items) }
{
    if !options.effects {
        return Ok(Vec::new(alloc));
    }
    let own = own_kinds(rt, alloc, program)?;
    let flows = flow(
        rt,
        alloc,
        &grouped.asked.calls,
        grouped.groups,
        grouped.levels,
        &own,
    )?;
    let bytes = effect_lines(alloc, program, grouped.groups, grouped.levels, &flows)?;
    Ok(bytes)
}

/// A line for each recursive group, with the least cycle through its least member, if they are
/// asked for.
fn loops_part(
    alloc: Global,
    options: &Options,
    program: &Program,
    grouped: &Grouped<'_, '_>,
) -> Result<Vec<u8>, AllocError>
    requires { IsGroupedOf (see_options options.now) program.now grouped.now }
    ensures { IfOk result (λ bytes. IsPart (see_options options.now).loops
        (TellLoops program.now (lists_of grouped.now.groups.now) grouped.now.levels.now) bytes.items) }
{
    if !options.loops {
        return Ok(Vec::new(alloc));
    }
    let found = circuits(alloc, &grouped.asked.calls, grouped.groups)?;
    let bytes = circuit_lines(alloc, program, grouped.groups, grouped.levels, &found)?;
    Ok(bytes)
}

/// The line of the least path between the ends, or that there is none, if a path is asked for.
fn path_part(
    alloc: Global,
    options: &Options,
    program: &Program,
    grouped: &Grouped<'_, '_>,
) -> Result<Vec<u8>, AllocError>
    requires { IsGroupedOf (see_options options.now) program.now grouped.now }
    ensures { IfOk result (λ bytes. IsPathPart (see_options options.now).path program.now bytes.items) }
{
    let _options = options;
    let Some((from, to)) = grouped.asked.ends else {
        return Ok(Vec::new(alloc));
    };
    match shortest(alloc, &grouped.asked.calls, from, to)? {
        Some(path) => walk_line(alloc, program, "path", &path),
        None => walk_line(alloc, program, "no-path", &[from, to]),
    }
}

/// The texts, and three more after them.
fn with_parts(
    lines: Vec<Vec<u8>>,
    second: Vec<u8>,
    third: Vec<u8>,
    fourth: Vec<u8>,
) -> Result<Vec<Vec<u8>>, AllocError>
    ensures { IfOk result (λ texts. concatenated texts.items
        ≡ concatenated lines.items ++ (second.items ++ third.items ++ fourth.items)) }
{
    let mut texts = lines;
    texts.push(second)?;
    texts.push(third)?;
    texts.push(fourth)?;
    Ok(texts)
}

/// The report that the options ask for, and the parts after it in their order.
pub fn report_texts<R: Threads + Sync>(
    rt: &R,
    alloc: Global,
    options: &Options,
    program: &Program,
    grouped: &Grouped<'_, '_>,
) -> Result<Vec<Vec<u8>>, AllocError>
    requires { IsGroupedOf (see_options options.now) program.now grouped.now }
    ensures { IfOk result (λ texts. ReportsProgram (see_options options.now) program.now (concatenated texts.items)) }
{
    let lines = lines_of_report(rt, alloc, options, program, grouped)?;
    let effects = effects_part(rt, alloc, options, program, grouped)?;
    let loops = loops_part(alloc, options, program, grouped)?;
    let path = path_part(alloc, options, program, grouped)?;
    with_parts(lines, effects, loops, path)
}
