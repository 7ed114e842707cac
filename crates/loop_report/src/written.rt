//! The whole report, as one text or as texts one after another.

ghost use Rattle.std.specs.Prelude.{◌≡◌, ◌<◌, ◌++◌, [], if◌then◌else◌, IfOk, OnOk, All, length};
ghost use Rattle.std.specs.String.{string_bytes};
ghost use Rattle.graph_law.specs.Graph.{lists_of};
ghost use Rattle.loop_report.specs.Report.{IsOrderReport, IsReport, IsReportIn, unreached_lines};
ghost use Rattle.report_lines.specs.Reportable.{ArePrintable, AreReportable};
ghost use Rattle.loop_report.specs.Texts.{HasRest, concatenated};

use crate::group_lines::push_groups;
use crate::group_texts::{SIZE, group_texts};
use crate::head::{head_text, push_head};
use crate::loops::{import_loops, push_loops};
use crate::unreached::push_unreached;
use group_release::Level;
use import_rules::Program;
use report_lines::{group_count, line_order, order_given};
use std::alloc::{AllocError, Global};
use std::thread::Threads;

/// The report on groups of a program's predicates, which are given by their numbers:
///
/// - the head line;
/// - a line for each group, in order of height and least member;
/// - a line for each import cycle;
/// - if `unreached` is set, a line for each predicate that is in no group.
///
/// The groups are in reverse topological order of some graph of the predicates, and `levels` are
/// their levels. Fails only if memory runs out.
pub fn report(
    alloc: Global,
    program: &Program,
    groups: &[Vec<u32>],
    levels: &[Level],
    unreached: bool,
) -> Result<Vec<u8>, AllocError>
    requires { AreReportable (length program.now.predicates) (lists_of groups.now) levels.now }
    ensures { IfOk result (λ bytes.
        IsReport program.now.predicates program.now.loaded.files (lists_of groups.now) levels.now unreached bytes.items) }
{
    let order = line_order(alloc, program.count(), groups, levels)?;
    text_of_order(alloc, program, groups, levels, &order, unreached)
}

/// The same report with the lines of the groups in the given order.
pub fn order_report(
    alloc: Global,
    program: &Program,
    groups: &[Vec<u32>],
    levels: &[Level],
    unreached: bool,
) -> Result<Vec<u8>, AllocError>
    requires { AreReportable (length program.now.predicates) (lists_of groups.now) levels.now }
    ensures { IfOk result (λ bytes.
        IsOrderReport program.now.predicates program.now.loaded.files (lists_of groups.now) levels.now unreached bytes.items) }
{
    program.is_known();
    let order = order_given(alloc, group_count(groups))?;
    text_of_order(alloc, program, groups, levels, &order, unreached)
}

/// The bytes of `report`, in texts one after another. The lines of many groups are written in
/// parallel. If memory runs out, one thread writes them once more before this fails.
pub fn report_pieces<R: Threads + Sync>(
    rt: &R,
    alloc: Global,
    program: &Program,
    groups: &[Vec<u32>],
    levels: &[Level],
    unreached: bool,
) -> Result<Vec<Vec<u8>>, AllocError>
    requires { AreReportable (length program.now.predicates) (lists_of groups.now) levels.now }
    ensures { IfOk result (λ texts. IsReport program.now.predicates program.now.loaded.files (lists_of groups.now)
        levels.now unreached (concatenated texts.items)) }
{
    let order = line_order(alloc, program.count(), groups, levels)?;
    written_texts(rt, alloc, program, groups, levels, &order, unreached)
}

/// The bytes of `order_report`, in texts one after another, as `report_pieces` makes them.
pub fn order_report_pieces<R: Threads + Sync>(
    rt: &R,
    alloc: Global,
    program: &Program,
    groups: &[Vec<u32>],
    levels: &[Level],
    unreached: bool,
) -> Result<Vec<Vec<u8>>, AllocError>
    requires { AreReportable (length program.now.predicates) (lists_of groups.now) levels.now }
    ensures { IfOk result (λ texts. IsOrderReport program.now.predicates program.now.loaded.files (lists_of groups.now)
        levels.now unreached (concatenated texts.items)) }
{
    program.is_known();
    let given = order_given(alloc, group_count(groups))?;
    written_texts(rt, alloc, program, groups, levels, &given, unreached)
}

/// Adds the lines of the predicates that are in no group, if they are asked for.
fn push_asked(
    alloc: Global,
    text: &mut String,
    program: &Program,
    groups: &[Vec<u32>],
    unreached: bool,
) -> Result<(), AllocError>
    requires { All (All (λ member. member < length program.now.predicates)) (lists_of groups.now) }
    ensures { OnOk result (string_bytes text.new
        ≡ string_bytes text.old ++ (if unreached then unreached_lines program.now.predicates (lists_of groups.now) else [])) }
{
    if unreached {
        push_unreached(alloc, text, program, groups)?;
    }
    Ok(())
}

/// Adds what follows the lines of the groups.
fn push_rest(
    alloc: Global,
    text: &mut String,
    program: &Program,
    groups: &[Vec<u32>],
    unreached: bool,
) -> Result<(), AllocError>
    requires { All (All (λ member. member < length program.now.predicates)) (lists_of groups.now) }
    ensures { OnOk result (HasRest program.now.predicates program.now.loaded.files (lists_of groups.now) unreached
        (string_bytes text.old) (string_bytes text.new)) }
{
    let loops = import_loops(alloc, program)?;
    push_loops(text, &loops)?;
    push_asked(alloc, text, program, groups, unreached)?;
    Ok(())
}

/// The report with the lines of the groups at these indices.
fn text_of_order(
    alloc: Global,
    program: &Program,
    groups: &[Vec<u32>],
    levels: &[Level],
    order: &[u32],
    unreached: bool,
) -> Result<Vec<u8>, AllocError>
    requires printable { ArePrintable (length program.now.predicates) (lists_of groups.now) levels.now }
    requires places { All (λ place. place < length groups.now) order.now }
    ensures { IfOk result (λ bytes.
        IsReportIn program.now.predicates program.now.loaded.files
        (lists_of groups.now) levels.now unreached order.now bytes.items) }
{
    let mut text = String::with_capacity(alloc, 32 * program.count() as usize)?;
    push_head(&mut text, groups, levels)?;
    push_groups(alloc, &mut text, program, groups, levels, order)?;
    push_rest(alloc, &mut text, program, groups, unreached)?;
    Ok(text.into_bytes())
}

/// What follows the lines of the groups.
fn rest_text(
    alloc: Global,
    program: &Program,
    groups: &[Vec<u32>],
    unreached: bool,
) -> Result<Vec<u8>, AllocError>
    requires { All (All (λ member. member < length program.now.predicates)) (lists_of groups.now) }
    ensures { IfOk result (λ rest. HasRest program.now.predicates program.now.loaded.files (lists_of groups.now) unreached
        [] rest.items) }
{
    let mut text = String::new(alloc);
    push_rest(alloc, &mut text, program, groups, unreached)?;
    Ok(text.into_bytes())
}

fn one_text(alloc: Global, text: Vec<u8>) -> Result<Vec<Vec<u8>>, AllocError>
    ensures { IfOk result (λ texts. concatenated texts.items ≡ text.items) }
{
    let mut texts = Vec::new(alloc);
    texts.push(text)?;
    Ok(texts)
}

/// The texts between two others.
fn texts_between(
    alloc: Global,
    first: Vec<u8>,
    between: Vec<Vec<u8>>,
    last: Vec<u8>,
) -> Result<Vec<Vec<u8>>, AllocError>
    ensures { IfOk result (λ texts. concatenated texts.items ≡ first.items ++ (concatenated between.items ++ last.items)) }
{
    let mut between = between;
    let mut texts = Vec::new(alloc);
    texts.push(first)?;
    texts.append(&mut between)?;
    texts.push(last)?;
    Ok(texts)
}

/// The same report as one text.
fn written_whole(
    alloc: Global,
    program: &Program,
    groups: &[Vec<u32>],
    levels: &[Level],
    order: &[u32],
    unreached: bool,
) -> Result<Vec<Vec<u8>>, AllocError>
    requires printable { ArePrintable (length program.now.predicates) (lists_of groups.now) levels.now }
    requires places { All (λ place. place < length groups.now) order.now }
    ensures { IfOk result (λ texts.
        IsReportIn program.now.predicates program.now.loaded.files
        (lists_of groups.now) levels.now unreached order.now (concatenated texts.items)) }
{
    let text = text_of_order(alloc, program, groups, levels, order, unreached)?;
    let texts = one_text(alloc, text)?;
    Ok(texts)
}

/// The same report in texts one after another, whose lines are written in parallel.
fn written_pieces<R: Threads + Sync>(
    rt: &R,
    alloc: Global,
    program: &Program,
    groups: &[Vec<u32>],
    levels: &[Level],
    order: &[u32],
    unreached: bool,
) -> Result<Vec<Vec<u8>>, AllocError>
    requires printable { ArePrintable (length program.now.predicates) (lists_of groups.now) levels.now }
    requires places { All (λ place. place < length groups.now) order.now }
    ensures { IfOk result (λ texts.
        IsReportIn program.now.predicates program.now.loaded.files
        (lists_of groups.now) levels.now unreached order.now (concatenated texts.items)) }
{
    program.is_known();
    let first = head_text(alloc, groups, levels)?;
    let between = group_texts(rt, alloc, program, groups, levels, order)?;
    let last = rest_text(alloc, program, groups, unreached)?;
    let texts = texts_between(alloc, first, between, last)?;
    Ok(texts)
}

/// The same report in texts one after another. Few lines are one text, which takes no thread.
fn written_texts<R: Threads + Sync>(
    rt: &R,
    alloc: Global,
    program: &Program,
    groups: &[Vec<u32>],
    levels: &[Level],
    order: &[u32],
    unreached: bool,
) -> Result<Vec<Vec<u8>>, AllocError>
    requires printable { ArePrintable (length program.now.predicates) (lists_of groups.now) levels.now }
    requires places { All (λ place. place < length groups.now) order.now }
    ensures { IfOk result (λ texts.
        IsReportIn program.now.predicates program.now.loaded.files
        (lists_of groups.now) levels.now unreached order.now (concatenated texts.items)) }
{
    if order.len() <= SIZE {
        return written_whole(alloc, program, groups, levels, order, unreached);
    }
    written_pieces(rt, alloc, program, groups, levels, order, unreached)
}
