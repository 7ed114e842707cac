//! The whole report.

ghost use Rattle.std.specs.Prelude.{◌≡◌, ◌<◌, ◌^◌, All, IfOk, length};
ghost use Rattle.graph_law.specs.Graph.{lists_of};
ghost use Rattle.byte_names.specs.Names.{names_of};
ghost use Rattle.component_report.specs.Report.{IsReport, order_report, report_in};
ghost use Rattle.report_lines.specs.Reportable.{ArePrintable, AreReportable};

use crate::form::Form;
use crate::head::push_head;
use crate::json_lines::{push_json_groups, push_json_head};
use crate::lines::push_groups;
use group_release::Level;
use report_lines::{group_count, line_order, order_given};
use std::alloc::{AllocError, Global};

/// The initial capacity of a text in bytes for each of its lines.
const LINE_BYTES: usize = 32;

/// The report on groups of nodes, whose numbers are the indices of their names: the head line, and a
/// line for each group in order of height and least member.
///
/// The groups are in reverse topological order of some graph of the nodes, and `levels` are their
/// levels. Fails only if memory runs out.
pub fn report(
    alloc: Global,
    names: &[&[u8]],
    groups: &[Vec<u32>],
    levels: &[Level],
    form: Form,
) -> Result<Vec<u8>, AllocError>
    requires few { length names.now < 2 ^ 32 }
    requires groups { AreReportable (length names.now) (lists_of groups.now) levels.now }
    ensures { IfOk result (λ bytes. IsReport form (names_of names.now) (lists_of groups.now) levels.now bytes.items) }
{
    let order = line_order(alloc, names.len() as u32, groups, levels)?;
    let bytes = written(alloc, names, groups, levels, &order, form)?;
    Ok(bytes)
}

/// The same report with the lines of the groups in the order given.
pub fn order_report(
    alloc: Global,
    names: &[&[u8]],
    groups: &[Vec<u32>],
    levels: &[Level],
    form: Form,
) -> Result<Vec<u8>, AllocError>
    requires few { length names.now < 2 ^ 32 }
    requires groups { AreReportable (length names.now) (lists_of groups.now) levels.now }
    ensures { IfOk result (λ bytes. bytes.items ≡ order_report form (names_of names.now) (lists_of groups.now) levels.now) }
{
    let order = order_given(alloc, group_count(groups))?;
    let bytes = written(alloc, names, groups, levels, &order, form)?;
    Ok(bytes)
}

/// The report with the lines of the groups in this order.
fn written(
    alloc: Global,
    names: &[&[u8]],
    groups: &[Vec<u32>],
    levels: &[Level],
    order: &[u32],
    form: Form,
) -> Result<Vec<u8>, AllocError>
    requires few { length names.now < 2 ^ 32 }
    requires printable { ArePrintable (length names.now) (lists_of groups.now) levels.now }
    requires places { All (λ place. place < length groups.now) order.now }
    ensures { IfOk result (λ bytes. bytes.items ≡ report_in form (names_of names.now) (lists_of groups.now) levels.now order.now) }
{
    let mut text = Vec::with_capacity(alloc, order.len().saturating_mul(LINE_BYTES))?;
    match form {
        Form::Lines => {
            push_head(&mut text, groups, levels)?;
            push_groups(&mut text, names, groups, levels, order)?;
            Ok(text)
        }
        Form::Json => {
            push_json_head(&mut text, groups, levels)?;
            push_json_groups(&mut text, names, groups, levels, order)?;
            Ok(text)
        }
    }
}
