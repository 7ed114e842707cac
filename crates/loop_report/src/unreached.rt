ghost use Rattle.std.specs.Prelude.{◌≡◌, ◌<◌, ◌++◌, IfOk, OnOk, All, length, map};
ghost use Rattle.std.specs.List.{range_with_len};
ghost use Rattle.std.specs.String.{string_bytes};
ghost use Rattle.graph_law.specs.Graph.{lists_of};
ghost use Rattle.loop_report.specs.Report.{is_grouped, unreached_line, unreached_lines};

use crate::last_module::LastModule;
use crate::names::push_member;
use graph_law::stamp;
use import_rules::Program;
use std::alloc::{AllocError, Global};

/// For each of `count` nodes, whether it is in a group.
fn marks_of(alloc: Global, count: u32, groups: &[Vec<u32>]) -> Result<Vec<bool>, AllocError>
    requires { All (All (λ member. member < count)) (lists_of groups.now) }
    ensures { IfOk result (λ marks. marks.items ≡ map (is_grouped (lists_of groups.now)) (range_with_len 0 count)) }
{
    let mut marks = vec![in alloc; false; count as usize]?;
    for group in groups {
        stamp(&mut marks, group, true);
    }
    Ok(marks)
}

/// Adds the line of a predicate that is in no group.
fn push_line<'a>(
    text: &mut String,
    program: &'a Program,
    last: &mut LastModule<'a>,
    node: u32,
) -> Result<(), AllocError>
    requires { node < length program.now.predicates }
    ensures { OnOk result (string_bytes text.new
        ≡ string_bytes text.old ++ unreached_line program.now.predicates node) }
{
    text.push_str("unreached")?;
    push_member(text, program, last, node)?;
    text.push_str("\n")
}

/// Adds the lines of the predicates that are in no group, ascending.
pub(crate) fn push_unreached(
    alloc: Global,
    text: &mut String,
    program: &Program,
    groups: &[Vec<u32>],
) -> Result<(), AllocError>
    requires { All (All (λ member. member < length program.now.predicates)) (lists_of groups.now) }
    ensures { OnOk result (string_bytes text.new
        ≡ string_bytes text.old ++ unreached_lines program.now.predicates (lists_of groups.now)) }
{
    let marks = marks_of(alloc, program.count(), groups)?;
    let mut last = LastModule::none(alloc);
    for node in 0..program.count() {
        if marks[node as usize] {
            continue;
        }
        push_line(text, program, &mut last, node)?;
    }
    Ok(())
}
