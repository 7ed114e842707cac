ghost use Rattle.std.specs.Prelude.{◌≡◌, ℕ, ◌<◌, ◌^◌, ◌++◌, IfOk, OnOk, All, length};
ghost use Rattle.std.specs.Fmt.{decimal};
ghost use Rattle.std.specs.String.{string_bytes};
ghost use Rattle.graph_law.specs.Graph.{lists_of};
ghost use Rattle.loop_report.specs.Report.{head_line};
ghost use Rattle.report_lines.specs.Reportable.{AreReportable};

use crate::names::push_number;
use group_release::Level;
use report_lines::{height_count, member_count, recursive_count};
use std::alloc::{AllocError, Global};

/// The first line of the report: `predicates P groups G recursive R levels L`.
///
/// P counts the members of all groups, G the groups, and R the recursive ones. L is one more than
/// the greatest height, or 0 if there is no group. The groups are in reverse topological order of
/// some graph, and `levels` are their levels.
pub fn head_line(
    alloc: Global,
    groups: &[Vec<u32>],
    levels: &[Level],
) -> Result<Vec<u8>, AllocError>
    requires { (count : ℕ) × (count < 2 ^ 32) × AreReportable count (lists_of groups.now) levels.now }
    ensures { IfOk result (λ bytes. bytes.items ≡ head_line (lists_of groups.now) levels.now) }
{
    head_text(alloc, groups, levels)
}

/// The first line, as a text of its own.
pub(crate) fn head_text(
    alloc: Global,
    groups: &[Vec<u32>],
    levels: &[Level],
) -> Result<Vec<u8>, AllocError>
    requires few { length groups.now < 2 ^ 32 }
    requires short { All (λ members. length members < 2 ^ 32) (lists_of groups.now) }
    ensures { IfOk result (λ bytes. bytes.items ≡ head_line (lists_of groups.now) levels.now) }
{
    let mut text = String::new(alloc);
    push_head(&mut text, groups, levels)?;
    Ok(text.into_bytes())
}

/// Adds the first line.
pub(crate) fn push_head(
    text: &mut String,
    groups: &[Vec<u32>],
    levels: &[Level],
) -> Result<(), AllocError>
    requires few { length groups.now < 2 ^ 32 }
    requires short { All (λ members. length members < 2 ^ 32) (lists_of groups.now) }
    ensures { OnOk result (string_bytes text.new
        ≡ string_bytes text.old ++ head_line (lists_of groups.now) levels.now) }
{
    push_count(text, "predicates ", member_count(groups))?;
    push_count(text, " groups ", groups.len() as u64)?;
    push_count(text, " recursive ", recursive_count(levels))?;
    push_count(text, " levels ", height_count(levels))?;
    text.push_str("\n")?;
    Ok(())
}

fn push_count(text: &mut String, word: &str, count: u64) -> Result<(), AllocError>
    ensures { OnOk result (string_bytes text.new
        ≡ string_bytes text.old ++ (word.now ++ decimal count)) }
{
    text.push_str(word)?;
    push_number(text, count)
}
