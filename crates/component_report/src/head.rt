//! The first line of the report.

ghost use Rattle.std.specs.Prelude.{◌≡◌, ◌<◌, ◌^◌, ◌++◌, OnOk, All, length};
ghost use Rattle.std.specs.Fmt.{decimal};
ghost use Rattle.graph_law.specs.Graph.{lists_of};
ghost use Rattle.component_report.specs.Report.{head_line};

use crate::number::push_number;
use group_release::Level;
use report_lines::{height_count, member_count, recursive_count};
use std::alloc::AllocError;

/// Adds the first line: `nodes N groups G recursive R levels L`.
///
/// N counts the members of all groups, G the groups, and R the recursive ones. L is one more than
/// the greatest height, or 0 if there is no group.
pub(crate) fn push_head(
    text: &mut Vec<u8>,
    groups: &[Vec<u32>],
    levels: &[Level],
) -> Result<(), AllocError>
    requires few { length groups.now < 2 ^ 32 }
    requires short { All (λ members. length members < 2 ^ 32) (lists_of groups.now) }
    ensures { OnOk result (text.new.items ≡ text.old.items ++ head_line (lists_of groups.now) levels.now) }
{
    push_count(text, "nodes ", member_count(groups))?;
    push_count(text, " groups ", groups.len() as u64)?;
    push_count(text, " recursive ", recursive_count(levels))?;
    push_count(text, " levels ", height_count(levels))?;
    push_text(text, "\n")?;
    Ok(())
}

pub(crate) fn push_text(text: &mut Vec<u8>, word: &str) -> Result<(), AllocError>
    ensures { OnOk result (text.new.items ≡ text.old.items ++ word.now) }
{
    text.extend_from_slice(word.as_bytes())
}

pub(crate) fn push_count(text: &mut Vec<u8>, word: &str, count: u64) -> Result<(), AllocError>
    ensures { OnOk result (text.new.items ≡ text.old.items ++ (word.now ++ decimal count)) }
{
    push_text(text, word)?;
    push_number(text, count)
}
