//! The lines of groups.

ghost use Rattle.std.specs.Prelude.{◌≡◌, ◌<◌, ◌++◌, OnOk, All, length};
ghost use Rattle.std.specs.List.{flat_map};
ghost use Rattle.graph_law.specs.Graph.{lists_of};
ghost use Rattle.byte_names.specs.Names.{names_of};
ghost use Rattle.component_report.specs.Cycles.{loop_line};
ghost use Rattle.component_report.specs.Report.{group_line, member_text, place_line};
ghost use Rattle.component_report.specs.declared.form.Form.TheVariants.{Lines};

use crate::head::push_text;
use crate::number::push_number;
use group_release::Level;
use report_lines::kind_name;
use std::alloc::AllocError;

/// Adds a space and the name of the node.
fn push_member(text: &mut Vec<u8>, names: &[&[u8]], member: u32) -> Result<(), AllocError>
    requires { member < length names.now }
    ensures { OnOk result (text.new.items ≡ text.old.items ++ member_text (names_of names.now) member) }
{
    let name = names[member as usize];
    push_text(text, " ")?;
    text.extend_from_slice(name)?;
    Ok(())
}

/// Adds the names of these nodes, each after a space.
fn push_members(text: &mut Vec<u8>, names: &[&[u8]], members: &[u32]) -> Result<(), AllocError>
    requires { All (λ member. member < length names.now) members.now }
    ensures { OnOk result (text.new.items ≡ text.old.items ++ flat_map (member_text (names_of names.now)) members.now) }
{
    for &member in members {
        push_member(text, names, member)?;
    }
    Ok(())
}

/// Adds the line of a group.
fn push_group(
    text: &mut Vec<u8>,
    names: &[&[u8]],
    members: &[u32],
    level: Level,
) -> Result<(), AllocError>
    requires { All (λ member. member < length names.now) members.now }
    ensures { OnOk result (text.new.items ≡ text.old.items ++ group_line (names_of names.now) members.now level) }
{
    push_number(text, u64::from(level.height))?;
    push_text(text, kind_name(level.recursive))?;
    push_members(text, names, members)?;
    push_text(text, "\n")?;
    Ok(())
}

/// Adds the line of a cycle of these nodes: `loop NAME NAME ..`.
pub(crate) fn push_loop(
    text: &mut Vec<u8>,
    names: &[&[u8]],
    nodes: &[u32],
) -> Result<(), AllocError>
    requires { All (λ node. node < length names.now) nodes.now }
    ensures { OnOk result (text.new.items ≡ text.old.items ++ loop_line Lines (names_of names.now) nodes.now) }
{
    push_text(text, "loop")?;
    push_members(text, names, nodes)?;
    push_text(text, "\n")?;
    Ok(())
}

/// Adds the lines of the groups at these indices.
pub(crate) fn push_groups(
    text: &mut Vec<u8>,
    names: &[&[u8]],
    groups: &[Vec<u32>],
    levels: &[Level],
    order: &[u32],
) -> Result<(), AllocError>
    requires one_level_each { length levels.now ≡ length groups.now }
    requires within { All (All (λ member. member < length names.now)) (lists_of groups.now) }
    requires places { All (λ place. place < length groups.now) order.now }
    ensures { OnOk result (text.new.items
        ≡ text.old.items ++ flat_map (place_line (names_of names.now) (lists_of groups.now) levels.now) order.now) }
{
    for &place in order {
        push_group(text, names, &groups[place as usize], levels[place as usize])?;
    }
    Ok(())
}
