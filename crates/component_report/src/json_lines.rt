//! The lines of the report in JSON.

ghost use Rattle.std.specs.Prelude.{◌≡◌, ◌<◌, ◌^◌, ◌++◌, OnOk, All, length, codes};
ghost use Rattle.std.specs.List.{flat_map};
ghost use Rattle.graph_law.specs.Graph.{lists_of};
ghost use Rattle.byte_names.specs.Names.{names_of};
ghost use Rattle.component_report.specs.Cycles.{loop_line};
ghost use Rattle.component_report.specs.Json.{with_commas};
ghost use Rattle.component_report.specs.JsonLines.{json_group, json_head, json_lines, json_member, truth_of};
ghost use Rattle.component_report.specs.declared.form.Form.TheVariants.{Json};

use crate::head::{push_count, push_text};
use crate::json::push_json_name;
use group_release::Level;
use report_lines::{height_count, member_count, recursive_count};
use std::alloc::AllocError;

/// Adds the first line: `{"nodes":N,"groups":G,"recursive":R,"levels":L}`.
pub(crate) fn push_json_head(
    text: &mut Vec<u8>,
    groups: &[Vec<u32>],
    levels: &[Level],
) -> Result<(), AllocError>
    requires few { length groups.now < 2 ^ 32 }
    requires short { All (λ members. length members < 2 ^ 32) (lists_of groups.now) }
    ensures { OnOk result (text.new.items ≡ text.old.items ++ json_head (lists_of groups.now) levels.now) }
{
    push_count(text, "{\"nodes\":", member_count(groups))?;
    push_count(text, ",\"groups\":", groups.len() as u64)?;
    push_count(text, ",\"recursive\":", recursive_count(levels))?;
    push_count(text, ",\"levels\":", height_count(levels))?;
    push_text(text, "}\n")?;
    Ok(())
}

fn truth_name(truth: bool) -> &'static str
    ensures { result.now ≡ truth_of truth }
{
    if truth { "true" } else { "false" }
}

/// Adds the name of the node.
fn push_member(text: &mut Vec<u8>, names: &[&[u8]], member: u32) -> Result<(), AllocError>
    requires { member < length names.now }
    ensures { OnOk result (text.new.items ≡ text.old.items ++ json_member (names_of names.now) member) }
{
    let name = names[member as usize];
    push_json_name(text, name)
}

/// Adds the name of each node after a comma.
fn push_more_members(text: &mut Vec<u8>, names: &[&[u8]], members: &[u32]) -> Result<(), AllocError>
    requires { All (λ member. member < length names.now) members.now }
    ensures { OnOk result (text.new.items
        ≡ text.old.items ++ flat_map (λ member. codes "," ++ json_member (names_of names.now) member) members.now) }
{
    for &member in members {
        push_text(text, ",")?;
        push_member(text, names, member)?;
    }
    Ok(())
}

/// Adds the names of the nodes with commas between them.
fn push_members(text: &mut Vec<u8>, names: &[&[u8]], members: &[u32]) -> Result<(), AllocError>
    requires { All (λ member. member < length names.now) members.now }
    ensures { OnOk result (text.new.items ≡ text.old.items ++ with_commas (json_member (names_of names.now)) members.now) }
{
    let Some((first, rest)) = members.split_first() else {
        return Ok(());
    };
    push_member(text, names, *first)?;
    push_more_members(text, names, rest)
}

/// Adds the line of a cycle of these nodes: `{"loop":["NAME","NAME"]}`.
pub(crate) fn push_json_loop(
    text: &mut Vec<u8>,
    names: &[&[u8]],
    nodes: &[u32],
) -> Result<(), AllocError>
    requires { All (λ node. node < length names.now) nodes.now }
    ensures { OnOk result (text.new.items ≡ text.old.items ++ loop_line Json (names_of names.now) nodes.now) }
{
    push_text(text, "{\"loop\":[")?;
    push_members(text, names, nodes)?;
    push_text(text, "]}\n")?;
    Ok(())
}

/// Adds the line of a group with this number:
/// `{"id":N,"height":H,"recursive":true,"members":["NAME","NAME"]}`.
fn push_json_group(
    text: &mut Vec<u8>,
    names: &[&[u8]],
    id: u64,
    members: &[u32],
    level: Level,
) -> Result<(), AllocError>
    requires { All (λ member. member < length names.now) members.now }
    ensures { OnOk result (text.new.items ≡ text.old.items ++ json_group (names_of names.now) id members.now level) }
{
    push_count(text, "{\"id\":", id)?;
    push_count(text, ",\"height\":", u64::from(level.height))?;
    push_text(text, ",\"recursive\":")?;
    push_text(text, truth_name(level.recursive))?;
    push_text(text, ",\"members\":[")?;
    push_members(text, names, members)?;
    push_text(text, "]}\n")?;
    Ok(())
}

/// Adds the lines of the groups at these indices.
pub(crate) fn push_json_groups(
    text: &mut Vec<u8>,
    names: &[&[u8]],
    groups: &[Vec<u32>],
    levels: &[Level],
    order: &[u32],
) -> Result<(), AllocError>
    requires one_level_each { length levels.now ≡ length groups.now }
    requires within { All (All (λ member. member < length names.now)) (lists_of groups.now) }
    requires places { All (λ place. place < length groups.now) order.now }
    ensures { OnOk result (text.new.items
        ≡ text.old.items ++ json_lines (names_of names.now) (lists_of groups.now) levels.now 0 order.now) }
{
    let mut id = 0u64;
    for &place in order {
        push_json_group(
            text,
            names,
            id,
            &groups[place as usize],
            levels[place as usize],
        )?;
        id += 1;
    }
    Ok(())
}
