//! The lines of groups, as JSON.

ghost use Rattle.std.specs.Prelude.{◌≡◌, ◌<◌, ◌≤◌, ◌++◌, All, OnOk, length};
ghost use Rattle.std.specs.List.{flat_map};
ghost use Rattle.std.specs.String.{string_bytes};
ghost use Rattle.call_writer.specs.Lines.{after_comma, group_head, group_line, group_line_at, line_at_least, listed};
ghost use Rattle.graph_law.specs.Classes.{group_at};
ghost use Rattle.graph_law.specs.Graph.{lists_of};
ghost use Rattle.group_release.specs.Level.{level_at};

use crate::json::push_number;
use crate::lines::{least_at, recursive_field};
use group_release::Level;
use std::alloc::AllocError;

/// Adds a comma and the number.
fn push_after_comma(text: &mut String, number: u32) -> Result<(), AllocError>
    ensures { OnOk result (string_bytes text.new ≡ string_bytes text.old ++ after_comma number) }
{
    text.push_str(",")?;
    push_number(text, u64::from(number))?;
    Ok(())
}

/// Adds each of the numbers after a comma.
fn push_others(text: &mut String, others: &[u32]) -> Result<(), AllocError>
    ensures { OnOk result (string_bytes text.new ≡ string_bytes text.old ++ flat_map after_comma others.now) }
{
    for other in others {
        push_after_comma(text, *other)?;
    }
    Ok(())
}

/// Adds the numbers with commas between them.
fn push_listed(text: &mut String, members: &[u32]) -> Result<(), AllocError>
    ensures { OnOk result (string_bytes text.new ≡ string_bytes text.old ++ listed members.now) }
{
    let Some((first, others)) = members.split_first() else {
        return Ok(());
    };
    push_number(text, u64::from(*first))?;
    push_others(text, others)?;
    Ok(())
}

/// Adds the beginning of the line of a group: what kind of line it is, its number and its level.
fn push_group_head(text: &mut String, least: u32, level: Level) -> Result<(), AllocError>
    ensures { OnOk result (string_bytes text.new ≡ string_bytes text.old ++ group_head least level) }
{
    text.push_str("{\"is\":\"group\",\"id\":")?;
    push_number(text, u64::from(least))?;
    text.push_str(",\"height\":")?;
    push_number(text, u64::from(level.height))?;
    text.push_str(recursive_field(level.recursive))?;
    Ok(())
}

/// Adds the line of the group with these members, of which `least` is the least.
fn push_line(text: &mut String, least: u32, members: &[u32], level: Level) -> Result<(), AllocError>
    ensures { OnOk result (string_bytes text.new ≡ string_bytes text.old ++ group_line least members.now level) }
{
    push_group_head(text, least, level)?;
    text.push_str(",\"members\":[")?;
    push_listed(text, members)?;
    text.push_str("]}\n")?;
    Ok(())
}

/// Adds the line of the group at the index if the predicate with that number is its least member.
fn push_at_least(
    text: &mut String,
    groups: &[Vec<u32>],
    levels: &[Level],
    node: u32,
    place: usize,
) -> Result<(), AllocError>
    requires one_level_each { length levels.now ≡ length groups.now }
    requires inhabited { All (λ members. 0 < length members) (lists_of groups.now) }
    requires within { place < length groups.now }
    ensures { OnOk result (string_bytes text.new
        ≡ string_bytes text.old ++ line_at_least node (group_at (lists_of groups.now) place) (level_at levels.now place)) }
{
    if least_at(groups, place) != node {
        return Ok(());
    }
    push_line(text, node, &groups[place], levels[place])?;
    Ok(())
}

/// Adds the line of the group with the index `place` - 1 if the predicate with that number is the
/// group's least member. So each group has one line where all its members are gone through. A
/// predicate in no group has the `place` 0, and no line.
pub fn push_group_line(
    text: &mut String,
    groups: &[Vec<u32>],
    levels: &[Level],
    node: u32,
    place: usize,
) -> Result<(), AllocError>
    requires one_level_each { length levels.now ≡ length groups.now }
    requires inhabited { All (λ members. 0 < length members) (lists_of groups.now) }
    requires within { place ≤ length groups.now }
    ensures { OnOk result (string_bytes text.new
        ≡ string_bytes text.old ++ group_line_at (lists_of groups.now) levels.now node place) }
{
    if place == 0 {
        return Ok(());
    }
    push_at_least(text, groups, levels, node, place - 1)?;
    Ok(())
}
