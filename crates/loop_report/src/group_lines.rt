ghost use Rattle.std.specs.Prelude.{◌≡◌, ◌<◌, ◌++◌, OnOk, All, length};
ghost use Rattle.std.specs.List.{flat_map};
ghost use Rattle.std.specs.String.{string_bytes};
ghost use Rattle.graph_law.specs.Graph.{lists_of};
ghost use Rattle.loop_report.specs.Names.{member_name};
ghost use Rattle.loop_report.specs.Report.{group_line, place_line};

use crate::last_module::LastModule;
use crate::names::{push_member, push_number};
use group_release::Level;
use import_rules::Program;
use report_lines::kind_name;
use std::alloc::{AllocError, Global};

/// Adds the lines of the groups at these indices.
pub(crate) fn push_groups(
    alloc: Global,
    text: &mut String,
    program: &Program,
    groups: &[Vec<u32>],
    levels: &[Level],
    order: &[u32],
) -> Result<(), AllocError>
    requires one_level_each { length levels.now ≡ length groups.now }
    requires within { All (All (λ member. member < length program.now.predicates)) (lists_of groups.now) }
    requires places { All (λ place. place < length groups.now) order.now }
    ensures { OnOk result (string_bytes text.new
        ≡ string_bytes text.old ++ flat_map (place_line program.now.predicates (lists_of groups.now) levels.now) order.now) }
{
    let mut last = LastModule::none(alloc);
    for &place in order {
        push_group(
            text,
            program,
            &mut last,
            &groups[place as usize],
            levels[place as usize],
        )?;
    }
    Ok(())
}

fn push_group<'a>(
    text: &mut String,
    program: &'a Program,
    last: &mut LastModule<'a>,
    members: &[u32],
    level: Level,
) -> Result<(), AllocError>
    requires { All (λ member. member < length program.now.predicates) members.now }
    ensures { OnOk result (string_bytes text.new
        ≡ string_bytes text.old ++ group_line program.now.predicates members.now level) }
{
    push_number(text, u64::from(level.height))?;
    text.push_str(kind_name(level.recursive))?;
    push_members(text, program, last, members)?;
    text.push_str("\n")?;
    Ok(())
}

/// Adds the names of these predicates, each after a space.
pub(crate) fn push_members<'a>(
    text: &mut String,
    program: &'a Program,
    last: &mut LastModule<'a>,
    members: &[u32],
) -> Result<(), AllocError>
    requires { All (λ member. member < length program.now.predicates) members.now }
    ensures { OnOk result (string_bytes text.new
        ≡ string_bytes text.old ++ flat_map (member_name program.now.predicates) members.now) }
{
    for &member in members {
        push_member(text, program, last, member)?;
    }
    Ok(())
}
