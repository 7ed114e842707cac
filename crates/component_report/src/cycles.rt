//! The lines of the cycles of recursive groups.

ghost use Rattle.std.specs.Prelude.{◌≡◌, ◌<◌, ◌^◌, ◌++◌, IfOk, OnOk, All, length, map};
ghost use Rattle.std.specs.List.{flat_map};
ghost use Rattle.graph_law.specs.Graph.{lists_of};
ghost use Rattle.byte_names.specs.Names.{names_of};
ghost use Rattle.component_report.specs.Cycles.{AreCycleLines, IsCycleWithin, cycle_line, cycle_line_at, loop_line, see_cycle};
ghost use Rattle.report_lines.specs.Reportable.{AreReportable};

use crate::form::Form;
use crate::json_lines::push_json_loop;
use crate::lines::push_loop;
use group_release::Level;
use report_lines::line_order;
use std::alloc::{AllocError, Global};

/// Adds the line of a cycle of these nodes.
fn push_nodes(
    text: &mut Vec<u8>,
    names: &[&[u8]],
    nodes: &[u32],
    form: Form,
) -> Result<(), AllocError>
    requires { All (λ node. node < length names.now) nodes.now }
    ensures { OnOk result (text.new.items ≡ text.old.items ++ loop_line form (names_of names.now) nodes.now) }
{
    match form {
        Form::Lines => push_loop(text, names, nodes),
        Form::Json => push_json_loop(text, names, nodes),
    }
}

/// Adds the line of a cycle, if there is one.
fn push_cycle(
    text: &mut Vec<u8>,
    names: &[&[u8]],
    cycle: &Option<Vec<u32>>,
    form: Form,
) -> Result<(), AllocError>
    requires { IsCycleWithin (length names.now) (see_cycle cycle.now) }
    ensures { OnOk result (text.new.items ≡ text.old.items ++ cycle_line form (names_of names.now) (see_cycle cycle.now)) }
{
    match cycle {
        Some(nodes) => push_nodes(text, names, nodes, form),
        None => Ok(()),
    }
}

/// Adds the lines of the cycles at these indices.
fn push_cycles(
    text: &mut Vec<u8>,
    names: &[&[u8]],
    cycles: &[Option<Vec<u32>>],
    order: &[u32],
    form: Form,
) -> Result<(), AllocError>
    requires within { All (IsCycleWithin (length names.now)) (map see_cycle cycles.now) }
    requires places { All (λ place. place < length cycles.now) order.now }
    ensures { OnOk result (text.new.items
        ≡ text.old.items ++ flat_map (cycle_line_at form (names_of names.now) (map see_cycle cycles.now)) order.now) }
{
    for &place in order {
        push_cycle(text, names, &cycles[place as usize], form)?;
    }
    Ok(())
}

/// A line for each group that has a cycle, in order of height and least member: `loop` and the names
/// of the cycle's nodes.
///
/// The groups are in reverse topological order of some graph of the nodes. `levels` and `cycles` have
/// one entry for each. Fails only if memory runs out.
pub fn cycle_lines(
    alloc: Global,
    names: &[&[u8]],
    groups: &[Vec<u32>],
    levels: &[Level],
    cycles: &[Option<Vec<u32>>],
    form: Form,
) -> Result<Vec<u8>, AllocError>
    requires few { length names.now < 2 ^ 32 }
    requires groups { AreReportable (length names.now) (lists_of groups.now) levels.now }
    requires each { length cycles.now ≡ length groups.now }
    requires within { All (IsCycleWithin (length names.now)) (map see_cycle cycles.now) }
    ensures { IfOk result (λ bytes. AreCycleLines form (names_of names.now) (lists_of groups.now) levels.now
        (map see_cycle cycles.now) bytes.items) }
{
    let order = line_order(alloc, names.len() as u32, groups, levels)?;
    let mut text = Vec::new(alloc);
    push_cycles(&mut text, names, cycles, &order, form)?;
    Ok(text)
}
