ghost use Rattle.std.specs.Prelude.{◌≡◌, ◌<◌, ◌++◌, IfOk, OnOk, All, length, map};
ghost use Rattle.std.specs.List.{flat_map};
ghost use Rattle.std.specs.String.{string_bytes};
ghost use Rattle.graph_law.specs.Graph.{lists_of};
ghost use Rattle.report_lines.specs.Reportable.{AreReportable};
ghost use Rattle.loop_report.specs.Walks.{AreCircuitLines, IsCircuitWithin, circuit_line, circuit_line_at, see_circuit, walk_line};

use crate::group_lines::push_members;
use crate::last_module::LastModule;
use group_release::Level;
use import_rules::Program;
use report_lines::line_order;
use std::alloc::{AllocError, Global};

/// Adds a line of the word and of the predicates with these numbers.
fn push_walk<'a>(
    text: &mut String,
    program: &'a Program,
    last: &mut LastModule<'a>,
    word: &str,
    walk: &[u32],
) -> Result<(), AllocError>
    requires { All (λ node. node < length program.now.predicates) walk.now }
    ensures { OnOk result (string_bytes text.new
        ≡ string_bytes text.old ++ walk_line program.now.predicates word.now walk.now) }
{
    text.push_str(word)?;
    push_members(text, program, last, walk)?;
    text.push_str("\n")
}

/// The line of the word and of the predicates with these numbers, in their order, each after a
/// space. Fails only if memory runs out.
pub fn walk_line(
    alloc: Global,
    program: &Program,
    word: &str,
    walk: &[u32],
) -> Result<Vec<u8>, AllocError>
    requires { All (λ node. node < length program.now.predicates) walk.now }
    ensures { IfOk result (λ bytes. bytes.items ≡ walk_line program.now.predicates word.now walk.now) }
{
    let mut text = String::new(alloc);
    let mut last = LastModule::none(alloc);
    push_walk(&mut text, program, &mut last, word, walk)?;
    Ok(text.into_bytes())
}

/// Adds the line of a cycle, if there is one.
fn push_circuit<'a>(
    text: &mut String,
    program: &'a Program,
    last: &mut LastModule<'a>,
    circuit: &Option<Vec<u32>>,
) -> Result<(), AllocError>
    requires { IsCircuitWithin (length program.now.predicates) (see_circuit circuit.now) }
    ensures { OnOk result (string_bytes text.new
        ≡ string_bytes text.old ++ circuit_line program.now.predicates (see_circuit circuit.now)) }
{
    match circuit {
        Some(walk) => push_walk(text, program, last, "loop", walk),
        None => Ok(()),
    }
}

/// Adds the lines of the cycles at these indices.
fn push_circuits(
    alloc: Global,
    text: &mut String,
    program: &Program,
    circuits: &[Option<Vec<u32>>],
    order: &[u32],
) -> Result<(), AllocError>
    requires within { All (IsCircuitWithin (length program.now.predicates)) (map see_circuit circuits.now) }
    requires places { All (λ place. place < length circuits.now) order.now }
    ensures { OnOk result (string_bytes text.new
        ≡ string_bytes text.old ++ flat_map (circuit_line_at program.now.predicates (map see_circuit circuits.now)) order.now) }
{
    let mut last = LastModule::none(alloc);
    for &place in order {
        push_circuit(text, program, &mut last, &circuits[place as usize])?;
    }
    Ok(())
}

/// A line for each group that has a cycle, in order of height and least member: `loop` and the
/// predicates of the cycle.
///
/// The groups are in reverse topological order of some graph of the predicates. `levels` and
/// `circuits` have one entry for each. Fails only if memory runs out.
pub fn circuit_lines(
    alloc: Global,
    program: &Program,
    groups: &[Vec<u32>],
    levels: &[Level],
    circuits: &[Option<Vec<u32>>],
) -> Result<Vec<u8>, AllocError>
    requires groups { AreReportable (length program.now.predicates) (lists_of groups.now) levels.now }
    requires each { length circuits.now ≡ length groups.now }
    requires within { All (IsCircuitWithin (length program.now.predicates)) (map see_circuit circuits.now) }
    ensures { IfOk result (λ bytes. AreCircuitLines program.now.predicates (lists_of groups.now) levels.now
        (map see_circuit circuits.now) bytes.items) }
{
    let order = line_order(alloc, program.count(), groups, levels)?;
    let mut text = String::new(alloc);
    push_circuits(alloc, &mut text, program, circuits, &order)?;
    Ok(text.into_bytes())
}
