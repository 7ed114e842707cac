//! The effects that groups may reach.

ghost use Rattle.std.specs.Prelude.{◌≡◌, ℕ, ◌<◌, ◌++◌, Some, IfOk, OnOk, length};
ghost use Rattle.std.specs.String.{string_bytes};
ghost use Rattle.graph_law.specs.Graph.{lists_of};
ghost use Rattle.effect_flow.specs.Carriers.{first_at, flow_at};
ghost use Rattle.effect_flow.specs.Seen.{see_flow, see_flows};
ghost use Rattle.effect_flow.specs.declared.kinds.TheConstants.{KINDS};
ghost use Rattle.loop_report.specs.Effects.{AreEffectLines, effect_line, group_effects, kind_word};
ghost use Rattle.report_lines.specs.Reportable.{AreReportable};

use crate::last_module::LastModule;
use crate::names::push_member;
use effect_flow::{Flow, KINDS};
use group_release::Level;
use import_rules::Program;
use report_lines::{least_of, line_order};
use std::alloc::{AllocError, Global};

/// The word of a kind.
fn kind_word(kind: u32) -> &'static str
    requires { kind < KINDS }
    ensures { result.now ≡ kind_word kind }
{
    match kind {
        0 => "output",
        1 => "input",
        2 => "database",
        3 => "streams",
        4 => "throw",
        5 => "halt",
        _ => "flags",
    }
}

/// Adds the line of a kind of effect, with its witness.
fn push_effect<'a>(
    text: &mut String,
    program: &'a Program,
    last: &mut LastModule<'a>,
    least: u32,
    kind: u32,
    carrier: u32,
) -> Result<(), AllocError>
    requires kind { kind < KINDS }
    requires least { least < length program.now.predicates }
    requires carrier { carrier < length program.now.predicates }
    ensures { OnOk result (string_bytes text.new
        ≡ string_bytes text.old ++ effect_line program.now.predicates least (kind_word kind) (Some carrier)) }
{
    text.push_str("effect")?;
    push_member(text, program, last, least)?;
    text.push_str(" ")?;
    text.push_str(kind_word(kind))?;
    push_member(text, program, last, carrier)?;
    text.push_str("\n")
}

/// Adds the lines of a group, kind by kind.
fn push_effects<'a>(
    text: &mut String,
    program: &'a Program,
    last: &mut LastModule<'a>,
    least: u32,
    flow: Flow,
) -> Result<(), AllocError>
    requires least { least < length program.now.predicates }
    requires carriers { (kind q : ℕ) → kind < KINDS
        → first_at (see_flow flow) kind ≡ Some q → q < length program.now.predicates }
    ensures { OnOk result (string_bytes text.new
        ≡ string_bytes text.old ++ group_effects program.now.predicates least (see_flow flow)) }
{
    for kind in 0..KINDS as u32 {
        let Some(carrier) = flow.first(kind) else {
            continue;
        };
        push_effect(text, program, last, least, kind, carrier)?;
    }
    Ok(())
}

/// The flow of the group at the index.
fn flow_there(flows: &[Flow], place: u32) -> Flow
    requires { place < length flows.now }
    ensures { see_flow result ≡ flow_at (see_flows flows.now) place }
{
    flows[place as usize]
}

/// A line for each group and each kind of effect with a witness, in order of height, least member
/// and kind: `effect`, the least member, the word of the kind and the witness.
///
/// The groups are in reverse topological order of some graph of the predicates. `levels` and
/// `flows` have one entry for each. Fails only if memory runs out.
pub fn effect_lines(
    alloc: Global,
    program: &Program,
    groups: &[Vec<u32>],
    levels: &[Level],
    flows: &[Flow],
) -> Result<Vec<u8>, AllocError>
    requires groups { AreReportable (length program.now.predicates) (lists_of groups.now) levels.now }
    requires each { length flows.now ≡ length groups.now }
    requires carriers { (place kind q : ℕ) → place < length groups.now → kind < KINDS
        → first_at (flow_at (see_flows flows.now) place) kind ≡ Some q → q < length program.now.predicates }
    ensures { IfOk result (λ bytes. AreEffectLines program.now.predicates (lists_of groups.now) levels.now
        (see_flows flows.now) bytes.items) }
{
    let order = line_order(alloc, program.count(), groups, levels)?;
    let mut text = String::new(alloc);
    let mut last = LastModule::none(alloc);
    for &place in &order {
        let flow = flow_there(flows, place);
        let least = least_of(groups, place);
        push_effects(&mut text, program, &mut last, least, flow)?;
    }
    Ok(text.into_bytes())
}
