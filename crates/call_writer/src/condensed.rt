//! The condensed graph, in which a group is one node, in the language of Graphviz.

ghost use Rattle.std.specs.Prelude.{◌≡◌, ◌<◌, ◌≤◌, ◌==◌, ◌++◌, All, OnOk, codes, if◌then◌else◌, length};
ghost use Rattle.std.specs.List.{flat_map};
ghost use Rattle.std.specs.String.{string_bytes};
ghost use Rattle.call_writer.specs.Dot.{condensed_edge, condensed_node, group_node, label_of, labels, next_label};
ghost use Rattle.call_writer.specs.Dot.{node_at_least, node_name};
ghost use Rattle.graph_law.specs.Classes.{group_at, least_member};
ghost use Rattle.graph_law.specs.Graph.{lists_of};

use crate::dot::{push_label, push_node};
use crate::json::push_number;
use crate::lines::least_at;
use import_rules::Program;
use std::alloc::AllocError;

/// Adds the label of the predicate with that number.
fn push_label_of(text: &mut String, program: &Program, node: u32) -> Result<(), AllocError>
    requires { node < length program.now.predicates }
    ensures { OnOk result (string_bytes text.new ≡ string_bytes text.old ++ label_of program.now.predicates node) }
{
    push_label(text, program.name_of(node))
}

/// Adds a newline, as a label contains it, and the label of the predicate with that number.
fn push_next_label(text: &mut String, program: &Program, node: u32) -> Result<(), AllocError>
    requires { node < length program.now.predicates }
    ensures { OnOk result (string_bytes text.new ≡ string_bytes text.old ++ next_label program.now.predicates node) }
{
    text.push_str("\\n")?;
    push_label_of(text, program, node)
}

/// Adds the label of each of these predicates after a newline.
fn push_next_labels(text: &mut String, program: &Program, nodes: &[u32]) -> Result<(), AllocError>
    requires { All (λ node. node < length program.now.predicates) nodes.now }
    ensures { OnOk result (string_bytes text.new ≡ string_bytes text.old ++ flat_map (next_label program.now.predicates) nodes.now) }
{
    for node in nodes {
        push_next_label(text, program, *node)?;
    }
    Ok(())
}

/// Adds the labels of these predicates, one a line.
fn push_labels(text: &mut String, program: &Program, nodes: &[u32]) -> Result<(), AllocError>
    requires { All (λ node. node < length program.now.predicates) nodes.now }
    ensures { OnOk result (string_bytes text.new ≡ string_bytes text.old ++ labels program.now.predicates nodes.now) }
{
    let Some((first, others)) = nodes.split_first() else {
        return Ok(());
    };
    push_label_of(text, program, *first)?;
    push_next_labels(text, program, others)?;
    Ok(())
}

/// Adds the node of the group with these members, of which `least` is the least.
fn push_group_node(
    text: &mut String,
    program: &Program,
    least: u32,
    members: &[u32],
) -> Result<(), AllocError>
    requires below { All (λ node. node < length program.now.predicates) members.now }
    requires least { least ≡ least_member members.now }
    ensures { OnOk result (string_bytes text.new ≡ string_bytes text.old ++ group_node program.now.predicates members.now) }
{
    text.push_str("  g")?;
    push_number(text, u64::from(least))?;
    text.push_str(" [label=\"")?;
    push_labels(text, program, members)?;
    text.push_str("\"];\n")
}

/// Adds the node of the group at the index if the predicate with that number is its least member.
fn push_node_at_least(
    text: &mut String,
    program: &Program,
    groups: &[Vec<u32>],
    node: u32,
    place: usize,
) -> Result<(), AllocError>
    requires inhabited { All (λ members. 0 < length members) (lists_of groups.now) }
    requires below { All (All (λ member. member < length program.now.predicates)) (lists_of groups.now) }
    requires within { place < length groups.now }
    ensures { OnOk result (string_bytes text.new
        ≡ string_bytes text.old ++ node_at_least program.now.predicates node (group_at (lists_of groups.now) place)) }
{
    if least_at(groups, place) != node {
        return Ok(());
    }
    push_group_node(text, program, node, &groups[place])?;
    Ok(())
}

/// Adds the node of the group with the index `place` - 1 if the predicate with that number is the
/// group's least member. So each group has one node if all its members are gone through. A predicate
/// in no group has the `place` 0, and a node of its own.
pub fn push_condensed_node(
    text: &mut String,
    program: &Program,
    groups: &[Vec<u32>],
    node: u32,
    place: usize,
) -> Result<(), AllocError>
    requires node { node < length program.now.predicates }
    requires inhabited { All (λ members. 0 < length members) (lists_of groups.now) }
    requires below { All (All (λ member. member < length program.now.predicates)) (lists_of groups.now) }
    requires within { place ≤ length groups.now }
    ensures { OnOk result (string_bytes text.new
        ≡ string_bytes text.old ++ condensed_node program.now.predicates (lists_of groups.now) node place) }
{
    if place == 0 {
        push_node(text, program, node)?;
        return Ok(());
    }
    push_node_at_least(text, program, groups, node, place - 1)?;
    Ok(())
}

/// The letter that the name of a node begins with.
fn letter_of(place: usize) -> &'static str
    ensures { result.now ≡ (if place == 0 then codes "n" else codes "g") }
{
    if place == 0 {
        return "n";
    }
    "g"
}

/// Adds the name of a node: `nN` for a predicate in no group, whose `place` is 0, and `gN` for a
/// group.
fn push_node_name(text: &mut String, node: u32, place: usize) -> Result<(), AllocError>
    ensures { OnOk result (string_bytes text.new ≡ string_bytes text.old ++ node_name node place) }
{
    text.push_str(letter_of(place))?;
    push_number(text, u64::from(node))?;
    Ok(())
}

/// Adds the edge from one node to another. `places` has one more than the index of the group of each
/// predicate, or 0 if it is in none.
pub fn push_condensed_edge(
    text: &mut String,
    places: &[usize],
    from: u32,
    to: u32,
) -> Result<(), AllocError>
    requires from { from < length places.now }
    requires to { to < length places.now }
    ensures { OnOk result (string_bytes text.new ≡ string_bytes text.old ++ condensed_edge places.now from to) }
{
    push_node_name(text, from, places[from as usize])?;
    text.push_str(" -> ")?;
    push_node_name(text, to, places[to as usize])?;
    text.push_str(";\n")?;
    Ok(())
}
