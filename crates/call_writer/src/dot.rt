//! The graph of the predicates, in the language of Graphviz.

ghost use Rattle.std.specs.Prelude.{◌≡◌, ◌<◌, ◌++◌, [], All, OnOk, length};
ghost use Rattle.std.specs.List.{flat_map};
ghost use Rattle.std.specs.String.{string_bytes};
ghost use Rattle.call_writer.specs.Dot.{cluster, cluster_head, dot_char, dot_text, edge_line, group_nodes, label, node_line_of};
ghost use Rattle.graph_law.specs.Classes.{least_member};
ghost use Rattle.import_rules.specs.Parts.{see_name};

use crate::json::push_number;
use group_release::Level;
use import_rules::{NameView, Program};
use std::alloc::AllocError;

/// Adds a character of a quoted label.
fn push_dot_char(text: &mut String, character: char) -> Result<(), AllocError>
    ensures { OnOk result (string_bytes text.new ≡ string_bytes text.old ++ dot_char character) }
{
    if character == '"' {
        return text.push_str("\\\"");
    }
    if character == '\\' {
        return text.push_str("\\\\");
    }
    if character == '\n' {
        return text.push_str("\\n");
    }
    text.push(character)
}

/// Adds a text as a quoted label contains it: `"` as `\"`, a backslash as `\\` and a newline as
/// `\n`.
fn push_dot_text(text: &mut String, name: &str) -> Result<(), AllocError>
    ensures { OnOk result (string_bytes text.new ≡ string_bytes text.old ++ dot_text name.now) }
{
    for character in name.chars() {
        push_dot_char(text, character)?;
    }
    Ok(())
}

/// Adds `MODULE:NAME/ARITY`.
pub(crate) fn push_label(text: &mut String, name: NameView<'_>) -> Result<(), AllocError>
    ensures { OnOk result (string_bytes text.new ≡ string_bytes text.old ++ label (see_name name.entry)) }
{
    push_dot_text(text, name.module)?;
    text.push_str(":")?;
    push_dot_text(text, name.name)?;
    text.push_str("/")?;
    push_number(text, u64::from(name.arity))
}

/// Adds the node of the predicate with that number.
pub fn push_node(text: &mut String, program: &Program, node: u32) -> Result<(), AllocError>
    requires { node < length program.now.predicates }
    ensures { OnOk result (string_bytes text.new ≡ string_bytes text.old ++ node_line_of program.now.predicates node) }
{
    text.push_str("  n")?;
    push_number(text, u64::from(node))?;
    text.push_str(" [label=\"")?;
    push_label(text, program.name_of(node))?;
    text.push_str("\"];\n")
}

/// Adds the nodes of these predicates.
fn push_nodes(text: &mut String, program: &Program, nodes: &[u32]) -> Result<(), AllocError>
    requires { All (λ node. node < length program.now.predicates) nodes.now }
    ensures { OnOk result (string_bytes text.new ≡ string_bytes text.old ++ flat_map (node_line_of program.now.predicates) nodes.now) }
{
    for node in nodes {
        push_node(text, program, *node)?;
    }
    Ok(())
}

/// The first member of a group, which is its least one.
fn least_of(members: &[u32]) -> u32
    requires { 0 < length members.now }
    ensures { result ≡ least_member members.now }
{
    members[0]
}

/// Adds the first line of the cluster that is named by that number.
fn push_cluster_head(text: &mut String, least: u32) -> Result<(), AllocError>
    ensures { OnOk result (string_bytes text.new ≡ string_bytes text.old ++ cluster_head least) }
{
    text.push_str("subgraph cluster_")?;
    push_number(text, u64::from(least))?;
    text.push_str(" {\n")?;
    Ok(())
}

/// Adds a group as a cluster of its members, which is named by the least of them.
fn push_cluster(text: &mut String, program: &Program, members: &[u32]) -> Result<(), AllocError>
    requires inhabited { 0 < length members.now }
    requires below { All (λ node. node < length program.now.predicates) members.now }
    ensures { OnOk result (string_bytes text.new ≡ string_bytes text.old ++ cluster program.now.predicates members.now) }
{
    push_cluster_head(text, least_of(members))?;
    push_nodes(text, program, members)?;
    text.push_str("}\n")
}

/// Adds a group: a recursive one as a cluster of its members, which is named by the least of them,
/// any other as the node of its one member.
pub fn push_group_nodes(
    text: &mut String,
    program: &Program,
    members: &[u32],
    level: Level,
) -> Result<(), AllocError>
    requires inhabited { 0 < length members.now }
    requires below { All (λ node. node < length program.now.predicates) members.now }
    ensures { OnOk result (string_bytes text.new ≡ string_bytes text.old ++ group_nodes program.now.predicates members.now level) }
{
    if level.recursive {
        return push_cluster(text, program, members);
    }
    push_nodes(text, program, members)
}

/// Adds the edge from one node to another.
fn push_edge(text: &mut String, node: u32, callee: u32) -> Result<(), AllocError>
    ensures { OnOk result (string_bytes text.new ≡ string_bytes text.old ++ edge_line node callee) }
{
    text.push_str("n")?;
    push_number(text, u64::from(node))?;
    text.push_str(" -> n")?;
    push_number(text, u64::from(callee))?;
    text.push_str(";\n")
}

/// Adds the edges from a node to each of these, in their order.
pub fn push_edges(text: &mut String, node: u32, callees: &[u32]) -> Result<(), AllocError>
    ensures { OnOk result (string_bytes text.new ≡ string_bytes text.old ++ flat_map (edge_line node) callees.now) }
{
    for callee in callees {
        push_edge(text, node, *callee)?;
    }
    Ok(())
}
