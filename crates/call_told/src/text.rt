//! What is asked for, as bytes.

ghost use Rattle.std.specs.Prelude.{◌≡◌, ◌<◌, ◌++◌, [], All, IfOk, OnOk, length, slice_index_or};
ghost use Rattle.std.specs.List.{flat_map};
ghost use Rattle.std.specs.String.{string_bytes};
ghost use Rattle.call_edges.specs.Successors.{successor_lists};
ghost use Rattle.call_table.specs.Marks.{see_marks};
ghost use Rattle.call_table.specs.Table.{IsTable};
ghost use Rattle.call_writer.specs.Dot.{edge_line, group_nodes};
ghost use Rattle.call_told.specs.Told.{IsTold, TellsForm, TellsFrom, TellsTable, all_lines, dot_graph, grouped_nodes, joined, told_lines, ungrouped_line};
ghost use Rattle.call_told.specs.Wanted.{see_wanted};
ghost use Rattle.call_told.specs.declared.wanted.Form.TheVariants.{Lines, Undefined, Condensed};
ghost use Rattle.graph_law.specs.Classes.{group_at};
ghost use Rattle.graph_law.specs.Graph.{lists_of};
ghost use Rattle.group_release.specs.Level.{level_at};

use crate::condensed::condensed_text;
use crate::directives::push_directives;
use crate::node_lines::node_texts;
use crate::stretches::{call_texts, clause_texts};
use crate::told::{Told, make_told};
use crate::wanted::{Form, Wanted};
use call_edges::{CallLists, PlacedCallLists};
use call_table::{CallTable, call_table};
use call_writer::{push_edges, push_group_nodes, push_node};
use graph_law::Opener;
use import_rules::Program;
use std::alloc::{AllocError, Global};
use std::mem::forget;
use std::thread;
use std::thread::Threads;

/// The clauses and calls of the predicates that are listed.
fn table_of<'a, R: Threads + Sync>(
    rt: &R,
    alloc: Global,
    told: &Told<'_>,
    calls: &PlacedCallLists<'a>,
) -> Result<CallTable<'a>, AllocError>
    requires told { IsTold told.now }
    requires calls { calls.now ≡ told.now.program.now }
    ensures { IfOk result (IsTable told.now.program.now told.now.nodes.items (lists_of told.now.groups.items)) }
{
    call_table(rt, alloc, calls, &told.nodes, &told.groups)
}

/// The lines of the predicates that are listed, and of their groups, in texts one after the other.
fn told_predicates<R: Threads + Sync>(
    rt: &R,
    alloc: Global,
    told: &Told<'_>,
) -> Result<Vec<String>, AllocError>
    requires { IsTold told.now }
    ensures { IfOk result (λ texts. joined texts.items
        ≡ told_lines told.now.program.now (lists_of told.now.groups.items) told.now.levels.items told.now.places.items (see_marks told.now.marks)
        told.now.nodes.items) }
{
    node_texts(rt, alloc, told, &told.nodes)
}

/// The clauses and calls of what is listed, and the lines of its predicates and groups. Both are
/// made in parallel. What runs out of memory is made once more after the threads have ended, as in `call_table`.
fn table_beside_predicates<'a, R: Threads + Sync>(
    rt: &R,
    alloc: Global,
    told: &Told<'_>,
    calls: &PlacedCallLists<'a>,
) -> Result<(CallTable<'a>, Vec<String>), AllocError>
    requires told { IsTold told.now }
    requires calls { calls.now ≡ told.now.program.now }
    ensures table { IfOk result (λ found. IsTable told.now.program.now told.now.nodes.items (lists_of told.now.groups.items) found.0) }
    ensures lines { IfOk result (λ found. joined found.1.items
        ≡ told_lines told.now.program.now (lists_of told.now.groups.items) told.now.levels.items told.now.places.items (see_marks told.now.marks)
        told.now.nodes.items) }
{
    let (texts, table) = thread::join_mut(
        rt,
        &mut || -> Result<Vec<String>, AllocError>
            requires { IsTold told.now }
            ensures { IfOk result (λ texts. joined texts.items
                ≡ told_lines told.entry.now.program.now (lists_of told.entry.now.groups.items) told.entry.now.levels.items
                told.entry.now.places.items (see_marks told.entry.now.marks) told.entry.now.nodes.items) }
        { told_predicates(rt, alloc, told) },
        &mut || -> Result<CallTable<'_>, AllocError>
            requires { IsTold told.now × (calls.now ≡ told.now.program.now) }
            ensures { IfOk result (IsTable told.entry.now.program.now told.entry.now.nodes.items (lists_of told.entry.now.groups.items)) }
        { table_of(rt, alloc, told, calls) },
    );
    let table = match table {
        Ok(found) => found,
        Err(_) => table_of(rt, alloc, told, calls)?,
    };
    let texts = match texts {
        Ok(found) => found,
        Err(_) => told_predicates(rt, alloc, told)?,
    };
    Ok((table, texts))
}

/// The lines of predicates, groups, clauses and their calls, in texts one after the other.
fn table_texts<R: Threads + Sync>(
    rt: &R,
    alloc: Global,
    told: &Told<'_>,
    calls: &PlacedCallLists<'_>,
) -> Result<Vec<String>, AllocError>
    requires told { IsTold told.now }
    requires calls { calls.now ≡ told.now.program.now }
    ensures { IfOk result (λ texts. TellsTable told.now.program.now (lists_of told.now.groups.items) told.now.nodes.items
        (all_lines told.now.program.now (lists_of told.now.groups.items) told.now.levels.items told.now.places.items
        (see_marks told.now.marks) told.now.nodes.items) (joined texts.items)) }
{
    let (table, mut texts) = table_beside_predicates(rt, alloc, told, calls)?;
    let mut clauses = clause_texts(rt, alloc, told.program, &table)?;
    let mut lines = call_texts(rt, alloc, told.program, &table, false)?;
    texts.append(&mut clauses)?;
    texts.append(&mut lines)?;
    forget(table);
    Ok(texts)
}

/// All lines, of predicates, groups, clauses and calls, in texts one after the other. Calls of
/// directives come last.
fn lines_texts<R: Threads + Sync>(
    rt: &R,
    alloc: Global,
    told: &Told<'_>,
    calls: &PlacedCallLists<'_>,
) -> Result<Vec<String>, AllocError>
    requires told { IsTold told.now }
    requires calls { calls.now ≡ told.now.program.now }
    ensures { IfOk result (λ texts. TellsForm Lines told.now.program.now (lists_of told.now.groups.items) told.now.levels.items
        told.now.places.items (see_marks told.now.marks) told.now.nodes.items (joined texts.items)) }
{
    let mut texts = table_texts(rt, alloc, told, calls)?;
    push_directives(alloc, told.program, false, &mut texts)?;
    Ok(texts)
}

/// The lines of the calls whose names mean no predicate, in texts one after the other.
fn undefined_texts<R: Threads + Sync>(
    rt: &R,
    alloc: Global,
    told: &Told<'_>,
    calls: &PlacedCallLists<'_>,
) -> Result<Vec<String>, AllocError>
    requires told { IsTold told.now }
    requires calls { calls.now ≡ told.now.program.now }
    ensures { IfOk result (λ texts. TellsForm Undefined told.now.program.now (lists_of told.now.groups.items) told.now.levels.items
        told.now.places.items (see_marks told.now.marks) told.now.nodes.items (joined texts.items)) }
{
    let table = table_of(rt, alloc, told, calls)?;
    let mut texts = call_texts(rt, alloc, told.program, &table, true)?;
    push_directives(alloc, told.program, true, &mut texts)?;
    forget(table);
    Ok(texts)
}

/// Adds the group at the index.
fn push_group(text: &mut String, told: &Told<'_>, place: usize) -> Result<(), AllocError>
    requires told { IsTold told.now }
    requires within { place < length told.now.groups.items }
    ensures { OnOk result (string_bytes text.new ≡ string_bytes text.old
        ++ group_nodes told.now.program.now.predicates (group_at (lists_of told.now.groups.items) place) (level_at told.now.levels.items place)) }
{
    push_group_nodes(text, told.program, &told.groups[place], told.levels[place])
}

/// Adds the groups.
fn push_groups(text: &mut String, told: &Told<'_>) -> Result<(), AllocError>
    requires { IsTold told.now }
    ensures { OnOk result (string_bytes text.new ≡ string_bytes text.old
        ++ grouped_nodes told.now.program.now (lists_of told.now.groups.items) told.now.levels.items) }
{
    for place in 0..told.groups.len() {
        push_group(text, told, place)?;
    }
    Ok(())
}

/// Adds the node of a predicate if it is in no group.
fn push_ungrouped(text: &mut String, told: &Told<'_>, node: u32) -> Result<(), AllocError>
    requires told { IsTold told.now }
    requires below { node < length told.now.program.now.predicates }
    ensures { OnOk result (string_bytes text.new ≡ string_bytes text.old
        ++ ungrouped_line told.now.program.now told.now.places.items node) }
{
    if told.places[node as usize] != 0 {
        return Ok(());
    }
    push_node(text, told.program, node)
}

/// Adds the predicates that are in no group.
fn push_all_ungrouped(text: &mut String, told: &Told<'_>) -> Result<(), AllocError>
    requires { IsTold told.now }
    ensures { OnOk result (string_bytes text.new ≡ string_bytes text.old
        ++ flat_map (ungrouped_line told.now.program.now told.now.places.items) told.now.nodes.items) }
{
    for node in &told.nodes {
        push_ungrouped(text, told, *node)?;
    }
    Ok(())
}

/// Adds the edges from a predicate to those that it calls. What `callees` had is lost.
fn push_callees(
    text: &mut String,
    told: &Told<'_>,
    calls: &CallLists<'_>,
    node: u32,
    callees: &mut Vec<u32>,
) -> Result<(), AllocError>
    requires calls { calls.now ≡ told.now.program.now }
    requires below { node < length told.now.program.now.predicates }
    ensures { OnOk result (string_bytes text.new ≡ string_bytes text.old
        ++ flat_map (edge_line node) (slice_index_or (successor_lists told.now.program.now) node [])) }
{
    callees.clear();
    calls.expand(node, callees)?;
    push_edges(text, node, callees)
}

/// Adds all edges.
fn push_all_callees(
    alloc: Global,
    text: &mut String,
    told: &Told<'_>,
    calls: &CallLists<'_>,
) -> Result<(), AllocError>
    requires told { IsTold told.now }
    requires calls { calls.now ≡ told.now.program.now }
    ensures { OnOk result (string_bytes text.new ≡ string_bytes text.old
        ++ flat_map (λ p. flat_map (edge_line p) (slice_index_or (successor_lists told.now.program.now) p [])) told.now.nodes.items) }
{
    let mut callees = Vec::new(alloc);
    for node in &told.nodes {
        push_callees(text, told, calls, *node, &mut callees)?;
    }
    Ok(())
}

/// The graph: the groups, of which the recursive ones are clusters, the predicates that are in none,
/// and the edges.
fn dot_graph(alloc: Global, told: &Told<'_>, calls: &CallLists<'_>) -> Result<String, AllocError>
    requires told { IsTold told.now }
    requires calls { calls.now ≡ told.now.program.now }
    ensures { IfOk result (λ text. string_bytes text
        ≡ dot_graph told.now.program.now (lists_of told.now.groups.items) told.now.levels.items told.now.places.items
        told.now.nodes.items) }
{
    let mut text = String::from_str(alloc, "digraph calls {\n")?;
    push_groups(&mut text, told)?;
    push_all_ungrouped(&mut text, told)?;
    push_all_callees(alloc, &mut text, told, calls)?;
    text.push_str("}\n")?;
    Ok(text)
}

/// The graph, in one text.
fn dot_texts(
    alloc: Global,
    told: &Told<'_>,
    calls: &CallLists<'_>,
) -> Result<Vec<String>, AllocError>
    requires told { IsTold told.now }
    requires calls { calls.now ≡ told.now.program.now }
    ensures { IfOk result (λ texts. joined texts.items
        ≡ dot_graph told.now.program.now (lists_of told.now.groups.items) told.now.levels.items told.now.places.items
        told.now.nodes.items) }
{
    let text = dot_graph(alloc, told, calls)?;
    let mut texts = Vec::new(alloc);
    texts.push(text)?;
    Ok(texts)
}

/// The condensed graph, in one text.
fn condensed_texts(
    alloc: Global,
    told: &Told<'_>,
    calls: &CallLists<'_>,
) -> Result<Vec<String>, AllocError>
    requires told { IsTold told.now }
    requires calls { calls.now ≡ told.now.program.now }
    ensures { IfOk result (λ texts. TellsForm Condensed told.now.program.now (lists_of told.now.groups.items) told.now.levels.items
        told.now.places.items (see_marks told.now.marks) told.now.nodes.items (joined texts.items)) }
{
    let text = condensed_text(alloc, told, calls)?;
    let mut texts = Vec::new(alloc);
    texts.push(text)?;
    Ok(texts)
}

/// What is asked for, in the form.
fn texts_of<R: Threads + Sync>(
    rt: &R,
    alloc: Global,
    form: Form,
    told: &Told<'_>,
    calls: &PlacedCallLists<'_>,
) -> Result<Vec<String>, AllocError>
    requires told { IsTold told.now }
    requires calls { calls.now ≡ told.now.program.now }
    ensures { IfOk result (λ texts. TellsForm form told.now.program.now (lists_of told.now.groups.items) told.now.levels.items
        told.now.places.items (see_marks told.now.marks) told.now.nodes.items (joined texts.items)) }
{
    match form {
        Form::Lines => lines_texts(rt, alloc, told, calls),
        Form::Undefined => undefined_texts(rt, alloc, told, calls),
        Form::Dot => dot_texts(alloc, told, calls.lists()),
        Form::Condensed => condensed_texts(alloc, told, calls.lists()),
    }
}

/// What is asked for of the program, if reachability begins at these roots. The bytes are those of
/// the texts, one after the other: predicates first, then clauses, then calls, each kind if it is
/// asked for. Lines of clauses and of calls are written in parallel. Fails only if memory runs out.
pub fn told_texts<R: Threads + Sync>(
    rt: &R,
    alloc: Global,
    wanted: &Wanted,
    program: &Program,
    calls: &PlacedCallLists<'_>,
    roots: &[u32],
) -> Result<Vec<String>, AllocError>
    requires calls { calls.now ≡ program.now }
    requires below { All (λ q. q < length program.now.predicates) roots.now }
    ensures { IfOk result (λ texts. TellsFrom (see_wanted wanted.now) program.now roots.now (joined texts.items)) }
{
    let told = make_told(alloc, wanted, program, calls.lists(), roots)?;
    let texts = texts_of(rt, alloc, wanted.form, &told, calls)?;
    forget(told);
    Ok(texts)
}
