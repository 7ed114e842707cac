//! Lines of predicates and of their groups, which are written in parallel.

ghost use Rattle.std.specs.Prelude.{◌≡◌, ◌<◌, ◌≤◌, ◌++◌, All, IfOk, OnOk, length};
ghost use Rattle.std.specs.String.{string_bytes};
ghost use Rattle.call_table.specs.Marks.{marks_at, see_marks};
ghost use Rattle.call_told.specs.Told.{IsTold, joined, node_line, node_lines, told_lines};
ghost use Rattle.call_told.specs.declared.node_lines.NodeLines.TheVariants.{Predicates, Groups};
ghost use Rattle.call_writer.specs.Lines.{predicate_line_of};
ghost use Rattle.graph_law.specs.Graph.{lists_of};

use crate::told::Told;
use call_writer::{push_group_line, push_predicate_line};
use rayon::prelude::*;
use std::alloc::{AllocError, Global};
use std::thread::Threads;

/// How many predicates are gone through in sequence. Only the last text is of fewer.
const SIZE: usize = 2_048;

/// How few texts are worth a thread of their own.
const FEWEST: usize = 1;

/// No list is as long, so one thread makes all texts.
const BY_ONE: usize = usize::MAX;

/// The initial capacity of a text in bytes for each line of a predicate. Few are longer.
const PREDICATE_ROOM: usize = 192;

/// The same for each line of a group.
const GROUP_ROOM: usize = 96;

/// Which lines are written of the predicates: their own, or those of the groups of which they are
/// the least members.
#[derive(Clone, Copy)]
pub enum NodeLines {
    Predicates,
    Groups,
}

/// Adds the line of a predicate. `place` is one more than the index of its group, or 0.
fn push_predicate(
    text: &mut String,
    told: &Told<'_>,
    node: u32,
    place: usize,
) -> Result<(), AllocError>
    requires told { IsTold told.now }
    requires below { node < length told.now.program.now.predicates }
    requires within { place ≤ length told.now.groups.items }
    ensures { OnOk result (string_bytes text.new ≡ string_bytes text.old
        ++ predicate_line_of told.now.program.now (lists_of told.now.groups.items) told.now.levels.items node place
        (marks_at (see_marks told.now.marks) node)) }
{
    let marks = told.marks.at(node);
    push_predicate_line(
        text,
        told.program,
        &told.groups,
        &told.levels,
        node,
        place,
        marks,
    )
}

/// Adds the line that there is of a predicate, if there is one.
fn push_told(
    text: &mut String,
    told: &Told<'_>,
    lines: NodeLines,
    node: u32,
) -> Result<(), AllocError>
    requires told { IsTold told.now }
    requires below { node < length told.now.program.now.predicates }
    ensures { OnOk result (string_bytes text.new ≡ string_bytes text.old
        ++ node_line lines told.now.program.now (lists_of told.now.groups.items) told.now.levels.items told.now.places.items (see_marks told.now.marks)
        node) }
{
    let place = told.places[node as usize];
    match lines {
        NodeLines::Predicates => push_predicate(text, told, node, place),
        NodeLines::Groups => push_group_line(text, &told.groups, &told.levels, node, place),
    }
}

/// Adds the lines of these predicates.
fn push_nodes(
    text: &mut String,
    told: &Told<'_>,
    lines: NodeLines,
    nodes: &[u32],
) -> Result<(), AllocError>
    requires told { IsTold told.now }
    requires below { All (λ p. p < length told.now.program.now.predicates) nodes.now }
    ensures { OnOk result (string_bytes text.new ≡ string_bytes text.old
        ++ node_lines lines told.now.program.now (lists_of told.now.groups.items) told.now.levels.items told.now.places.items (see_marks told.now.marks)
        nodes.now) }
{
    for node in nodes {
        push_told(text, told, lines, *node)?;
    }
    Ok(())
}

/// The initial capacity of a text of so many lines. Memory is touched that isn't used if it is too
/// large, since the system maps large pages.
fn room_of(lines: NodeLines, count: usize) -> usize {
    let count = count.min(SIZE);
    match lines {
        NodeLines::Predicates => count * PREDICATE_ROOM,
        NodeLines::Groups => count * GROUP_ROOM,
    }
}

/// The lines of these predicates.
fn node_text(
    alloc: Global,
    told: &Told<'_>,
    lines: NodeLines,
    nodes: &[u32],
) -> Result<String, AllocError>
    requires told { IsTold told.now }
    requires below { All (λ p. p < length told.now.program.now.predicates) nodes.now }
    ensures { IfOk result (λ text. string_bytes text
        ≡ node_lines lines told.now.program.now (lists_of told.now.groups.items) told.now.levels.items told.now.places.items (see_marks told.now.marks)
        nodes.now) }
{
    let mut text = String::with_capacity(alloc, room_of(lines, nodes.len()))?;
    push_nodes(&mut text, told, lines, nodes)?;
    Ok(text)
}

/// The lines of these predicates in consecutive texts. A thread of its own makes at least `fewest`.
fn node_pieces<R: Threads + Sync>(
    rt: &R,
    alloc: Global,
    told: &Told<'_>,
    lines: NodeLines,
    nodes: &[u32],
    fewest: usize,
) -> Result<Vec<String>, AllocError>
    requires told { IsTold told.now }
    requires below { All (λ p. p < length told.now.program.now.predicates) nodes.now }
    ensures { IfOk result (λ texts. joined texts.items
        ≡ node_lines lines told.now.program.now (lists_of told.now.groups.items) told.now.levels.items told.now.places.items (see_marks told.now.marks)
        nodes.now) }
{
    nodes
        .par_chunks(SIZE)
        .with_min_len(fewest)
        .map(
            |part: &[u32]| -> Result<String, AllocError>
                requires told { IsTold told.now }
                requires below { All (λ p. p < length told.now.program.now.predicates) part.now }
                ensures { IfOk result (λ text. string_bytes text
                    ≡ node_lines lines told.entry.now.program.now (lists_of told.entry.now.groups.items) told.entry.now.levels.items
                    told.entry.now.places.items (see_marks told.entry.now.marks) part.now) }
            { node_text(alloc, told, lines, part) },
        )
        .collect::<Result<Vec<String>, AllocError>>(rt, alloc)?
}

/// The lines of these predicates in consecutive texts, made in parallel. If memory runs out, one
/// thread makes them once more, since each further one takes address space.
fn each_text<R: Threads + Sync>(
    rt: &R,
    alloc: Global,
    told: &Told<'_>,
    lines: NodeLines,
    nodes: &[u32],
) -> Result<Vec<String>, AllocError>
    requires told { IsTold told.now }
    requires below { All (λ p. p < length told.now.program.now.predicates) nodes.now }
    ensures { IfOk result (λ texts. joined texts.items
        ≡ node_lines lines told.now.program.now (lists_of told.now.groups.items) told.now.levels.items told.now.places.items (see_marks told.now.marks)
        nodes.now) }
{
    match node_pieces(rt, alloc, told, lines, nodes, FEWEST) {
        Ok(texts) => Ok(texts),
        Err(_) => node_pieces(rt, alloc, told, lines, nodes, BY_ONE),
    }
}

/// The lines of these predicates, and after them those of the groups of which they are the least
/// members, in consecutive texts.
pub(crate) fn node_texts<R: Threads + Sync>(
    rt: &R,
    alloc: Global,
    told: &Told<'_>,
    nodes: &[u32],
) -> Result<Vec<String>, AllocError>
    requires told { IsTold told.now }
    requires below { All (λ p. p < length told.now.program.now.predicates) nodes.now }
    ensures { IfOk result (λ texts. joined texts.items
        ≡ told_lines told.now.program.now (lists_of told.now.groups.items) told.now.levels.items told.now.places.items (see_marks told.now.marks)
        nodes.now) }
{
    let mut texts = each_text(rt, alloc, told, NodeLines::Predicates, nodes)?;
    let mut groups = each_text(rt, alloc, told, NodeLines::Groups, nodes)?;
    texts.append(&mut groups)?;
    Ok(texts)
}
