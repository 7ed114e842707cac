//! Reports, faults and limits of texts of edges.

ghost use Rattle.std.specs.Prelude.{◌≡◌, ◌<◌, ◌≤◌, ◌^◌, ℕ, List, true, false, length, All, IfOk};
ghost use Rattle.byte_names.specs.Names.{names_of};
ghost use Rattle.edge_text.specs.declared.limits.TheConstants.{MOST_BYTES};
ghost use Rattle.edge_text.specs.EdgeGraph.{Said};
ghost use Rattle.edge_text.specs.Readings.{IsReading};
ghost use Rattle.graph_law.specs.Graph.{Calls, lists_of};
ghost use Rattle.report_lines.specs.Reportable.{AreLeveled, AreReportable};
ghost use Rattle.component_answer.specs.Answers.{AreLoops, IsAnswer, IsPart, IsReachReport, IsReportBy, IsSaidAnswer};
ghost use Rattle.component_answer.specs.Searches.{FindsGroups};

use crate::reach::Reach;
use crate::starts::{Starts, starts_of};
use component_report::{Form, cycle_lines, order_report, report};
use edge_json::{Cause, Decoded, LineFault, decode, graph_of_lines};
use edge_text::{Fault, Reading, first_fault, read_edges};
use flat_graph::FlatGraph;
use graph_law::Opener;
use group_release::{Level, levels};
use loop_paths::circuits;
use std::alloc::{AllocError, Global};

/// What is wanted of a report.
#[derive(Clone, Copy, Debug, PartialEq, Eq, Drop)]
pub struct Wanted {
    /// Whether the lines are in the order in which the search finds the groups.
    pub order: bool,
    pub form: Form,
    /// Whether a shortest cycle of each recursive group comes after the lines of the groups.
    pub loops: bool,
    /// Whether the text is JSON Lines, and else lines of words.
    pub from_json: bool,
}

/// Where something is wrong with a text, and what. Line and column count from 1, and a column is a
/// byte. In JSON Lines the column is 1.
#[derive(Clone, Copy, Debug, PartialEq, Eq, Drop)]
pub struct TextFault {
    pub line: u32,
    pub column: u32,
    pub cause: Cause,
}

/// What is right to report of a text.
#[derive(Drop)]
pub enum Answer {
    /// The bytes of the report.
    Report(Vec<u8>),
    /// What is wrong first.
    Fault(TextFault),
    TooManyEdges,
    TooManyNodes,
    /// The index of the first root that is no node.
    NoNode(usize),
}

/// The report on groups, with its lines in their order, or else in order of height and least member.
fn groups_report(
    alloc: Global,
    names: &[&[u8]],
    groups: &[Vec<u32>],
    levels: &[Level],
    wanted: Wanted,
) -> Result<Vec<u8>, AllocError>
    requires few { length names.now < 2 ^ 32 }
    requires groups { AreReportable (length names.now) (lists_of groups.now) levels.now }
    ensures { IfOk result (λ bytes. IsReportBy wanted.order wanted.form (names_of names.now) (lists_of groups.now) levels.now bytes.items) }
{
    if wanted.order {
        let bytes = order_report(alloc, names, groups, levels, wanted.form)?;
        return Ok(bytes);
    }
    let bytes = report(alloc, names, groups, levels, wanted.form)?;
    Ok(bytes)
}

/// The lines of the cycles of groups of a graph if they are wanted, or nothing.
fn loops_part(
    alloc: Global,
    names: &[&[u8]],
    graph: &FlatGraph,
    groups: &[Vec<u32>],
    levels: &[Level],
    wanted: Wanted,
) -> Result<Vec<u8>, AllocError>
    requires few { length names.now < 2 ^ 32 }
    requires each { length graph.now ≡ length names.now }
    requires leveled { (starts : List ℕ) × (All (λ start. start < length graph.now) starts
        × AreLeveled (Calls graph.now) starts (lists_of groups.now) levels.now) }
    ensures { IfOk result (λ bytes. IsPart wanted.loops
        (AreLoops graph.now wanted.form (names_of names.now) (lists_of groups.now) levels.now) bytes.items) }
{
    if !wanted.loops {
        return Ok(Vec::new(alloc));
    }
    // The contract of `count` states that successors are nodes.
    let _count = graph.count();
    let found = circuits(alloc, graph, groups)?;
    let bytes = cycle_lines(alloc, names, groups, levels, &found, wanted.form)?;
    Ok(bytes)
}

/// The report on the groups that some nodes of a graph reach, with its lines in the order in which
/// the search finds the groups, or else in order of height and least member. After it are the lines
/// of the cycles if they are wanted.
fn graph_report<F: FnOnce(Reach<'_>) -> Result<Vec<Vec<u32>>, AllocError>>(
    alloc: Global,
    names: &[&[u8]],
    graph: &FlatGraph,
    starts: &[u32],
    wanted: Wanted,
    search: F,
) -> Result<Vec<u8>, AllocError>
    requires callable { F.IsAlwaysCallable search }
    requires finds { FindsGroups (F.post search) }
    requires few { length names.now < 2 ^ 32 }
    requires each { length graph.now ≡ length names.now }
    requires within { All (λ start. start < length graph.now) starts.now }
    ensures { IfOk result (λ bytes. IsReachReport (names_of names.now) graph.now starts.now wanted bytes.items) }
{
    // The contract of `count` states that successors are nodes.
    let _count = graph.count();
    let groups = search(Reach { graph, starts })?;
    let marks = levels(alloc, graph, &groups)?;
    let mut bytes = groups_report(alloc, names, &groups, &marks, wanted)?;
    let loops = loops_part(alloc, names, graph, &groups, &marks, wanted)?;
    bytes.extend_from_slice(&loops)?;
    Ok(bytes)
}

/// What is to be said of what was read: the limit that it is past, or the first root that is no
/// node, or the report on what the roots reach. If there are no roots, it is on all nodes.
fn answer_reading<F: FnOnce(Reach<'_>) -> Result<Vec<Vec<u32>>, AllocError>>(
    alloc: Global,
    reading: Reading<'_>,
    roots: &[&[u8]],
    wanted: Wanted,
    search: F,
) -> Result<Answer, AllocError>
    requires callable { F.IsAlwaysCallable search }
    requires finds { FindsGroups (F.post search) }
    requires read { (said : Said) × IsReading said reading }
    ensures { IfOk result (λ answer. (said : Said) → IsReading said reading.entry → IsSaidAnswer said (names_of roots.now) wanted answer) }
{
    match reading {
        Reading::TooManyEdges => Ok(Answer::TooManyEdges),
        Reading::TooManyNodes => Ok(Answer::TooManyNodes),
        Reading::Graph(read) => {
            match starts_of(alloc, &read.names, roots)? {
                Starts::Missing(place) => Ok(Answer::NoNode(place)),
                Starts::Nodes(starts) => {
                    let bytes = graph_report(
                        alloc,
                        &read.names,
                        &read.graph,
                        &starts,
                        wanted,
                        search,
                    )?;
                    Ok(Answer::Report(bytes))
                }
            }
        }
    }
}

/// What is to be said of a text of words.
fn answer_words<F: FnOnce(Reach<'_>) -> Result<Vec<Vec<u32>>, AllocError>>(
    alloc: Global,
    text: &[u8],
    roots: &[&[u8]],
    wanted: Wanted,
    search: F,
) -> Result<Answer, AllocError>
    requires callable { F.IsAlwaysCallable search }
    requires finds { FindsGroups (F.post search) }
    requires small { length text.now ≤ MOST_BYTES }
    requires words { wanted.from_json ≡ false }
    ensures { IfOk result (IsAnswer text.now (names_of roots.now) wanted) }
{
    if let Some(Fault { line, column }) = first_fault(text) {
        return Ok(Answer::Fault(TextFault {
            line,
            column,
            cause: Cause::LongName,
        }));
    }
    let reading = read_edges(alloc, text)?;
    let answer = answer_reading(alloc, reading, roots, wanted, search)?;
    Ok(answer)
}

/// What is to be said of a text of JSON Lines.
fn answer_json<F: FnOnce(Reach<'_>) -> Result<Vec<Vec<u32>>, AllocError>>(
    alloc: Global,
    text: &[u8],
    roots: &[&[u8]],
    wanted: Wanted,
    search: F,
) -> Result<Answer, AllocError>
    requires callable { F.IsAlwaysCallable search }
    requires finds { FindsGroups (F.post search) }
    requires small { length text.now ≤ MOST_BYTES }
    requires json { wanted.from_json ≡ true }
    ensures { IfOk result (IsAnswer text.now (names_of roots.now) wanted) }
{
    match decode(alloc, text)? {
        Decoded::Fault(LineFault { line, cause }) => Ok(Answer::Fault(TextFault {
            line,
            column: 1,
            cause,
        })),
        Decoded::Lines(lines) => {
            let reading = graph_of_lines(alloc, &lines)?;
            let answer = answer_reading(alloc, reading, roots, wanted, search)?;
            Ok(answer)
        }
    }
}

/// What is to be said of a text of at most 1,073,741,824 bytes: its first fault, or the limit that it
/// is past, or the first root that is no node, or the report on what the roots reach. If there are no
/// roots, it is on all nodes. `search` finds the groups.
///
/// Fails only if memory runs out, here or in the search.
pub fn answer_text<F: FnOnce(Reach<'_>) -> Result<Vec<Vec<u32>>, AllocError>>(
    alloc: Global,
    text: &[u8],
    roots: &[&[u8]],
    wanted: Wanted,
    search: F,
) -> Result<Answer, AllocError>
    requires callable { F.IsAlwaysCallable search }
    requires finds { FindsGroups (F.post search) }
    requires small { length text.now ≤ MOST_BYTES }
    ensures { IfOk result (IsAnswer text.now (names_of roots.now) wanted) }
{
    if wanted.from_json {
        return answer_json(alloc, text, roots, wanted, search);
    }
    answer_words(alloc, text, roots, wanted, search)
}
