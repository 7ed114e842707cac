//! The lines of a table of calls, as JSON.

ghost use Rattle.std.specs.Prelude.{◌≡◌, ◌<◌, ◌≤◌, ◌++◌, ◌&&◌, All, OnOk, codes, is_some, length};
ghost use Rattle.std.specs.Fmt.{decimal};
ghost use Rattle.std.specs.List.{flat_map, zip};
ghost use Rattle.std.specs.String.{string_bytes};
ghost use Rattle.call_edges.specs.PlacedSeen.{see_call, see_calls};
ghost use Rattle.call_writer.specs.Json.{truth};
ghost use Rattle.call_writer.specs.Lines.{call_head, call_line, call_line_if, clause_line, end_fields, group_fields, level_fields};
ghost use Rattle.call_writer.specs.Lines.{name_fields, number_or_null, predicate_head, predicate_line_of, spot_fields};
ghost use Rattle.graph_law.specs.Classes.{group_at, least_member};
ghost use Rattle.graph_law.specs.Graph.{lists_of};
ghost use Rattle.import_rules.specs.Names.{pred_name};
ghost use Rattle.import_rules.specs.Parts.{see_name};

use crate::call_end::push_call_end;
use crate::json::{push_inner, push_number};
use crate::last::{Last, LastFile, LastModule};
use crate::marks::push_marks;
use call_edges::PlacedCall;
use call_table::{ClauseAt, Extent, NodeMarks};
use group_release::Level;
use import_rules::{NameView, Program};
use prolog_tokens::Place;
use std::alloc::{AllocError, Global};

/// Adds a comma, and a line and a column of the file at the index. The file is the last one then.
pub(crate) fn push_spot(
    text: &mut String,
    last: &mut LastFile<'_>,
    file: u32,
    place: Place,
) -> Result<(), AllocError>
    ensures text { OnOk result (string_bytes text.new ≡ string_bytes text.old ++ (codes "," ++ spot_fields last.old.program.now file place)) }
    ensures program { OnOk result (last.new.program.now ≡ last.old.program.now) }
{
    last.take(file)?;
    text.push_str(last.text.as_str())?;
    push_number(text, u64::from(place.line))?;
    text.push_str(",\"column\":")?;
    push_number(text, u64::from(place.column))?;
    Ok(())
}

/// What follows the characters of a name whose arity has one digit.
fn short_arity(arity: u32) -> &'static str
    requires { arity < 10 }
    ensures { result.now ≡ codes "\",\"arity\":" ++ decimal arity }
{
    match arity {
        0 => "\",\"arity\":0",
        1 => "\",\"arity\":1",
        2 => "\",\"arity\":2",
        3 => "\",\"arity\":3",
        4 => "\",\"arity\":4",
        5 => "\",\"arity\":5",
        6 => "\",\"arity\":6",
        7 => "\",\"arity\":7",
        8 => "\",\"arity\":8",
        _ => "\",\"arity\":9",
    }
}

/// Adds what follows the characters of a name of that arity.
fn push_arity(text: &mut String, arity: u32) -> Result<(), AllocError>
    ensures { OnOk result (string_bytes text.new ≡ string_bytes text.old ++ (codes "\",\"arity\":" ++ decimal arity)) }
{
    if arity < 10 {
        return text.push_str(short_arity(arity));
    }
    text.push_str("\",\"arity\":")?;
    push_number(text, u64::from(arity))
}

/// Adds a comma and a name in a module.
fn push_name(text: &mut String, owner: &str, name: &str, arity: u32) -> Result<(), AllocError>
    ensures { OnOk result (string_bytes text.new ≡ string_bytes text.old ++ (codes "," ++ name_fields (pred_name owner.now name.now arity))) }
{
    text.push_str(",\"module\":\"")?;
    push_inner(text, owner)?;
    text.push_str("\",\"name\":\"")?;
    push_inner(text, name)?;
    push_arity(text, arity)?;
    Ok(())
}

/// Adds a comma and a name in a module. The module is the last one then.
pub(crate) fn push_name_after<'a>(
    text: &mut String,
    last: &mut LastModule<'a>,
    owner: &'a str,
    name: &str,
    arity: u32,
) -> Result<(), AllocError>
    ensures { OnOk result (string_bytes text.new ≡ string_bytes text.old ++ (codes "," ++ name_fields (pred_name owner.now name.now arity))) }
{
    last.take(owner)?;
    text.push_str(last.text.as_str())?;
    push_inner(text, name)?;
    push_arity(text, arity)?;
    Ok(())
}

/// Adds the number, or `null` if there is none.
pub(crate) fn push_callee(text: &mut String, callee: Option<u32>) -> Result<(), AllocError>
    ensures { OnOk result (string_bytes text.new ≡ string_bytes text.old ++ number_or_null callee) }
{
    match callee {
        Some(node) => push_number(text, u64::from(node)),
        None => text.push_str("null"),
    }
}

/// Whether a call has no line: only undefined names are asked for, and it means a predicate.
pub(crate) fn is_hidden(undefined: bool, callee: Option<u32>) -> bool
    ensures { result ≡ (undefined && is_some callee) }
{
    if undefined {
        return callee.is_some();
    }
    false
}

/// Adds the beginning of the line of a call: what kind of line it is, its caller and what it means.
fn push_call_head(text: &mut String, caller: u32, callee: Option<u32>) -> Result<(), AllocError>
    ensures { OnOk result (string_bytes text.new ≡ string_bytes text.old ++ call_head caller callee) }
{
    text.push_str("{\"is\":\"call\",\"caller\":")?;
    push_number(text, u64::from(caller))?;
    text.push_str(",\"callee\":")?;
    push_callee(text, callee)
}

/// Adds the line of a call.
fn push_call_line<'a, 'b>(
    text: &mut String,
    last: &mut Last<'a, 'b>,
    call: &PlacedCall<'b>,
    place: Place,
) -> Result<(), AllocError>
    ensures text { OnOk result (string_bytes text.new
        ≡ string_bytes text.old ++ call_line last.old.file.program.now (see_call call.now) place) }
    ensures program { OnOk result (last.new.file.program.now ≡ last.old.file.program.now) }
{
    let named = call.named;
    push_call_head(text, named.caller, call.callee)?;
    push_name_after(
        text,
        &mut last.module,
        named.module,
        named.name,
        named.arity,
    )?;
    push_spot(text, &mut last.file, named.file, place)?;
    push_call_end(text, named.added, named.negated)
}

/// Adds the line of a call. If `undefined` is set, there is none for a call that means a predicate.
fn push_call<'a, 'b>(
    text: &mut String,
    last: &mut Last<'a, 'b>,
    call: &PlacedCall<'b>,
    place: Place,
    undefined: bool,
) -> Result<(), AllocError>
    ensures text { OnOk result (string_bytes text.new
        ≡ string_bytes text.old ++ call_line_if undefined last.old.file.program.now (see_call call.now) place) }
    ensures program { OnOk result (last.new.file.program.now ≡ last.old.file.program.now) }
{
    if is_hidden(undefined, call.callee) {
        return Ok(());
    }
    push_call_line(text, last, call, place)
}

/// Adds the lines of calls with their lines and columns, in their order. If `undefined` is set,
/// only those of calls whose name means no predicate.
pub fn push_call_lines(
    alloc: Global,
    text: &mut String,
    program: &Program,
    calls: &[PlacedCall<'_>],
    places: &[Place],
    undefined: bool,
) -> Result<(), AllocError>
    ensures { OnOk result (string_bytes text.new
        ≡ string_bytes text.old ++ flat_map (λ pair. call_line_if undefined program.now pair.0 pair.1) (zip (see_calls calls.now) places.now)) }
{
    let mut last = Last {
        file: LastFile::none(alloc, program),
        module: LastModule::none(alloc),
    };
    for (call, place) in calls.iter().zip(places) {
        push_call(text, &mut last, call, *place, undefined)?;
    }
    Ok(())
}

/// Adds a comma, and the line and the column at which a clause ends.
fn push_end(text: &mut String, end: Place) -> Result<(), AllocError>
    ensures { OnOk result (string_bytes text.new ≡ string_bytes text.old ++ (codes "," ++ end_fields end)) }
{
    text.push_str(",\"end_line\":")?;
    push_number(text, u64::from(end.line))?;
    text.push_str(",\"end_column\":")?;
    push_number(text, u64::from(end.column))?;
    Ok(())
}

/// Adds the line of a clause.
fn push_clause(
    text: &mut String,
    last: &mut LastFile<'_>,
    clause: ClauseAt,
    extent: Extent,
) -> Result<(), AllocError>
    ensures text { OnOk result (string_bytes text.new ≡ string_bytes text.old ++ clause_line last.old.program.now clause extent) }
    ensures program { OnOk result (last.new.program.now ≡ last.old.program.now) }
{
    text.push_str("{\"is\":\"clause\",\"predicate\":")?;
    push_number(text, u64::from(clause.node))?;
    push_spot(text, last, clause.file, extent.start)?;
    push_end(text, extent.end)?;
    text.push_str("}\n")?;
    Ok(())
}

/// Adds the lines of clauses with their lines and columns, in their order.
pub fn push_clause_lines(
    alloc: Global,
    text: &mut String,
    program: &Program,
    clauses: &[ClauseAt],
    extents: &[Extent],
) -> Result<(), AllocError>
    ensures { OnOk result (string_bytes text.new
        ≡ string_bytes text.old ++ flat_map (λ pair. clause_line program.now pair.0 pair.1) (zip clauses.now extents.now)) }
{
    let mut last = LastFile::none(alloc, program);
    for (clause, extent) in clauses.iter().zip(extents) {
        push_clause(text, &mut last, *clause, *extent)?;
    }
    Ok(())
}

/// What follows the height of a group in a line.
pub(crate) fn recursive_field(recursive: bool) -> &'static str
    ensures { result.now ≡ codes ",\"recursive\":" ++ truth recursive }
{
    if recursive {
        ",\"recursive\":true"
    } else {
        ",\"recursive\":false"
    }
}

/// The least member of the group at the index, which is its first.
pub(crate) fn least_at(groups: &[Vec<u32>], place: usize) -> u32
    requires inhabited { All (λ members. 0 < length members) (lists_of groups.now) }
    requires within { place < length groups.now }
    ensures { result ≡ least_member (group_at (lists_of groups.now) place) }
{
    groups[place][0]
}

/// Adds a comma, the least member of a group and the group's level.
fn push_level(text: &mut String, least: u32, level: Level) -> Result<(), AllocError>
    ensures { OnOk result (string_bytes text.new ≡ string_bytes text.old ++ (codes "," ++ level_fields least level)) }
{
    text.push_str(",\"group\":")?;
    push_number(text, u64::from(least))?;
    text.push_str(",\"height\":")?;
    push_number(text, u64::from(level.height))?;
    text.push_str(recursive_field(level.recursive))?;
    Ok(())
}

/// Adds a comma and the group of a predicate. `place` is one more than the group's index, or 0 if
/// there is none.
fn push_group(
    text: &mut String,
    groups: &[Vec<u32>],
    levels: &[Level],
    place: usize,
) -> Result<(), AllocError>
    requires one_level_each { length levels.now ≡ length groups.now }
    requires inhabited { All (λ members. 0 < length members) (lists_of groups.now) }
    requires within { place ≤ length groups.now }
    ensures { OnOk result (string_bytes text.new
        ≡ string_bytes text.old ++ (codes "," ++ group_fields (lists_of groups.now) levels.now place)) }
{
    if place == 0 {
        text.push_str(",\"group\":null,\"height\":null,\"recursive\":null")?;
        return Ok(());
    }
    let least = least_at(groups, place - 1);
    push_level(text, least, levels[place - 1])
}

/// Adds the beginning of the line of a predicate: what kind of line it is, its number and its name.
fn push_predicate_head(text: &mut String, node: u32, name: NameView<'_>) -> Result<(), AllocError>
    ensures { OnOk result (string_bytes text.new ≡ string_bytes text.old ++ predicate_head node (see_name name.entry)) }
{
    text.push_str("{\"is\":\"predicate\",\"id\":")?;
    push_number(text, u64::from(node))?;
    push_name(text, name.module, name.name, name.arity)?;
    Ok(())
}

/// Adds the line of the predicate with that number up to its group.
fn push_named(
    text: &mut String,
    groups: &[Vec<u32>],
    levels: &[Level],
    node: u32,
    name: NameView<'_>,
    place: usize,
) -> Result<(), AllocError>
    requires one_level_each { length levels.now ≡ length groups.now }
    requires inhabited { All (λ members. 0 < length members) (lists_of groups.now) }
    requires within { place ≤ length groups.now }
    ensures { OnOk result (string_bytes text.new ≡ string_bytes text.old
        ++ (predicate_head node (see_name name.entry) ++ (codes "," ++ group_fields (lists_of groups.now) levels.now place))) }
{
    push_predicate_head(text, node, name)?;
    push_group(text, groups, levels, place)?;
    Ok(())
}

/// Adds the line of the predicate with that number, at which this is marked. Its group has the index
/// `place` - 1, and it has none if `place` is 0.
pub fn push_predicate_line(
    text: &mut String,
    program: &Program,
    groups: &[Vec<u32>],
    levels: &[Level],
    node: u32,
    place: usize,
    marks: NodeMarks,
) -> Result<(), AllocError>
    requires node { node < length program.now.predicates }
    requires one_level_each { length levels.now ≡ length groups.now }
    requires inhabited { All (λ members. 0 < length members) (lists_of groups.now) }
    requires within { place ≤ length groups.now }
    ensures { OnOk result (string_bytes text.new
        ≡ string_bytes text.old ++ predicate_line_of program.now (lists_of groups.now) levels.now node place marks) }
{
    push_named(text, groups, levels, node, program.name_of(node), place)?;
    push_marks(text, marks, program.meta_of(node))?;
    Ok(())
}
