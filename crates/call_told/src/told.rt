//! What is listed of a program, except its clauses and calls: predicates, and the groups of what
//! the roots reach.

ghost use Rattle.std.specs.Prelude.{◌≡◌, ◌<◌, ◌==◌, ◌||◌, All, IfOk, is_some, length, not};
ghost use Rattle.call_edges.specs.Successors.{successor_lists};
ghost use Rattle.call_table.specs.Marks.{AreMarked, see_marks};
ghost use Rattle.call_table.specs.Reached.{AreNodes};
ghost use Rattle.report_lines.specs.Reportable.{AreLeveled};
ghost use Rattle.call_told.specs.Told.{IsTold, MarkedIs, ToldIs, told_nodes};
ghost use Rattle.call_told.specs.Wanted.{see_wanted};
ghost use Rattle.call_told.specs.declared.told.Told.{Told as ToldHere};
ghost use Rattle.graph_law.specs.Graph.{Calls as ListCalls, lists_of};

use crate::wanted::Wanted;
use call_edges::CallLists;
use call_table::{Marks, Reached, groups_from, groups_of, make_marks};
use group_release::Level;
use import_rules::Program;
use std::alloc::{AllocError, Global};

/// The predicates that are listed, ascending; the groups of what the roots reach, with their
/// levels; for each predicate of the program one more than the index of its group, or 0 if it is in
/// none; and what is marked at it.
#[derive(Drop)]
pub struct Told<'a> {
    pub program: &'a Program,
    pub nodes: Vec<u32>,
    pub groups: Vec<Vec<u32>>,
    pub levels: Vec<Level>,
    pub places: Vec<usize>,
    pub marks: Marks,
}

/// Whether a predicate is listed: it is in a group, or all are asked for.
fn is_told(place: usize, all: bool) -> bool
    ensures { result ≡ (all || not (place == 0)) }
{
    if all {
        return true;
    }
    place != 0
}

/// The predicates that are in a group, or all of them.
fn told_nodes(
    alloc: Global,
    places: &[usize],
    count: u32,
    all: bool,
) -> Result<Vec<u32>, AllocError>
    requires { length places.now ≡ count }
    ensures nodes { IfOk result (λ nodes. nodes.items ≡ told_nodes count places.now all) }
    ensures below { IfOk result (λ nodes. All (λ p. p < count) nodes.items) }
{
    let mut nodes = Vec::new(alloc);
    for node in 0..count {
        if !is_told(places[node as usize], all) {
            continue;
        }
        nodes.push(node)?;
    }
    Ok(nodes)
}

/// What is listed of a program with these calls, if reachability begins at these roots.
pub fn make_told<'a>(
    alloc: Global,
    wanted: &Wanted,
    program: &'a Program,
    calls: &CallLists<'_>,
    roots: &[u32],
) -> Result<Told<'a>, AllocError>
    requires calls { calls.now ≡ program.now }
    requires below { All (λ q. q < length program.now.predicates) roots.now }
    ensures told { IfOk result IsTold }
    ensures same { IfOk result (λ (told : ToldHere). told.program.now ≡ program.now) }
    ensures is { IfOk result (ToldIs (see_wanted wanted.now) roots.now) }
    ensures marked { IfOk result (MarkedIs (see_wanted wanted.now) roots.now) }
{
    let found = groups_from(alloc, program, calls, roots)?;
    let marks = make_marks(alloc, program, wanted.options.roots.is_some(), roots)?;
    let told = told_of(alloc, wanted, program, roots, found, marks)?;
    Ok(told)
}

/// What is listed of a program with these groups and marks. If all predicates are asked for, those in no
/// group are listed too.
fn told_of<'a>(
    alloc: Global,
    wanted: &Wanted,
    program: &'a Program,
    roots: &[u32],
    found: Reached,
    marks: Marks,
) -> Result<Told<'a>, AllocError>
    requires leveled { AreLeveled (ListCalls (successor_lists program.now)) roots.now (lists_of found.groups.items) found.levels.items }
    requires nodes { AreNodes (length program.now.predicates) (lists_of found.groups.items) }
    requires levels { length found.levels.items ≡ length found.groups.items }
    requires marks { AreMarked (is_some (see_wanted wanted.now).settings.roots) program.now roots.now (see_marks marks) }
    ensures told { IfOk result IsTold }
    ensures same { IfOk result (λ (told : ToldHere). told.program.now ≡ program.now) }
    ensures is { IfOk result (ToldIs (see_wanted wanted.now) roots.now) }
    ensures marked { IfOk result (MarkedIs (see_wanted wanted.now) roots.now) }
{
    let _roots = roots;
    let Reached { groups, levels } = found;
    let places = groups_of(alloc, program.count(), &groups)?;
    let nodes = told_nodes(alloc, &places, program.count(), wanted.options.unreached)?;
    Ok(Told {
        program,
        nodes,
        groups,
        levels,
        places,
        marks,
    })
}
