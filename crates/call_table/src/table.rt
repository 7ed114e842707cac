//! The table of a program's calls.

ghost use Rattle.std.specs.Prelude.{◌≡◌, ◌<◌, All, IfOk, length, map};
ghost use Rattle.call_table.specs.Table.{ArePlacedCalls, ArePlacedClauses, IsTable, kept_spot};
ghost use Rattle.graph_law.specs.Graph.{lists_of};

use crate::clause_at::{ClauseAt, clauses_of};
use crate::extents::{Extent, extents_of};
use crate::memberships::groups_of;
use call_edges::{PlacedCall, PlacedCallLists, calls_of, in_file_order};
use import_rules::Program;
use prolog_tokens::Place;
use std::alloc::{AllocError, Global};
use std::thread;
use std::thread::Threads;

/// The clauses and the calls of predicates with their positions, and the group of each predicate of
/// the program.
#[derive(Drop)]
pub struct CallTable<'a> {
    /// In order of file and offset.
    pub clauses: Vec<ClauseAt>,
    /// For each clause the lines and columns at which it starts and ends.
    pub clause_extents: Vec<Extent>,
    /// In order of file and offset.
    pub calls: Vec<PlacedCall<'a>>,
    /// For each call the line and the column at which its goal starts.
    pub call_places: Vec<Place>,
    /// For each predicate of the program one more than the index of its group, or 0 if it is in
    /// none.
    pub groups: Vec<usize>,
}

/// Where the goals of these calls start: the index of the file, and the offset.
pub(crate) fn call_spots(
    alloc: Global,
    calls: &[PlacedCall<'_>],
) -> Result<Vec<(u32, u32)>, AllocError>
    ensures { IfOk result (λ spots. spots.items ≡ map kept_spot calls.now) }
{
    calls
        .iter()
        .map(|call| (call.named.file, call.named.offset))
        .collect(alloc)
}

/// The clauses of these predicates, and the lines and columns of each.
fn clauses_with_extents(
    alloc: Global,
    program: &Program,
    nodes: &[u32],
) -> Result<(Vec<ClauseAt>, Vec<Extent>), AllocError>
    requires { All (λ p. p < length program.now.predicates) nodes.now }
    ensures { IfOk result (λ found. ArePlacedClauses program.now nodes.now found.0.items found.1.items) }
{
    let clauses = clauses_of(alloc, program, nodes)?;
    let extents = extents_of(alloc, program, &clauses)?;
    Ok((clauses, extents))
}

/// The calls of these predicates, and the line and the column of each.
fn calls_with_places<'a>(
    alloc: Global,
    lists: &PlacedCallLists<'a>,
    nodes: &[u32],
) -> Result<(Vec<PlacedCall<'a>>, Vec<Place>), AllocError>
    requires { All (λ p. p < length lists.now.predicates) nodes.now }
    ensures { IfOk result (λ found. ArePlacedCalls lists.now nodes.now found.0.items found.1.items) }
{
    let calls = calls_of(alloc, lists, nodes)?;
    let spots = call_spots(alloc, &calls)?;
    let places = lists.program().places_of_spots(alloc, &spots)?;
    Ok((calls, places))
}

/// The clauses of these predicates with their lines and columns, and their calls with theirs. Both
/// are collected in parallel. A thread takes address space that the other one then lacks, so what
/// ran out of memory is collected once more after the threads have ended.
fn clauses_beside_calls<'a, R: Threads + Sync>(
    rt: &R,
    alloc: Global,
    lists: &PlacedCallLists<'a>,
    nodes: &[u32],
) -> Result<(Vec<ClauseAt>, Vec<Extent>, Vec<PlacedCall<'a>>, Vec<Place>), AllocError>
    requires below { All (λ p. p < length lists.now.predicates) nodes.now }
    ensures clauses { IfOk result (λ found. ArePlacedClauses lists.now nodes.now found.0.items found.1.items) }
    ensures calls { IfOk result (λ found. ArePlacedCalls lists.now nodes.now found.2.items found.3.items) }
{
    let (clauses, calls) = thread::join_mut(
        rt,
        &mut || -> Result<(Vec<ClauseAt>, Vec<Extent>), AllocError>
            requires { All (λ p. p < length lists.now.predicates) nodes.now }
            ensures { IfOk result (λ found. ArePlacedClauses lists.entry.now nodes.entry.now found.0.items found.1.items) }
        { clauses_with_extents(alloc, lists.program(), nodes) },
        &mut || -> Result<(Vec<PlacedCall<'_>>, Vec<Place>), AllocError>
            requires { All (λ p. p < length lists.now.predicates) nodes.now }
            ensures { IfOk result (λ found. ArePlacedCalls lists.entry.now nodes.entry.now found.0.items found.1.items) }
        { calls_with_places(alloc, lists, nodes) },
    );
    let (clauses, clause_extents) = match clauses {
        Ok(found) => found,
        Err(_) => clauses_with_extents(alloc, lists.program(), nodes)?,
    };
    let (calls, call_places) = match calls {
        Ok(found) => found,
        Err(_) => calls_with_places(alloc, lists, nodes)?,
    };
    Ok((clauses, clause_extents, calls, call_places))
}

/// The table of these predicates, with these groups of the program's predicates.
///
/// Clauses and calls are collected predicate by predicate in the order of the files, so that they
/// are mostly sorted already. No body is walked, and no name is looked up. Fails only if memory
/// runs out.
pub fn call_table<'a, R: Threads + Sync>(
    rt: &R,
    alloc: Global,
    lists: &PlacedCallLists<'a>,
    nodes: &[u32],
    groups: &[Vec<u32>],
) -> Result<CallTable<'a>, AllocError>
    requires below { All (λ p. p < length lists.now.predicates) nodes.now }
    requires members { All (All (λ member. member < length lists.now.predicates)) (lists_of groups.now) }
    ensures { IfOk result (IsTable lists.now nodes.now (lists_of groups.now)) }
{
    let program = lists.program();
    let order = in_file_order(rt, alloc, program, nodes)?;
    let (clauses, clause_extents, calls, call_places) = clauses_beside_calls(
        rt, alloc, lists, &order,
    )?;
    let groups = groups_of(alloc, program.count(), groups)?;
    Ok(CallTable {
        clauses,
        clause_extents,
        calls,
        call_places,
        groups,
    })
}
