//! Predicates in the order in which they are in the files.

ghost use Rattle.std.specs.Prelude.{◌≡◌, ◌<◌, All, length, map, IfOk};
ghost use Rattle.std.specs.List.{flat_map};
ghost use Rattle.std.specs.List.Sorted.{IsNonDecreasingBy, IsPermutation};
ghost use Rattle.clause_text.specs.Clauses.{clause_trees};
ghost use Rattle.call_edges.specs.FileOrder.{AreStarts, first_offset, node_of, see_start, start_in, start_place};

use crate::join_lists::join_lists;
use clause_text::Clause;
use import_rules::Program;
use prolog_names::Names;
use rayon::prelude::*;
use std::alloc::{AllocError, Global};
use std::thread::Threads;

/// How many predicates are handled in sequence. Only the last stretch has fewer.
const SIZE: usize = 1_024;

/// How few stretches are worth a thread of their own.
const FEWEST: usize = 1;

/// A predicate, by its number, and a number that ascends with the position of its first clause.
#[derive(Clone, Copy)]
pub struct Start {
    pub place: u64,
    pub node: u32,
}

/// The offset at which the first of the clauses starts, or 0 if there is none.
fn first_offset(names: &Names, clauses: &[Clause]) -> u32
    ensures { result ≡ first_offset (clause_trees names.now clauses.now) }
{
    match clauses.first() {
        Some(clause) => clause.start(names),
        None => 0,
    }
}

/// A number that ascends with the position of the first clause of a predicate: by file, then by
/// offset.
fn first_place(program: &Program, node: u32) -> u64
    requires { node < length program.now.predicates }
    ensures { result ≡ start_place program.now node }
{
    let Some(place) = program.places_of(node).first() else {
        return 0;
    };
    let file = &program.loaded().files[place.0 as usize];
    let predicate = &file.defined[place.1 as usize];
    let offset = first_offset(&file.names, predicate.clauses.as_slice());
    u64::from(place.0) * 4_294_967_296 + u64::from(offset)
}

/// These predicates, with their positions.
fn starts_from(alloc: Global, program: &Program, nodes: &[u32]) -> Result<Vec<Start>, AllocError>
    requires { All (λ p. p < length program.now.predicates) nodes.now }
    ensures { IfOk result (λ starts. AreStarts program.now nodes.now starts.items) }
{
    let mut starts = Vec::with_capacity(alloc, nodes.len())?;
    for node in nodes {
        starts.push(Start {
            place: first_place(program, *node),
            node: *node,
        })?;
    }
    Ok(starts)
}

/// Each stretch of these predicates, with their positions. The stretches are handled in parallel.
fn starts_of_each<R: Threads + Sync>(
    rt: &R,
    alloc: Global,
    program: &Program,
    nodes: &[u32],
) -> Result<Vec<Vec<Start>>, AllocError>
    requires { All (λ p. p < length program.now.predicates) nodes.now }
    ensures { IfOk result (λ each. AreStarts program.now nodes.now (flat_map (λ list. list.items) each.items)) }
{
    nodes
        .par_chunks(SIZE)
        .with_min_len(FEWEST)
        .map(
            |part: &[u32]| -> Result<Vec<Start>, AllocError>
                requires { All (λ p. p < length program.now.predicates) part.now }
                ensures { IfOk result (λ starts. AreStarts program.entry.now part.now starts.items) }
            { starts_from(alloc, program, part) },
        )
        .collect::<Result<Vec<Vec<Start>>, AllocError>>(rt, alloc)?
}

/// These predicates, sorted by the positions of their first clauses.
fn starts_in_order<R: Threads + Sync>(
    rt: &R,
    alloc: Global,
    program: &Program,
    nodes: &[u32],
) -> Result<Vec<Start>, AllocError>
    requires { All (λ p. p < length program.now.predicates) nodes.now }
    ensures starts { IfOk result (λ starts. IsPermutation (map (start_in program.now) nodes.now) (map see_start starts.items)) }
    ensures ascending { IfOk result (λ starts. IsNonDecreasingBy (λ s. s.place) starts.items) }
{
    let each = starts_of_each(rt, alloc, program, nodes)?;
    let mut starts = join_lists(alloc, &each)?;
    par_sort_unstable_by_key(
        rt,
        &mut starts,
        |one: &Start| -> u64
            ensures { result ≡ one.now.place }
        { one.place },
    );
    Ok(starts)
}

fn nodes_of(alloc: Global, starts: &[Start]) -> Result<Vec<u32>, AllocError>
    ensures { IfOk result (λ nodes. nodes.items ≡ map node_of starts.now) }
{
    starts.iter().map(|one| one.node).collect(alloc)
}

/// The same predicates, each as often, sorted by file and then by the positions of their first
/// clauses.
pub fn in_file_order<R: Threads + Sync>(
    rt: &R,
    alloc: Global,
    program: &Program,
    nodes: &[u32],
) -> Result<Vec<u32>, AllocError>
    requires { All (λ p. p < length program.now.predicates) nodes.now }
    ensures same { IfOk result (λ order. IsPermutation nodes.now order.items) }
    ensures in_order { IfOk result (λ order. IsNonDecreasingBy (start_place program.now) order.items) }
{
    let starts = starts_in_order(rt, alloc, program, nodes)?;
    let order = nodes_of(alloc, &starts)?;
    Ok(order)
}
