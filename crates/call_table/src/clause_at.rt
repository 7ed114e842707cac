//! The clauses of predicates, each with its position.

ghost use Rattle.std.specs.Prelude.{◌≡◌, ◌<◌, ◌++◌, All, length, map, IfOk, OnOk};
ghost use Rattle.std.specs.List.{flat_map};
ghost use Rattle.file_library.specs.Spots.{AreSpots};
ghost use Rattle.call_table.specs.Clauses.{AreClausesOf, clause_at, clauses_in};
ghost use Rattle.call_table.specs.Table.{clause_end, clause_spot};
ghost use Rattle.clause_text.specs.Clauses.{clause_trees};

use clause_text::Clause;
use import_rules::Program;
use prolog_names::Names;
use std::alloc::{AllocError, Global};

/// Where a clause starts and ends, in whatever brackets it is: the index of its file among the
/// files, and the byte offsets there; and the number of its predicate. The end is directly after its
/// last character. Clauses are ordered by these fields in this order.
#[derive(Clone, Copy, Debug, PartialEq, Eq, PartialOrd, Ord)]
pub struct ClauseAt {
    pub file: u32,
    pub offset: u32,
    pub end: u32,
    pub node: u32,
}

/// Adds the positions of these clauses, whose names are numbers in `names`.
fn push_clauses(
    file: u32,
    node: u32,
    names: &Names,
    clauses: &[Clause],
    out: &mut Vec<ClauseAt>,
) -> Result<(), AllocError>
    ensures { OnOk result (out.new.items ≡ out.old.items ++ map (clause_at file node) (clause_trees names.now clauses.now)) }
{
    for clause in clauses {
        let span = clause.span(names);
        out.push(ClauseAt {
            file,
            offset: span.from,
            end: span.to,
            node,
        })?;
    }
    Ok(())
}

/// Adds the positions of the clauses of a predicate.
fn push_clauses_of(program: &Program, node: u32, out: &mut Vec<ClauseAt>) -> Result<(), AllocError>
    requires { node < length program.now.predicates }
    ensures { OnOk result (out.new.items ≡ out.old.items ++ clauses_in program.now node) }
{
    let files = &program.loaded().files;
    for place in program.places_of(node) {
        let file = &files[place.0 as usize];
        let predicate = &file.defined[place.1 as usize];
        let clauses = predicate.clauses.as_slice();
        push_clauses(place.0, node, &file.names, clauses, out)?;
    }
    Ok(())
}

/// The positions of the clauses of these predicates, in the order of the predicates.
fn clauses_from(
    alloc: Global,
    program: &Program,
    nodes: &[u32],
) -> Result<Vec<ClauseAt>, AllocError>
    requires { All (λ p. p < length program.now.predicates) nodes.now }
    ensures { IfOk result (λ clauses. clauses.items ≡ flat_map (clauses_in program.now) nodes.now) }
{
    let mut out = Vec::new(alloc);
    for node in nodes {
        push_clauses_of(program, *node, &mut out)?;
    }
    Ok(out)
}

/// All clauses of these predicates, in order of file and offset, each once. Their ends are in this
/// order too, since clauses of a file don't overlap.
pub fn clauses_of(
    alloc: Global,
    program: &Program,
    nodes: &[u32],
) -> Result<Vec<ClauseAt>, AllocError>
    requires { All (λ p. p < length program.now.predicates) nodes.now }
    ensures clauses { IfOk result (λ clauses. AreClausesOf program.now nodes.now clauses.items) }
    ensures starts { IfOk result (λ clauses. AreSpots program.now.loaded.texts (map clause_spot clauses.items)) }
    ensures ends { IfOk result (λ clauses. AreSpots program.now.loaded.texts (map clause_end clauses.items)) }
{
    program.is_known();
    program.clauses_apart();
    let mut clauses = clauses_from(alloc, program, nodes)?;
    clauses.sort_unstable();
    clauses.dedup();
    Ok(clauses)
}
