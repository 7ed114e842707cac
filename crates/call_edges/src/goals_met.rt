//! The goals in the clauses of a predicate.

ghost use Rattle.std.specs.Prelude.{◌≡◌, ◌<◌, ◌↔◌, All, Contains, length, map, IfOk, OnOk};
ghost use Rattle.call_edges.specs.Goals.{Adds, Met as Seen};
ghost use Rattle.call_edges.specs.Meant.{AreMeant};
ghost use Rattle.call_edges.specs.ProgramRows.{rows_of};
ghost use Rattle.call_edges.specs.Seen.{see_mets};
ghost use Rattle.call_edges.specs.Calls.{IsAmong, IsMetIn};
ghost use Rattle.call_edges.specs.Bodies.{see_body, IsLight, IsMetInBody};

use crate::body::{Body, bodies_of};
use crate::role::Met;
use crate::walk_body::walk_body;
use import_rules::Program;
use std::alloc::{AllocError, Global};

/// Adds the goals that occur in bodies, body by body.
fn push_met<'a>(
    alloc: Global,
    program: &'a Program,
    bodies: &[Body<'a>],
    met: &mut Vec<Met<'a>>,
) -> Result<(), AllocError>
    requires { All IsLight (map see_body bodies.now) }
    ensures met { OnOk result (Adds (IsAmong (IsMetInBody (rows_of program.now)) (map see_body bodies.now))
        (see_mets met.old.items) (see_mets met.new.items)) }
    ensures meant { OnOk result (AreMeant program.now met.old.items → AreMeant program.now met.new.items) }
{
    for body in bodies {
        walk_body(alloc, program, body, met)?;
    }
    Ok(())
}

/// The goals in the clauses of the predicate with that number, clause by clause: its calls, and the
/// goals that aren't callable.
///
/// A call has the name that is written there, and what it means if that was looked up.
pub fn met_in<'a>(
    alloc: Global,
    program: &'a Program,
    node: u32,
) -> Result<Vec<Met<'a>>, AllocError>
    requires { node < length program.now.predicates }
    ensures met { IfOk result (λ met. (m : Seen) → Contains (see_mets met.items) m ↔ IsMetIn program.now node m) }
    ensures meant { IfOk result (λ met. AreMeant program.now met.items) }
{
    program.is_known();
    let bodies = bodies_of(alloc, program, node)?;
    let mut met = Vec::new(alloc);
    push_met(alloc, program, &bodies, &mut met)?;
    Ok(met)
}
