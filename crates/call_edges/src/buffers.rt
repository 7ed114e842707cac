//! What is found in the clauses of one predicate.

ghost use Rattle.std.specs.Prelude.{◌≡◌, ◌<◌, ◌↔◌, true, All, Contains, length, map, OnOk};
ghost use Rattle.call_edges.specs.ProgramRows.{rows_of};
ghost use Rattle.call_edges.specs.Goals.{Adds};
ghost use Rattle.call_edges.specs.Calls.{GoesTo, IsAmong};
ghost use Rattle.call_edges.specs.Bodies.{see_body, bodies_in, IsAtHome, IsLight, IsMetInBody};
ghost use Rattle.call_edges.specs.FaultPlaces.{IsFaultIn};
ghost use Rattle.call_edges.specs.CallLists.{IsOpened};
ghost use Rattle.call_edges.specs.CallPlaces.{CallAt, IsCalledIn, IsCallOf};
ghost use Rattle.call_edges.specs.PlacedSeen.{see_calls};

use crate::body::{Body, push_bodies_of};
use crate::faults::push_places;
use crate::found::{Found, Opening, push_found};
use crate::role::Met;
use crate::walk_body::walk_body_home;
use import_rules::Program;
use std::alloc::{AllocError, Global};

/// Buffers that are used for one predicate after another.
#[derive(Drop)]
pub struct Buffers<'a> {
    bodies: Vec<Body<'a>>,
    met: Vec<Met<'a>>,
}

impl<'a> Buffers<'a> {
    /// Empty lists. They take no memory.
    pub fn new(alloc: Global) -> Buffers<'a> {
        Buffers {
            bodies: Vec::new(alloc),
            met: Vec::new(alloc),
        }
    }
}

/// Adds what bodies of the predicate call, in their order, and the spots of goals in them that
/// aren't callable.
fn found_in<'a>(
    alloc: Global,
    program: &'a Program,
    opening: Opening,
    bodies: &[Body<'a>],
    met: &mut Vec<Met<'a>>,
    found: &mut Found<'a>,
    faults: &mut Vec<(u32, u32)>,
) -> Result<(), AllocError>
    requires light { All IsLight (map see_body bodies.now) }
    requires home { All (IsAtHome program.now) bodies.now }
    ensures callees { OnOk result (Adds
        (GoesTo program.now (IsAmong (IsMetInBody (rows_of program.now)) (map see_body bodies.now)))
        found.old.callees.items found.new.callees.items) }
    ensures calls { OnOk result (opening.keep ≡ true → Adds (IsAmong (IsCalledIn program.now opening.node) (map see_body bodies.now))
        (see_calls found.old.calls.items) (see_calls found.new.calls.items)) }
    ensures faults { OnOk result (Adds (IsAmong (IsFaultIn (rows_of program.now)) (map see_body bodies.now)) faults.old.items faults.new.items) }
{
    for body in bodies {
        met.clear();
        walk_body_home(alloc, body, met)?;
        push_found(program, opening, body.file, met, found)?;
        push_places(body.file, met, faults)?;
    }
    Ok(())
}

/// What is found in the clauses of a predicate, by one walk. `found.callees` is what it calls,
/// strictly ascending, and `found.calls` are its calls if they are recorded. The spots of its goals
/// that aren't callable are added to `faults`.
pub fn open<'a>(
    alloc: Global,
    program: &'a Program,
    opening: Opening,
    buffers: &mut Buffers<'a>,
    found: &mut Found<'a>,
    faults: &mut Vec<(u32, u32)>,
) -> Result<(), AllocError>
    requires { opening.node < length program.now.predicates }
    ensures callees { OnOk result (IsOpened program.now opening.node found.new.callees.items) }
    ensures calls { OnOk result (opening.keep ≡ true → (c : CallAt)
        → Contains (see_calls found.new.calls.items) c ↔ IsCallOf program.now opening.node c) }
    ensures faults { OnOk result (Adds (IsAmong (IsFaultIn (rows_of program.now)) (bodies_in program.now opening.node))
        faults.old.items faults.new.items) }
{
    program.is_known();
    found.callees.clear();
    found.calls.clear();
    buffers.bodies.clear();
    push_bodies_of(program, opening.node, &mut buffers.bodies)?;
    found_in(
        alloc,
        program,
        opening,
        &buffers.bodies,
        &mut buffers.met,
        found,
        faults,
    )?;
    found.callees.sort_unstable();
    found.callees.dedup();
    Ok(())
}
