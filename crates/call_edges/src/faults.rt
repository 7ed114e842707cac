//! Spots of goals that aren't callable: pairs of the index of a file and a byte offset.

ghost use Rattle.std.specs.Prelude.{◌≡◌, ℕ, All, Contains, map, IfOk, OnOk};
ghost use Rattle.call_edges.specs.Goals.{Adds, fault};
ghost use Rattle.call_edges.specs.ProgramRows.{rows_of};
ghost use Rattle.call_edges.specs.Seen.{see_met, see_mets};
ghost use Rattle.call_edges.specs.Bodies.{see_body, goals_in, IsLight};
ghost use Rattle.call_edges.specs.FaultPlaces.{fault_at, AreFaultsIn};

use crate::body::{Body, goals_of};
use crate::role::Met;
use crate::walk_body::walk_body;
use import_rules::Program;
use std::alloc::{AllocError, Global};

/// The offset, if it is that of a goal that isn't callable.
fn fault_at(met: Met) -> Option<u32>
    ensures { result ≡ fault_at (see_met met.entry) }
{
    match met {
        Met::Call { .. } => None,
        Met::Fault(at) => Some(at),
    }
}

/// Adds the spots of goals that aren't callable.
pub fn push_places(file: u32, met: &[Met], places: &mut Vec<(u32, u32)>) -> Result<(), AllocError>
    ensures { OnOk result (Adds (λ (p : ℕ × ℕ). (p.0 ≡ file) × Contains (see_mets met.now) (fault p.1)) places.old.items places.new.items) }
{
    for one in met {
        let Some(at) = fault_at(*one) else {
            continue;
        };
        places.push((file, at))?;
    }
    Ok(())
}

/// The spots of goals in bodies that aren't callable.
fn faults_in(
    alloc: Global,
    program: &Program,
    bodies: &[Body],
) -> Result<Vec<(u32, u32)>, AllocError>
    requires { All IsLight (map see_body bodies.now) }
    ensures { IfOk result (λ faults. AreFaultsIn (rows_of program.now) (map see_body bodies.now) faults.items) }
{
    let mut met = Vec::new(alloc);
    let mut faults = Vec::new(alloc);
    for body in bodies {
        met.clear();
        walk_body(alloc, program, body, &mut met)?;
        push_places(body.file, &met, &mut faults)?;
    }
    Ok(faults)
}

/// The spots of goals of directives that aren't callable.
pub fn directive_faults(alloc: Global, program: &Program) -> Result<Vec<(u32, u32)>, AllocError>
    ensures { IfOk result (λ faults. AreFaultsIn (rows_of program.now) (goals_in program.now.loaded.files) faults.items) }
{
    program.is_known();
    let bodies = goals_of(alloc, program)?;
    faults_in(alloc, program, &bodies)
}
