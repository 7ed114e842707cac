//! All calls of goals of directives, each with the position of its goal.

ghost use Rattle.std.specs.Prelude.{All, Contains, IfOk, OnOk, map};
ghost use Rattle.file_library.specs.Spots.{StandsInText};
ghost use Rattle.call_edges.specs.Bodies.{IsLight, see_body};
ghost use Rattle.call_edges.specs.CallPlaces.{CallAt, IsCallBy, IsCalledIn};
ghost use Rattle.call_edges.specs.Calls.{IsAmong};
ghost use Rattle.call_edges.specs.DirectiveCalls.{AreDirectiveCalls, no_caller};
ghost use Rattle.call_edges.specs.Goals.{Adds};
ghost use Rattle.call_edges.specs.Meant.{AreMeant};
ghost use Rattle.call_edges.specs.PlacedSeen.{see_calls};
ghost use Rattle.call_edges.specs.Seen.{see_mets};

use crate::body::{Body, goals_of};
use crate::calls::target;
use crate::placed_calls::{PlacedCall, push_call};
use crate::role::Met;
use crate::walk_body::walk_body;
use import_rules::Program;
use std::alloc::{AllocError, Global};

/// Adds the calls among these goals of a file.
fn push_calls_met<'a>(
    program: &Program,
    file: u32,
    met: &[Met<'a>],
    calls: &mut Vec<PlacedCall<'a>>,
) -> Result<(), AllocError>
    requires { AreMeant program.now met.now }
    ensures { OnOk result (Adds (IsCallBy program.now file no_caller (Contains (see_mets met.now)))
        (see_calls calls.old.items) (see_calls calls.new.items)) }
{
    for one in met {
        let callee = target(program, file, *one);
        push_call(true, callee, file, 0, *one, calls)?;
    }
    Ok(())
}

/// Adds the calls in these goals of directives.
fn push_calls_in<'a>(
    program: &'a Program,
    goals: &[Body<'a>],
    calls: &mut Vec<PlacedCall<'a>>,
) -> Result<(), AllocError>
    requires { All IsLight (map see_body goals.now) }
    ensures { OnOk result (Adds (IsAmong (IsCalledIn program.now no_caller) (map see_body goals.now))
        (see_calls calls.old.items) (see_calls calls.new.items)) }
{
    let alloc = *calls.allocator();
    let mut met = Vec::new(alloc);
    for body in goals {
        met.clear();
        walk_body(alloc, program, body, &mut met)?;
        push_calls_met(program, body.file, &met, calls)?;
    }
    Ok(())
}

/// All calls of goals of directives, by file and offset and each once. They have no caller: the
/// field `caller` of each is 0. Each goal is walked, and each name is looked up.
pub fn directive_calls<'a>(
    alloc: Global,
    program: &'a Program,
) -> Result<Vec<PlacedCall<'a>>, AllocError>
    ensures calls { IfOk result (λ calls. AreDirectiveCalls program.now (see_calls calls.items)) }
    ensures stand { IfOk result (λ calls. All (λ (c : CallAt). StandsInText program.now.loaded.texts c.file c.offset)
        (see_calls calls.items)) }
{
    program.is_known();
    let goals = goals_of(alloc, program)?;
    let mut calls = Vec::new(alloc);
    push_calls_in(program, &goals, &mut calls)?;
    // Mostly they are in order already, which takes one comparison for each.
    calls.sort_unstable();
    calls.dedup();
    Ok(calls)
}
