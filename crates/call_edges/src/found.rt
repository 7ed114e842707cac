//! What is found when a predicate is expanded.

ghost use Rattle.std.specs.Prelude.{◌≡◌, [], true, Contains, OnOk};
ghost use Rattle.call_edges.specs.CallPlaces.{IsCallBy};
ghost use Rattle.call_edges.specs.Calls.{GoesTo};
ghost use Rattle.call_edges.specs.Goals.{Adds};
ghost use Rattle.call_edges.specs.Meant.{AreMeant};
ghost use Rattle.call_edges.specs.PlacedSeen.{see_calls};
ghost use Rattle.call_edges.specs.Seen.{see_mets};

use crate::calls::target;
use crate::placed_calls::{PlacedCall, push_call};
use crate::role::Met;
use import_rules::Program;
use std::alloc::{AllocError, Global};

/// The predicate that is expanded, and whether its calls are recorded with the positions of their
/// goals.
#[derive(Clone, Copy)]
pub struct Opening {
    pub node: u32,
    pub keep: bool,
}

/// What a predicate calls: the numbers of the predicates, and its calls if they are recorded.
#[derive(Drop)]
pub struct Found<'a> {
    pub callees: Vec<u32>,
    pub calls: Vec<PlacedCall<'a>>,
}

impl<'a> Found<'a> {
    /// Empty lists. They take no memory.
    pub fn new(alloc: Global) -> Found<'a> {
        Found {
            callees: Vec::new(alloc),
            calls: Vec::new(alloc),
        }
    }
}

/// Adds the predicates that calls in a body of that file go to, and the calls if they are recorded.
/// Each name is looked up once for both.
pub fn push_found<'a>(
    program: &Program,
    opening: Opening,
    file: u32,
    met: &[Met<'a>],
    found: &mut Found<'a>,
) -> Result<(), AllocError>
    requires { AreMeant program.now met.now }
    ensures callees { OnOk result (Adds (GoesTo program.now (Contains (see_mets met.now))) found.old.callees.items found.new.callees.items) }
    ensures calls { OnOk result (opening.keep ≡ true → Adds (IsCallBy program.now file opening.node (Contains (see_mets met.now)))
        (see_calls found.old.calls.items) (see_calls found.new.calls.items)) }
{
    for one in met {
        let callee = target(program, file, *one);
        push_call(
            opening.keep,
            callee,
            file,
            opening.node,
            *one,
            &mut found.calls,
        )?;
        let Some(callee) = callee else {
            continue;
        };
        found.callees.push(callee)?;
    }
    Ok(())
}
