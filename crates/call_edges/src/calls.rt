//! The call graph of a program, which is computed node by node.

ghost use Rattle.std.specs.Prelude.{◌≡◌, ◌<◌, ◌↔◌, ℕ, [], All, Contains, length, map, OnOk, OnErr};
ghost use Rattle.std.specs.List.Sorted.{IsStrictlyIncreasing};
ghost use Rattle.call_edges.specs.Goals.{Adds};
ghost use Rattle.call_edges.specs.Meant.{AreMeant, IsMeant};
ghost use Rattle.call_edges.specs.ProgramRows.{rows_of};
ghost use Rattle.call_edges.specs.Seen.{see_met, see_mets};
ghost use Rattle.call_edges.specs.Calls.{GoesTo, IsAmong, NodeCalls, target};
ghost use Rattle.call_edges.specs.Bodies.{see_body, IsMetInBody, IsLight};

use crate::body::{Body, bodies_of};
use crate::role::{Meant, Met};
use crate::walk_body::walk_body;
use graph_law::Opener;
use import_rules::Program;
use std::alloc::AllocError;
use std::marker::Model;

/// The predicate that a call in that file goes to. Its name is looked up if it wasn't yet.
pub fn target(program: &Program, file: u32, met: Met) -> Option<u32>
    requires { IsMeant program.now met }
    ensures { result ≡ target program.now (see_met met.entry) }
{
    let Met::Call {
        module,
        name,
        number,
        arity,
        meant,
        ..
    } = met
    else {
        return None;
    };
    match meant {
        Meant::Unasked => program.find_numbered(file, number, module, name, arity),
        Meant::Predicate(node) => Some(node),
        Meant::Nothing => None,
    }
}

/// Adds the predicates that the calls among these goals of a file go to.
pub fn push_targets(
    program: &Program,
    file: u32,
    met: &[Met],
    out: &mut Vec<u32>,
) -> Result<(), AllocError>
    requires { AreMeant program.now met.now }
    ensures { OnOk result (Adds (GoesTo program.now (Contains (see_mets met.now))) out.old.items out.new.items) }
{
    for one in met {
        let Some(callee) = target(program, file, *one) else {
            continue;
        };
        out.push(callee)?;
    }
    Ok(())
}

/// Adds the predicates that are called in bodies.
pub fn push_called<'a>(
    program: &'a Program,
    bodies: &[Body<'a>],
    out: &mut Vec<u32>,
) -> Result<(), AllocError>
    requires { All IsLight (map see_body bodies.now) }
    ensures { OnOk result (Adds
        (GoesTo program.now (IsAmong (IsMetInBody (rows_of program.now)) (map see_body bodies.now)))
        out.old.items out.new.items) }
{
    let alloc = *out.allocator();
    let mut met = Vec::new(alloc);
    for body in bodies {
        met.clear();
        walk_body(alloc, program, body, &mut met)?;
        push_targets(program, body.file, &met, out)?;
    }
    Ok(())
}

/// Adds the predicates that a predicate calls to `out`, which is empty.
fn push_callees(program: &Program, node: u32, out: &mut Vec<u32>) -> Result<(), AllocError>
    requires below { node < length program.now.predicates }
    requires empty { out.old.items ≡ [] }
    ensures { OnOk result ((q : ℕ) → Contains out.new.items q ↔ NodeCalls program.now node q) }
{
    program.is_known();
    let bodies = bodies_of(*out.allocator(), program, node)?;
    push_called(program, &bodies, out)
}

/// Puts the predicates that a predicate calls into `out`, which is empty, strictly ascending. If
/// memory runs out, `out` stays empty.
fn callees(program: &Program, node: u32, out: &mut Vec<u32>) -> Result<(), AllocError>
    requires below { node < length program.now.predicates }
    requires empty { out.old.items ≡ [] }
    ensures ascending { OnOk result (IsStrictlyIncreasing out.new.items) }
    ensures calls { OnOk result ((q : ℕ) → Contains out.new.items q ↔ NodeCalls program.now node q) }
    ensures err { OnErr result (out.new.items ≡ []) }
{
    match push_callees(program, node, out) {
        Ok(()) => {
            out.sort_unstable();
            out.dedup();
            Ok(())
        }
        Err(error) => {
            out.clear();
            Err(error)
        }
    }
}

/// The call graph of a program: its nodes are the numbers of the predicates. Expanding a node walks
/// the clauses of the predicate. Contracts see it as the program.
#[derive(Drop)]
pub struct Calls<'a> {
    program: &'a Program,
}

impl<'a> Model for Calls<'a> {
    ghost use Rattle.import_rules.specs.Program.{Seen};
    ghost use Rattle.import_rules.specs.contracts.program.Program.{the_row};

    ghost Value = { Seen };

    ghost coded = { the_row.coded };

    ghost view = { λ calls. calls.program.now };
}

impl<'a> Calls<'a> {
    /// The call graph of this program. It takes no memory.
    pub fn new(program: &'a Program) -> Calls<'a>
        ensures { result ≡ program.now }
    {
        Calls { program }
    }
}

impl Opener for Calls<'_> {
    ghost use Rattle.call_edges.specs.Successors.{successor_lists};

    ghost lists = { successor_lists };

    fn count(&self) -> u32 {
        self.program.count()
    }

    fn expand(&self, node: u32, out: &mut Vec<u32>) -> Result<(), AllocError> {
        callees(self.program, node, out)
    }
}
