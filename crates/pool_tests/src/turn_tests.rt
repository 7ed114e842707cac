ghost use Rattle.std.specs.Prelude.{◌≡◌, []};
ghost use Rattle.node_claims.specs.Claims.{IsPassOf};
ghost use Rattle.search_pool.specs.Worker.{EndsWell};

use crate::expect::expect;
use crate::graphs::graph_of;
use crate::waiting::comes;
use graph_law::Graph;
use node_claims::{Claims, Pass};
use search_pool::{Ended, Gate, work};
use search_stack::Search;
use std::alloc::Global;
use std::sync::Wait;
use std::sync::atomic::{AtomicBool, Ordering};
use std::test::Fail;
use std::thread;
use std::thread::Threads;

/// A gate that reports the expansion of each of two nodes. The first one waits until the lock is
/// taken.
#[derive(Drop)]
struct TurnGate {
    first: AtomicBool,
    second: AtomicBool,
    taken: AtomicBool,
}

impl Gate for TurnGate {
    fn opened(&self, node: u32) {
        if node == 0 {
            self.first.store(true, Ordering::SeqCst);
            comes(&self.taken);
        } else {
            self.second.store(true, Ordering::SeqCst);
        }
    }
}

#[test]
fn a_worker_goes_on_while_another_pass_has_the_turn(rt: HostRuntime) -> Result<(), Fail> {
    let alloc = rt.alloc();
    let graph = graph_of(alloc, &[&[1], &[]], &[0])?;
    let (claims, pass) = Claims::make(alloc, &graph, graph.roots())?;
    let (theirs, mine) = claims.split(pass);
    let gate = TurnGate {
        first: AtomicBool::new(false),
        second: AtomicBool::new(false),
        taken: AtomicBool::new(false),
    };
    let (ended, (pass, came)) = side_by_side(&rt, alloc, &claims, theirs, mine, &graph, &gate);
    expect(&rt, came, "the worker expands a node meanwhile");
    let Ended::Finished { pass: other } = ended else {
        return Err("the worker has not finished".into());
    };
    let pass = claims.join(other, pass);
    let groups = claims.finish(&rt, pass);
    assert_eq!(rt; format!(in alloc; "{groups:?}")?.as_str(), "[[1], [0]]");
    Ok(())
}

/// A worker with the one pass, and in parallel the other pass, which holds the lock for a while.
fn side_by_side<R: Threads + Wait + Sync>(
    rt: &R,
    alloc: Global,
    claims: &Claims,
    theirs: Pass,
    mine: Pass,
    graph: &Graph,
    gate: &TurnGate,
) -> (Ended, (Pass, bool))
    requires made { claims.now.lists ≡ graph.now.lists }
    requires theirs { IsPassOf claims.now theirs × (theirs.view.nodes ≡ []) }
    requires mine { IsPassOf claims.now mine × (mine.view.nodes ≡ []) }
    ensures ended { EndsWell claims.now result.0 }
    ensures held { IsPassOf claims.now result.1.0 × (result.1.0.view.nodes ≡ []) }
{
    thread::join(
        rt,
        || -> Ended
            requires { (claims.now.lists ≡ graph.now.lists) × (IsPassOf claims.now theirs × (theirs.view.nodes ≡ [])) }
            ensures { EndsWell claims.entry.now result }
        { work(rt, alloc, claims, theirs, graph, gate) },
        || -> (Pass, bool)
            requires { IsPassOf claims.now mine × (mine.view.nodes ≡ []) }
            ensures { IsPassOf claims.entry.now result.0 × (result.0.view.nodes ≡ []) }
        { hold(rt, alloc, claims, mine, gate) },
    )
}

/// Takes the lock once the first node is expanded, and holds it until the second is. Returns
/// whether that came.
fn hold(rt: &impl Wait, alloc: Global, claims: &Claims, pass: Pass, gate: &TurnGate) -> (Pass, bool)
    requires of { IsPassOf claims.now pass }
    requires idle { pass.view.nodes ≡ [] }
    ensures { IsPassOf claims.now result.0 × (result.0.view.nodes ≡ []) }
{
    comes(&gate.first);
    let turn = claims.turn(rt, pass);
    gate.taken.store(true, Ordering::SeqCst);
    let came = comes(&gate.second);
    let pass = turn.give(&Search::empty(alloc), None);
    (pass, came)
}
