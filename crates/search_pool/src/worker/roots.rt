ghost use Rattle.std.specs.Prelude.{◌≡◌, ◌<◌, ◌+◌, ℕ, slice_index, length, IfSome, IfNone, false};
ghost use Rattle.node_claims.specs.Views.{Noted};
ghost use Rattle.search_stack.specs.Stack.{size};
ghost use Rattle.search_pool.specs.Working.{GoesWell, HasClaimedOn, HasWon, IsAtWork, StaysWith};

use super::outcome::{Outcome, Worker};
use super::stop::give_up;
use crate::crew::Crew;
use crate::edges::open_node;
use crate::gate::Gate;
use graph_law::Opener;
use node_claims::{Claimed, Claims};
use std::alloc::Global;
use std::sync::Wait;

/// Claims the next of the roots that were handed out to the worker, without the lock, until one is
/// won, and begins a search there. If others have all of these roots, the worker is still idle.
pub(crate) fn open_next<O: Opener, G: Gate>(
    rt: &impl Wait,
    alloc: Global,
    claims: &Claims,
    mut worker: Worker,
    opener: &O,
    gate: &G,
    crew: &Crew,
) -> Outcome
    requires made { claims.now.lists ≡ O.lists opener.now }
    requires at_work { IsAtWork claims.now worker false }
    requires idle { size worker.search.stack ≡ 0 }
    requires some { worker.stretch.next < length worker.stretch.roots.items }
    ensures well { GoesWell claims.now result }
    ensures claimed { HasClaimedOn worker.stretch result }
{
    'roots: while worker.stretch.next < worker.stretch.roots.len() {
        if let Some(root) = claim_next(claims, &mut worker) {
            return open_root(rt, alloc, claims, worker, opener, gate, crew, root);
        }
    }
    Outcome::On(worker)
}

// Claims the next root that was handed out to the worker, and returns it if it is won. If another
// worker has it or it is finished, there is nothing to do.
fn claim_next(claims: &Claims, worker: &mut Worker) -> Option<u32>
    requires at_work { IsAtWork claims.now worker.old false }
    requires some { worker.old.stretch.next < length worker.old.stretch.roots.items }
    ensures search { worker.new.search ≡ worker.old.search }
    ensures next { worker.new.stretch ≡ record worker.old.stretch { next = worker.old.stretch.next + 1 } }
    ensures noted { (found : ℕ) × Noted (slice_index worker.old.stretch.roots.items worker.old.stretch.next) found worker.new.pass.view.looks }
    ensures noted_before { (x n : ℕ) → Noted x n worker.old.pass.view.looks → Noted x n worker.new.pass.view.looks }
    ensures others { IfNone result (IsAtWork claims.now worker.new false) }
    ensures won { IfSome result (HasWon claims.now worker.new) }
{
    let root = worker.stretch.roots[worker.stretch.next];
    worker.stretch.next += 1;
    match claims.claim(&mut worker.pass, root) {
        Claimed::Won => Some(root),
        Claimed::Held => None,
        Claimed::Done => None,
    }
}

// Begins a search at a root that the worker has won.
fn open_root<O: Opener, G: Gate>(
    rt: &impl Wait,
    alloc: Global,
    claims: &Claims,
    mut worker: Worker,
    opener: &O,
    gate: &G,
    crew: &Crew,
    root: u32,
) -> Outcome
    requires made { claims.now.lists ≡ O.lists opener.now }
    requires won { HasWon claims.now worker root }
    requires idle { size worker.search.stack ≡ 0 }
    ensures well { GoesWell claims.now result }
    ensures stays { StaysWith worker.pass worker.stretch result }
{
    if worker.search.reserve(1).is_err() {
        return Outcome::Ended(give_up(rt, claims, worker.pass, worker.search, Some(root)));
    }
    let opened = open_node(
        alloc,
        claims,
        &worker.pass,
        &mut worker.search,
        opener,
        gate,
        crew,
        root,
    );
    match opened {
        Ok(()) => Outcome::On(worker),
        Err(_) => Outcome::Ended(give_up(rt, claims, worker.pass, worker.search, Some(root))),
    }
}
