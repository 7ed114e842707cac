ghost use Rattle.std.specs.Prelude.{◌≡◌, ◌<◌, false};
ghost use Rattle.search_stack.specs.Stack.{size};
ghost use Rattle.search_pool.specs.Working.{IsAtWork, GoesWell};

use super::idle::take_up;
use super::outcome::{Outcome, Worker};
use super::release::release;
use super::stop::give_up;
use super::suspend::suspend;
use crate::crew::Crew;
use crate::edges::run_free;
use crate::gate::Gate;
use crate::stopped::Stopped;
use graph_law::Opener;
use node_claims::Claims;
use std::alloc::Global;
use std::sync::Wait;

/// Runs the worker's search, or takes one up if the worker is idle, up to the next time it unlocks.
pub(crate) fn go_on<O: Opener, G: Gate>(
    rt: &impl Wait,
    alloc: Global,
    claims: &Claims,
    worker: Worker,
    opener: &O,
    gate: &G,
    crew: &Crew,
) -> Outcome
    requires made { claims.now.lists ≡ O.lists opener.now }
    requires at_work { IsAtWork claims.now worker false }
    ensures { GoesWell claims.now result }
{
    if worker.search.is_empty() {
        return take_up(rt, alloc, claims, worker, opener, gate, crew);
    }
    run(rt, alloc, claims, worker, opener, gate, crew)
}

// Runs the search without the lock as far as possible, and then does what needs the lock.
fn run<O: Opener, G: Gate>(
    rt: &impl Wait,
    alloc: Global,
    claims: &Claims,
    mut worker: Worker,
    opener: &O,
    gate: &G,
    crew: &Crew,
) -> Outcome
    requires made { claims.now.lists ≡ O.lists opener.now }
    requires at_work { IsAtWork claims.now worker false }
    requires some { 0 < size worker.search.stack }
    ensures { GoesWell claims.now result }
{
    let stopped = run_free(
        rt,
        alloc,
        claims,
        &mut worker.pass,
        &mut worker.search,
        opener,
        gate,
        crew,
    );
    match stopped {
        Stopped::Ripe => release(rt, claims, worker),
        Stopped::Wants(node) => suspend(rt, alloc, claims, worker, node),
        Stopped::Unopened(node) => {
            Outcome::Ended(give_up(rt, claims, worker.pass, worker.search, Some(node)))
        }
        Stopped::NoRoom => Outcome::Ended(give_up(rt, claims, worker.pass, worker.search, None)),
    }
}
