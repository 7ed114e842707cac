ghost use Rattle.std.specs.Prelude.{◌≡◌, ◌<◌, true, false};
ghost use Rattle.search_stack.specs.Stack.{size};
ghost use Rattle.search_pool.specs.Worker.{IsElsewhere};
ghost use Rattle.search_pool.specs.Working.{IsAtWork, GoesWell};

use super::give::give_back;
use super::outcome::{Outcome, Worker};
use super::stop::stop;
use blocked_table::Suspended;
use node_claims::Claims;
use search_stack::Search;
use std::alloc::Global;
use std::sync::Wait;

// A search that has to wait with no more nodes than these was hardly worth the locks that it took.
const FEW: u32 = 8;

/// Suspends the search until the node is finished that its last edge leads to. If the node is
/// released by now, the search continues. If what it waits for waits for it, that is moved on top
/// of it.
pub(crate) fn suspend(
    rt: &impl Wait,
    alloc: Global,
    claims: &Claims,
    worker: Worker,
    node: u32,
) -> Outcome
    requires at_work { IsAtWork claims.now worker true }
    requires some { 0 < size worker.search.stack }
    requires elsewhere { IsElsewhere worker.pass worker.search node }
    ensures { GoesWell claims.now result }
{
    let Worker {
        pass,
        search,
        stretch,
        seen_roots,
        waits: _,
        vain,
        awaited: _,
    } = worker;
    let mut turn = claims.turn(rt, pass);
    let book = turn.book();
    if book.has_failed() {
        return Outcome::Ended(stop(turn, search, None));
    }
    if book.released().holds(node) {
        let mut worker = give_back(turn, search, stretch, seen_roots);
        worker.search.back(node);
        return Outcome::On(worker);
    }
    let vain = vain_with(vain, search.len());
    match book.suspend(search, node) {
        Ok(Suspended::Kept) => {
            let mut worker = give_back(turn, Search::empty(alloc), stretch, seen_roots);
            worker.vain = vain;
            worker.awaited = node;
            Outcome::On(worker)
        }
        Ok(Suspended::Moved(search)) => Outcome::On(give_back(turn, search, stretch, seen_roots)),
        Err((_, search)) => Outcome::Ended(stop(turn, search, None)),
    }
}

// How many searches in a row were in vain, after one with `nodes` nodes that has to wait.
fn vain_with(vain: u32, nodes: u32) -> u32 {
    if nodes > FEW {
        return 0;
    }
    vain.saturating_add(1)
}
