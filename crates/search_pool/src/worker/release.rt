ghost use Rattle.std.specs.Prelude.{◌≡◌, ℕ, false};
ghost use Rattle.search_stack.specs.Search.{IsRipe};
ghost use Rattle.node_claims.specs.Claims.{ClaimsValue};
ghost use Rattle.search_pool.specs.Working.{GoesWell, HasTurn, IsAtWork};

use super::close::close_group;
use super::give::give_back;
use super::outcome::{Outcome, Worker};
use super::stop::stop;
use node_claims::{Claims, Turn};
use search_stack::Search;
use std::alloc::AllocError;
use std::sync::Wait;

/// Releases the top segment, which is an SCC, and closes its nodes, again and again while the new
/// top segment is one too. A group is often the last that its caller has waited for, and so one
/// lock serves both. The worker continues with the rest.
pub(crate) fn release(rt: &impl Wait, claims: &Claims, worker: Worker) -> Outcome
    requires at_work { IsAtWork claims.now worker false }
    requires ripe { IsRipe worker.search.stack }
    ensures { GoesWell claims.now result }
{
    let Worker {
        pass,
        mut search,
        stretch,
        seen_roots,
        waits: _,
        vain: _,
        awaited: _,
    } = worker;
    let mut turn = claims.turn(rt, pass);
    let book = turn.book();
    if book.has_failed() {
        return Outcome::Ended(stop(turn, search, None));
    }
    'groups: for _ in rt.forever() {
        if release_top(&mut turn, &mut search).is_err() {
            return Outcome::Ended(stop(turn, search, None));
        }
        if !search.is_ripe() {
            return Outcome::On(give_back(turn, search, stretch, seen_roots));
        }
    }
    unreachable!()
}

/// Releases the top segment, and closes its nodes. If memory runs out, nothing has changed.
fn release_top(turn: &mut Turn<'_>, search: &mut Search) -> Result<(), AllocError>
    requires ripe { IsRipe search.old.stack }
    requires under { (claims : ClaimsValue) × (n : ℕ) × HasTurn claims turn.old search.old n }
    ensures { (claims : ClaimsValue) (n : ℕ) → HasTurn claims turn.old search.old n → HasTurn claims turn.new search.new n }
{
    let Ok(group) = search.take_ripe() else {
        return Err(AllocError);
    };
    turn.book().release(group);
    close_group(turn);
    Ok(())
}
