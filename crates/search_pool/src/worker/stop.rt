ghost use Rattle.std.specs.Prelude.{◌≡◌, ℕ};
ghost use Rattle.node_claims.specs.Claims.{ClaimsValue, nodes_with};
ghost use Rattle.node_claims.specs.Steps.{MayGive};
ghost use Rattle.node_claims.specs.Views.{outline_of};
ghost use Rattle.search_pool.specs.Worker.{HasNodes, EndsWell};
ghost use Rattle.search_pool.specs.Working.{IsTurnOf};

use crate::ended::Ended;
use node_claims::{Claims, Pass, Turn};
use search_stack::Search;
use std::sync::Wait;

/// Marks the book as failed, so that the other workers end too, and ends with what this one has.
pub(crate) fn give_up(
    rt: &impl Wait,
    claims: &Claims,
    pass: Pass,
    search: Search,
    unopened: Option<u32>,
) -> Ended
    requires { HasNodes claims.now pass search unopened }
    ensures { EndsWell claims.now result }
{
    let turn = claims.turn(rt, pass);
    stop(turn, search, unopened)
}

/// The same, for a worker that has the lock.
pub(crate) fn stop(mut turn: Turn<'_>, search: Search, unopened: Option<u32>) -> Ended
    requires { MayGive turn.view turn.taken (outline_of turn.book) (nodes_with search unopened) }
    ensures { (claims : ClaimsValue) → IsTurnOf claims turn.entry → EndsWell claims result }
{
    turn.book().fail();
    let pass = turn.give(&search, unopened);
    Ended::NoMemory {
        pass,
        search,
        unopened,
    }
}
