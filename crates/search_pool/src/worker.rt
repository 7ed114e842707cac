ghost use Rattle.std.specs.Prelude.{◌≡◌, [], None};
ghost use Rattle.node_claims.specs.Claims.{IsPassOf};
ghost use Rattle.search_stack.specs.Search.{empty_stack};
ghost use Rattle.search_pool.specs.Worker.{EndsWell};

use crate::crew::Crew;
use crate::ended::Ended;
use crate::gate::Gate;
use graph_law::Opener;
use node_claims::{Claims, Pass};
use search_stack::Search;
use std::alloc::Global;
use std::sync::Wait;

mod close;
mod give;
mod idle;
mod outcome;
mod release;
mod roots;
mod run;
mod stop;
mod stretch;
mod suspend;

use outcome::{Outcome, Worker};
use run::go_on;
use stretch::Stretch;

/// Works until the pass has seen each root finished, or memory runs out, here or at another worker.
/// For each node that it wins it calls the gate and then the opener, without the lock. The contract
/// holds if the call returns.
pub fn work<O: Opener, G: Gate>(
    rt: &impl Wait,
    alloc: Global,
    claims: &Claims,
    pass: Pass,
    opener: &O,
    gate: &G,
) -> Ended
    requires made { claims.now.lists ≡ O.lists opener.now }
    requires pass { IsPassOf claims.now pass }
    requires idle { pass.view.nodes ≡ [] }
    ensures { EndsWell claims.now result }
{
    work_in(rt, alloc, claims, pass, opener, gate, &Crew::at_work(), 0)
}

/// The same, for a worker of a crew, which begins with capacity for `room` nodes. If the crew's
/// first worker has shown that expanding nodes is dear, it starts new searches even if they have to
/// wait at once.
pub(crate) fn work_in<O: Opener, G: Gate>(
    rt: &impl Wait,
    alloc: Global,
    claims: &Claims,
    pass: Pass,
    opener: &O,
    gate: &G,
    crew: &Crew,
    room: u32,
) -> Ended
    requires made { claims.now.lists ≡ O.lists opener.now }
    requires pass { IsPassOf claims.now pass }
    requires idle { pass.view.nodes ≡ [] }
    ensures { EndsWell claims.now result }
{
    let mut worker = Worker {
        pass,
        search: begin_search(alloc, room),
        stretch: Stretch {
            roots: Vec::new(alloc),
            next: 0,
        },
        seen_roots: 0,
        waits: 0,
        vain: 0,
        awaited: 0,
    };
    'turns: for _ in rt.forever() {
        match go_on(rt, alloc, claims, worker, opener, gate, crew) {
            Outcome::On(after) => worker = after,
            Outcome::Ended(ended) => return ended,
        }
    }
    unreachable!()
}

// A search with an empty stack. If there is no memory for that capacity, it has none yet.
fn begin_search(alloc: Global, room: u32) -> Search
    ensures stack { result.stack ≡ empty_stack }
    ensures wanted { result.wanted ≡ None }
{
    match Search::with_room(alloc, room) {
        Ok(search) => search,
        Err(_) => Search::empty(alloc),
    }
}
