ghost use Rattle.std.specs.Prelude.{◌≡◌, ◌<◌, ◌≤◌, ℕ, length, All, IfOk};
ghost use Rattle.graph_law.specs.Classes.{HasMember};
ghost use Rattle.graph_law.specs.Graph.{Calls, lists_of};
ghost use Rattle.graph_law.specs.LegalOrder.{IsComplete, IsLegalOrder};
ghost use Rattle.graph_law.specs.Reach.{IsReached};
ghost use Rattle.search_pool.specs.Driving.{IsIdlePass, IsThrough};
ghost use Rattle.search_pool.specs.Worker.{EndsWell};

use crate::crew::Crew;
use crate::ended::Ended;
use crate::gate::Gate;
use crate::worker::work_in;
use graph_law::Opener;
use node_claims::{Claims, Pass};
use std::alloc::{AllocError, Global};
use std::sync::Wait;
use std::thread;
use std::thread::Threads;

/// The SCCs of all that the roots reach in reverse topological order, members ascending, found by
/// `jobs` workers, 1 to 64.
///
/// One worker begins, and the others hold back while nodes are expanded so cheaply that they would
/// gain nothing. If no thread can be started, they run one after another. Each node is expanded at
/// most once. Fails only if memory runs out, here or in the opener. The contract holds if the call
/// returns.
pub fn drive_workers<R: Threads + Wait + Sync, O: Opener, G: Gate>(
    rt: &R,
    alloc: Global,
    opener: &O,
    roots: &[u32],
    jobs: u32,
    gate: &G,
) -> Result<Vec<Vec<u32>>, AllocError>
    requires roots { All (λ root. root < length (O.lists opener.now)) roots.now }
    requires some { 0 < jobs }
    requires jobs { jobs ≤ 64 }
    ensures legal { IfOk result (λ groups. IsLegalOrder (Calls (O.lists opener.now)) (lists_of groups.items)) }
    ensures complete { IfOk result (λ groups. IsComplete roots.now (lists_of groups.items)) }
    ensures reached { IfOk result (λ groups. (v : ℕ) → HasMember (lists_of groups.items) v
        → IsReached (Calls (O.lists opener.now)) roots.now v) }
{
    let (claims, pass) = Claims::make(alloc, opener, roots)?;
    let passes = split_for(alloc, &claims, pass, jobs)?;
    let ended = run_crew(rt, alloc, &claims, passes, opener, gate, &Crew::new())?;
    let pass = join_all(&claims, ended)?;
    Ok(claims.finish(rt, pass))
}

/// A pass for each of `jobs` workers.
pub fn split_for(
    alloc: Global,
    claims: &Claims,
    pass: Pass,
    jobs: u32,
) -> Result<Vec<Pass>, AllocError>
    requires idle { IsIdlePass claims.now pass }
    requires some { 0 < jobs }
    ensures count { IfOk result (λ passes. length passes.items ≡ jobs) }
    ensures idle { IfOk result (λ passes. All (IsIdlePass claims.now) passes.items) }
{
    let mut passes = Vec::with_capacity(alloc, jobs as usize)?;
    let mut pass = pass;
    for _job in 1..jobs {
        let (first, second) = claims.split(pass);
        passes.push(second)?;
        pass = first;
    }
    passes.push(pass)?;
    Ok(passes)
}

/// Runs a worker for each pass, in a thread of its own if one can be started. None of them holds
/// back. Returns how each has ended, in the order of the passes. The contract holds if the call
/// returns.
pub fn run_all<R: Threads + Wait + Sync, O: Opener, G: Gate>(
    rt: &R,
    alloc: Global,
    claims: &Claims,
    passes: Vec<Pass>,
    opener: &O,
    gate: &G,
) -> Result<Vec<Ended>, AllocError>
    requires made { claims.now.lists ≡ O.lists opener.now }
    requires idle { All (IsIdlePass claims.now) passes.items }
    ensures count { IfOk result (λ ended. length ended.items ≡ length passes.items) }
    ensures ended { IfOk result (λ ended. All (EndsWell claims.now) ended.items) }
{
    run_crew(rt, alloc, claims, passes, opener, gate, &Crew::at_work())
}

// The same, for the workers of a crew.
fn run_crew<R: Threads + Wait + Sync, O: Opener, G: Gate>(
    rt: &R,
    alloc: Global,
    claims: &Claims,
    passes: Vec<Pass>,
    opener: &O,
    gate: &G,
    crew: &Crew,
) -> Result<Vec<Ended>, AllocError>
    requires made { claims.now.lists ≡ O.lists opener.now }
    requires idle { All (IsIdlePass claims.now) passes.items }
    ensures count { IfOk result (λ ended. length ended.items ≡ length passes.items) }
    ensures ended { IfOk result (λ ended. All (EndsWell claims.now) ended.items) }
{
    thread::map_vec(
        rt,
        passes,
        &|pass: Pass| -> Ended
            requires { (claims.now.lists ≡ O.lists opener.now) × IsIdlePass claims.now pass }
            ensures { EndsWell claims.entry.now result }
        {
            // One more than there are nodes, so that the search never grows.
            let room = if crew.come(rt) {
                opener.count().saturating_add(1)
            } else {
                0
            };
            let ended = work_in(rt, alloc, claims, pass, opener, gate, crew, room);
            crew.leave();
            ended
        },
    )
}

// One pass that knows what all knew, if each worker has finished.
fn join_all(claims: &Claims, ended: Vec<Ended>) -> Result<Pass, AllocError>
    requires some { 0 < length ended.items }
    requires well { All (EndsWell claims.now) ended.items }
    ensures { IfOk result (IsThrough claims.now) }
{
    let mut others = ended;
    let Some(last) = others.pop() else {
        unreachable!()
    };
    let Ended::Finished { mut pass } = last else {
        return Err(AllocError);
    };
    'others: while let Some(other) = others.pop() {
        let Ended::Finished { pass: right } = other else {
            return Err(AllocError);
        };
        pass = claims.join(pass, right);
    }
    Ok(pass)
}
