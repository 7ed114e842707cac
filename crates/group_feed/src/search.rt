ghost use Rattle.std.specs.Prelude.{◌≡◌, All, MatchResult, length};
ghost use Rattle.search_pool.specs.Driving.{IsIdlePass};
ghost use Rattle.search_pool.specs.Worker.{EndsWell};
ghost use Rattle.group_feed.specs.Feeder.{HasToldFailure};

use crate::feeder::fail_book;
use graph_law::Opener;
use node_claims::{Claims, Pass};
use search_pool::{Ended, Gate, run_all};
use std::alloc::Global;
use std::sync::Wait;
use std::thread::Threads;

/// Searches with a worker for each pass, none of which holds back, and returns how each has ended.
///
/// If there is no memory to start them, no worker marks the book as failed. Then the spare pass
/// does, so that the feeder ends too, and is returned.
pub(crate) fn search<R: Threads + Wait + Sync, O: Opener, G: Gate>(
    rt: &R,
    alloc: Global,
    claims: &Claims,
    passes: Vec<Pass>,
    spare: Pass,
    opener: &O,
    gate: &G,
) -> Result<Vec<Ended>, Pass>
    requires made { claims.now.lists ≡ O.lists opener.now }
    requires idle { All (IsIdlePass claims.now) passes.items }
    requires spare { IsIdlePass claims.now spare }
    ensures { MatchResult result
        (λ ended. (length ended.items ≡ length passes.items) × All (EndsWell claims.now) ended.items)
        (λ pass. HasToldFailure claims.now pass) }
{
    match run_all(rt, alloc, claims, passes, opener, gate) {
        Ok(ended) => Ok(ended),
        Err(_) => Err(fail_book(rt, alloc, claims, spare)),
    }
}
