ghost use Rattle.std.specs.Prelude.{◌≡◌, ◌<◌, ◌≤◌, ◌+◌, ℕ, [], true, length, All, IfOk, OnOk};
ghost use Rattle.std.specs.Option.{IsSomeAnd};
ghost use Rattle.crossbeam_queue.specs.Passes.{view, IsPassOf as is_line_pass, ruled_capacity};
ghost use Rattle.graph_law.specs.Classes.{HasMember};
ghost use Rattle.graph_law.specs.Graph.{Calls, lists_of};
ghost use Rattle.graph_law.specs.LegalOrder.{IsComplete, IsLegalOrder};
ghost use Rattle.graph_law.specs.Reach.{IsReached};
ghost use Rattle.search_pool.specs.Driving.{IsIdlePass};
ghost use Rattle.group_feed.specs.Driving.{AreFound, AreReady, HasTaken, HasTakenAll};
ghost use Rattle.group_feed.specs.Line.{feeding, newcomer, taking};
ghost use Rattle.group_feed.specs.Ordered.{AreOrdered};

use crate::consumer::consume;
use crate::ends::{meet, open_line};
use crate::feeder::feed;
use crate::line::{Graph, Line, LinePass};
use crate::parts::Parts;
use crate::search::search;
use crate::taker::Taker;
use graph_law::Opener;
use group_release::Released;
use node_claims::{Claims, Pass};
use search_pool::{Ended, Gate, split_for};
use std::alloc::{AllocError, Global};
use std::marker::Brand;
use std::sync::Wait;
use std::thread;
use std::thread::Threads;

/// The SCCs of all that the roots reach in reverse topological order, found by `jobs` workers, 1 to
/// 64. The taker gets each of them while the search runs, in this order.
///
/// If memory runs out, what it has taken is in reverse topological order. If no thread can be
/// started, the workers, the feeder and the taker run one after another. The contract holds if the
/// call returns.
pub fn drive_feed<R: Threads + Wait + Sync, O: Opener, G: Gate, T: Taker>(
    rt: &R,
    alloc: Global,
    opener: &O,
    roots: &[u32],
    jobs: u32,
    gate: &G,
    taker: &mut T,
) -> Result<Vec<Vec<u32>>, AllocError>
    requires roots { All (λ root. root < length (O.lists opener.now)) roots.now }
    requires some { 0 < jobs }
    requires jobs { jobs ≤ 64 }
    requires lists { T.lists taker.old ≡ O.lists opener.now }
    requires fresh { T.taken taker.old ≡ [] }
    ensures lists { T.lists taker.new ≡ O.lists opener.now }
    ensures part { IsLegalOrder (Calls (O.lists opener.now)) (T.taken taker.new) }
    ensures taken { IfOk result (λ groups. T.taken taker.new ≡ lists_of groups.items) }
    ensures complete { IfOk result (λ groups. IsComplete roots.now (lists_of groups.items)) }
    ensures reached { IfOk result (λ groups. (v : ℕ) → HasMember (lists_of groups.items) v
        → IsReached (Calls (O.lists opener.now)) roots.now v) }
{
    drive_named::<Brand, R, O, G, T>(rt, alloc, opener, roots, jobs, gate, taker)
}

// The same, if `N` names the graph.
fn drive_named<N: Graph + Sync, R: Threads + Wait + Sync, O: Opener, G: Gate, T: Taker>(
    rt: &R,
    alloc: Global,
    opener: &O,
    roots: &[u32],
    jobs: u32,
    gate: &G,
    taker: &mut T,
) -> Result<Vec<Vec<u32>>, AllocError>
    requires named { O.lists opener.now ≡ N.lists }
    requires roots { All (λ root. root < length (O.lists opener.now)) roots.now }
    requires some { 0 < jobs }
    requires lists { T.lists taker.old ≡ N.lists }
    requires fresh { T.taken taker.old ≡ [] }
    ensures lists { T.lists taker.new ≡ N.lists }
    ensures part { AreOrdered N.lists (T.taken taker.new) }
    ensures taken { IfOk result (λ groups. T.taken taker.new ≡ lists_of groups.items) }
    ensures complete { IfOk result (λ groups. IsComplete roots.now (lists_of groups.items)) }
    ensures reached { IfOk result (λ groups. (v : ℕ) → HasMember (lists_of groups.items) v
        → IsReached (Calls N.lists) roots.now v) }
{
    let count = opener.count();
    let (line, hand, mut seat) = open_line::<N>(alloc, count)?;
    let copies = Released::make(alloc, count)?;
    let (claims, pass) = Claims::make(alloc, opener, roots)?;
    let (pass, feeder) = claims.split(pass);
    let (pass, spare) = claims.split(pass);
    let passes = split_for(alloc, &claims, pass, jobs)?;
    let mut parts = Some(Parts {
        passes,
        spare,
        feeder,
        hand,
        copies,
    });
    let (hand, groups) = run_three::<N, R, O, G, T>(
        rt, alloc, &claims, &mut parts, opener, gate, roots, &line, &mut seat, taker,
    )?;
    meet::<N>(&line, hand, seat);
    Ok(groups)
}

// Runs the taker in a thread of its own, and the search and the feeder here. If no thread can be
// started, `join_mut` runs its second argument first, which needs nothing of the taker.
fn run_three<N: Graph + Sync, R: Threads + Wait + Sync, O: Opener, G: Gate, T: Taker>(
    rt: &R,
    alloc: Global,
    claims: &Claims,
    parts: &mut Option<Parts>,
    opener: &O,
    gate: &G,
    roots: &[u32],
    line: &Line<N>,
    seat: &mut LinePass,
    taker: &mut T,
) -> Result<(LinePass, Vec<Vec<u32>>), AllocError>
    requires made { claims.now.lists ≡ O.lists opener.now }
    requires named { claims.now.lists ≡ N.lists }
    requires roots { claims.now.roots ≡ roots.now }
    requires room { ruled_capacity line.now ≡ length N.lists + 1 }
    requires ready { IsSomeAnd parts.old (AreReady claims.now N.lists line.now) }
    requires seat { is_line_pass line.now seat.old }
    requires takes { view seat.old ≡ taking newcomer }
    requires lists { T.lists taker.old ≡ N.lists }
    requires fresh { T.taken taker.old ≡ [] }
    ensures lists { T.lists taker.new ≡ N.lists }
    ensures part { HasTaken N.lists line.now seat.new (T.taken taker.new) }
    ensures all { OnOk result (HasTakenAll seat.new (T.taken taker.new)) }
    ensures found { IfOk result (λ found. AreFound claims.now line.now found.0 (lists_of found.1.items)) }
{
    let (taken, found) = thread::join_mut(
        rt,
        &mut || -> Result<(), AllocError>
            requires { is_line_pass line.now seat.now × (view seat.now ≡ taking newcomer) × (T.lists taker.now ≡ N.lists) × (T.taken taker.now ≡ []) }
            ensures { (T.lists taker.exit.now ≡ N.lists) × HasTaken N.lists line.entry.now seat.exit.now (T.taken taker.exit.now)
                × OnOk result (HasTakenAll seat.exit.now (T.taken taker.exit.now)) }
        { consume::<N, R, T>(rt, line, seat, taker) },
        &mut || -> Result<(LinePass, Vec<Vec<u32>>), AllocError>
            requires { (claims.now.lists ≡ O.lists opener.now) × (claims.now.lists ≡ N.lists) × (claims.now.roots ≡ roots.now)
                × (ruled_capacity line.now ≡ length N.lists + 1) × IsSomeAnd parts.now (AreReady claims.now N.lists line.now) }
            ensures { IfOk result (λ found. AreFound claims.entry.now line.entry.now found.0 (lists_of found.1.items)) }
        { search_and_feed::<N, R, O, G>(rt, alloc, claims, parts, opener, gate, roots, line) },
    );
    let found = found?;
    taken?;
    Ok(found)
}

// Runs the feeder in a thread of its own, and the workers here. If no thread can be started, the
// workers come first, which need nothing of the feeder.
fn search_and_feed<N: Graph + Sync, R: Threads + Wait + Sync, O: Opener, G: Gate>(
    rt: &R,
    alloc: Global,
    claims: &Claims,
    parts: &mut Option<Parts>,
    opener: &O,
    gate: &G,
    roots: &[u32],
    line: &Line<N>,
) -> Result<(LinePass, Vec<Vec<u32>>), AllocError>
    requires made { claims.now.lists ≡ O.lists opener.now }
    requires named { claims.now.lists ≡ N.lists }
    requires roots { claims.now.roots ≡ roots.now }
    requires room { ruled_capacity line.now ≡ length N.lists + 1 }
    requires ready { IsSomeAnd parts.old (AreReady claims.now N.lists line.now) }
    ensures { IfOk result (λ found. AreFound claims.now line.now found.0 (lists_of found.1.items)) }
{
    let Some(all) = parts.take() else {
        unreachable!()
    };
    let Parts {
        passes,
        spare,
        feeder,
        hand,
        copies,
    } = all;
    let ((hand, groups), _searched) = thread::join(
        rt,
        move || -> (LinePass, Result<Vec<Vec<u32>>, Pass>)
            requires { (claims.now.lists ≡ N.lists) × (claims.now.roots ≡ roots.now) × IsIdlePass claims.now feeder × is_line_pass line.now hand
                × (ruled_capacity line.now ≡ length N.lists + 1) × (view hand ≡ feeding newcomer) × (copies ≡ record { count = length N.lists; groups = [] }) }
            ensures { IfOk result.1 (λ groups. AreFound claims.entry.now line.entry.now result.0 (lists_of groups.items)) }
        { feed::<N, R>(rt, alloc, claims, feeder, roots, line, hand, copies) },
        move || -> Result<Vec<Ended>, Pass>
            requires { (claims.now.lists ≡ O.lists opener.now) × All (IsIdlePass claims.now) passes.items × IsIdlePass claims.now spare }
        { search(rt, alloc, claims, passes, spare, opener, gate) },
    );
    match groups {
        Ok(groups) => Ok((hand, groups)),
        Err(_) => Err(AllocError),
    }
}
