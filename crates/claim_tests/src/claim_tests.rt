ghost use Rattle.std.specs.Prelude.{◌≡◌};
ghost use Rattle.claim_tests.specs.Ring.{ring_lists};

use crate::by_hand::{lead, release_ring, see_done, start};
use crate::ring::ring;
use graph_law::Graph;
use node_claims::{Claimed, Claims, Looked};
use std::alloc::Global;
use std::process::Abort;
use std::sync::Wait;
use std::test::Fail;

#[test]
fn a_node_is_claimed_once(rt: HostRuntime) -> Result<(), Fail> {
    let alloc = rt.alloc();
    let graph = ring(alloc)?;
    let (claims, pass) = Claims::make(alloc, &graph, &[0])?;
    let (mut first, mut second) = claims.split(pass);
    expect_claimed(&rt, claims.claim(&mut first, 0), Claimed::Won);
    expect_claimed(&rt, claims.claim(&mut first, 0), Claimed::Held);
    expect_looked(&rt, claims.look(&mut first, 1), Looked::Unseen);
    expect_claimed(&rt, claims.claim(&mut second, 0), Claimed::Held);
    expect_claimed(&rt, claims.claim(&mut second, 1), Claimed::Won);
    expect_looked(&rt, claims.look(&mut first, 1), Looked::Held);
    Ok(())
}

fn expect_claimed<R: Abort>(rt: &R, found: Claimed, wanted: Claimed) {
    assert_eq!(rt; found, wanted);
}

fn expect_looked<R: Abort>(rt: &R, found: Looked, wanted: Looked) {
    assert_eq!(rt; found, wanted);
}

/// One pass searches the cycle and releases it. Another pass, which has no node, finds its nodes
/// finished.
#[test]
fn a_ring_that_is_led_by_hand_is_one_group(rt: HostRuntime) -> Result<(), Fail> {
    let alloc = rt.alloc();
    let graph = ring(alloc)?;
    let groups = groups_by_hand(&rt, alloc, &graph)?;
    let shown = format!(in alloc; "{groups:?}")?;
    assert_eq!(rt; shown.as_str(), "[[0, 1, 2]]");
    Ok(())
}

/// The groups of the cycle.
fn groups_by_hand<R: Wait>(rt: &R, alloc: Global, graph: &Graph) -> Result<Vec<Vec<u32>>, Fail>
    requires { graph.now.lists ≡ ring_lists }
{
    let (claims, pass) = Claims::make(alloc, graph, &[0])?;
    let (mut first, mut second) = claims.split(pass);
    let mut search = start(alloc, graph, &claims, &mut first, 0)?;
    lead(alloc, graph, &claims, &mut first, &mut search)?;
    let first = release_ring(rt, &claims, first, search)?;
    see_done(&claims, &mut second)?;
    let pass = claims.join(second, first);
    Ok(claims.finish(rt, pass))
}
