ghost use Rattle.std.specs.Prelude.{◌≡◌, ◌≤◌, length, All};
ghost use Rattle.node_claims.specs.Claims.{IsPassOf};

use crate::ring::ring;
use node_claims::{Claimed, Claims, Pass};
use std::alloc::AllocError;
use std::test::Fail;
use std::thread;
use std::thread::Threads;

#[test]
fn two_threads_win_each_node_once(rt: HostRuntime) -> Result<(), Fail> {
    let alloc = rt.alloc();
    let graph = ring(alloc)?;
    let (claims, pass) = Claims::make(alloc, &graph, &[0])?;
    let (first, second) = claims.split(pass);
    let wins = race(&rt, &claims, vec![in alloc; first, second]?)?;
    let won = wins.iter().fold(0u32, |sum, &each| sum.wrapping_add(each));
    assert_eq!(rt; won, 7);
    Ok(())
}

/// Each pass claims the nodes in a thread of its own: a bit for each node that it won.
fn race<R: Threads + Sync>(
    rt: &R,
    claims: &Claims,
    passes: Vec<Pass>,
) -> Result<Vec<u32>, AllocError>
    requires passes { All (λ pass. IsPassOf claims.now pass) passes.items }
    requires nodes { 3 ≤ length claims.now.lists }
{
    thread::map_vec(
        rt,
        passes,
        &|pass: Pass| -> u32
            requires { IsPassOf claims.now pass × (3 ≤ length claims.now.lists) }
        { wins(claims, pass) },
    )
}

fn wins(claims: &Claims, mut pass: Pass) -> u32
    requires pass { IsPassOf claims.now pass }
    requires nodes { 3 ≤ length claims.now.lists }
{
    let first = match claims.claim(&mut pass, 0) {
        Claimed::Won => 1,
        _ => 0,
    };
    let second = match claims.claim(&mut pass, 1) {
        Claimed::Won => 2,
        _ => 0,
    };
    let third = match claims.claim(&mut pass, 2) {
        Claimed::Won => 4,
        _ => 0,
    };
    first | second | third
}
