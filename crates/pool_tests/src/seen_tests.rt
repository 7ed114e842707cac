ghost use Rattle.std.specs.Prelude.{◌≡◌, ◌≤◌, [], length, IfSome};
ghost use Rattle.node_claims.specs.Claims.{IsPassOf};
ghost use Rattle.search_pool.specs.Worker.{EndsWell};
ghost use Rattle.search_pool.specs.declared.ended.Ended.TheVariants.{Finished};

use crate::graphs::graph_of;
use graph_law::Opener;
use node_claims::{Claimed, Claims, Looked, Pass};
use search_pool::{Ended, OpenGate, work};
use std::sync::Wait;
use std::test::Fail;

#[test]
fn a_pass_that_did_nothing_sees_what_a_worker_finished(rt: HostRuntime) -> Result<(), Fail> {
    let alloc = rt.alloc();
    let graph = graph_of(alloc, &[&[1], &[2], &[0]], &[0])?;
    assert_eq!(rt; graph.count(), 3);
    let (claims, pass) = Claims::make(alloc, &graph, graph.roots())?;
    let (first, second) = claims.split(pass);
    let ended = work(&rt, alloc, &claims, first, &graph, &OpenGate);
    let Ended::Finished { pass: first } = ended else {
        return Err("the worker has not finished".into());
    };
    let second = sees_the_end(&claims, second).ok_or("a node is not finished")?;
    let groups = groups_of(&rt, claims, first, second);
    assert_eq!(rt; format!(in alloc; "{groups:?}")?.as_str(), "[[0, 1, 2]]");
    Ok(())
}

/// The groups, if the first pass has seen each root finished.
fn groups_of(rt: &impl Wait, claims: Claims, first: Pass, second: Pass) -> Vec<Vec<u32>>
    requires through { EndsWell claims (Finished first) }
    requires of { IsPassOf claims second }
    requires idle { second.view.nodes ≡ [] }
{
    let pass = claims.join(first, second);
    claims.finish(rt, pass)
}

/// The pass, which finds two nodes finished and wins none; None if that isn't so.
fn sees_the_end(claims: &Claims, mut pass: Pass) -> Option<Pass>
    requires nodes { 2 ≤ length claims.now.lists }
    requires of { IsPassOf claims.now pass }
    requires idle { pass.view.nodes ≡ [] }
    ensures { IfSome result (λ pass. IsPassOf claims.now pass × (pass.view.nodes ≡ [])) }
{
    let Looked::Done = claims.look(&mut pass, 1) else {
        return None;
    };
    let Claimed::Done = claims.claim(&mut pass, 0) else {
        return None;
    };
    Some(pass)
}
