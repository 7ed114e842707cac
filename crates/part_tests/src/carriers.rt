ghost use Rattle.std.specs.Prelude.{◌<◌};
ghost use Rattle.effect_flow.specs.declared.kinds.TheConstants.{KINDS};

use crate::draws::Draws;
use crate::graphs::nodes_in;
use crate::paths::groups;
use crate::walks::{alone, reach};
use effect_flow::{Flow, KINDS, flow};
use graph_law::{Graph, Opener};
use group_release::levels;
use std::alloc::{AllocError, Global};
use std::thread::Threads;

/// Kinds of a number of nodes. Each node has few.
fn random_kinds(alloc: Global, count: usize, draws: &mut Draws) -> Result<Vec<u64>, AllocError> {
    let mut own = Vec::new(alloc);
    for _ in 0..count {
        own.push(u64::from(draws.next() & draws.next() & draws.next()))?;
    }
    Ok(own)
}

/// The nodes that have a kind themselves.
fn nodes_with(own: &[u64], kind: u32) -> u32
    requires { kind < KINDS }
{
    let mut found = 0;
    let mut node = 0u32;
    for &kinds in own {
        if kinds >> kind & 1 == 1 {
            found |= alone(node);
        }
        node = node.wrapping_add(1);
    }
    found
}

/// Whether the witnesses of a group that reaches these nodes are the least of them that have the
/// kinds.
fn carriers_are(own: &[u64], reached: u32, flow: &Flow) -> bool {
    for kind in 0..KINDS as u32 {
        let carried = nodes_with(own, kind) & reached;
        let least = (carried != 0).then_some(carried.trailing_zeros());
        if flow.first(kind) != least {
            return false;
        }
    }
    true
}

/// The set of some nodes.
fn set_of(nodes: &[u32]) -> u32 {
    nodes.iter().fold(0, |set, &node| set | alone(node))
}

/// Whether the witnesses of each group, for random kinds of the nodes, are the least nodes that its
/// members reach.
pub fn carriers_agree<R: Threads + Sync>(
    rt: &R,
    alloc: Global,
    rows: &[u32],
    graph: &Graph,
    draws: &mut Draws,
) -> Result<bool, AllocError> {
    let groups = groups(alloc, graph)?;
    let levels = levels(alloc, graph, &groups)?;
    let own = random_kinds(alloc, rows.len(), draws)?;
    if own.len() != graph.count() as usize {
        return Ok(false);
    }
    let flows = flow(rt, alloc, graph, &groups, &levels, &own)?;
    for (group, flow) in groups.iter().zip(&flows) {
        let reached = reach(alloc, rows, set_of(group))?;
        if !carriers_are(&own, reached, flow) {
            return Ok(false);
        }
    }
    Ok(true)
}
