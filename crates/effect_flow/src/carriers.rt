ghost use Rattle.std.specs.Prelude.{◌≡◌, ℕ, ◌<◌, ◌⊎◌, Some, [], length, slice_index, All, Contains, IfOk, OnOk};
ghost use Rattle.graph_law.specs.Classes.{group_at};
ghost use Rattle.graph_law.specs.Graph.{Calls, lists_of};
ghost use Rattle.effect_flow.specs.Carriers.{AreFlows, IsFirst, IsFlow, first_at, flow_at};
ghost use Rattle.effect_flow.specs.Seen.{see_flow, see_flows};
ghost use Rattle.effect_flow.specs.Flows.{AreFound, AreReady, IsNext, IsOfCallee};
ghost use Rattle.effect_flow.specs.declared.kinds.TheConstants.{KINDS};

use crate::flows::Flow;
use crate::grouped::Grouped;
use graph_law::Opener;
use std::alloc::{AllocError, Global};

/// The flow at the index.
pub fn flow_there(flows: &[Flow], place: usize) -> Flow
    requires { place < length flows.now }
    ensures { see_flow result ≡ flow_at (see_flows flows.now) place }
{
    flows[place]
}

/// The flow with the witnesses of the callees' groups, except those of the group at `place` itself.
fn with_callees(
    start: Flow,
    callees: &[u32],
    place: usize,
    places: &[usize],
    flows: &[Flow],
) -> Flow
    requires nodes { All (λ callee. callee < length places.now) callees.now }
    requires known { All (λ callee. slice_index places.now callee < length flows.now) callees.now }
    ensures { (kind : ℕ) → kind < KINDS
        → IsFirst (λ q. (first_at (see_flow start) kind ≡ Some q) ⊎ IsOfCallee places.now place (see_flows flows.now) kind callees.now q)
        (first_at (see_flow result) kind) }
{
    let mut flow = start;
    for &callee in callees {
        let other = places[callee as usize];
        if other == place {
            continue;
        }
        let carried = flow_there(flows, other);
        flow = flow.lesser(&carried);
    }
    flow
}

/// The flow of the group at `place`, if those of the groups that it calls are known. `callees` is a
/// buffer for the successors of one node at a time.
pub fn flow_of<O: Opener>(
    grouped: &Grouped<'_, O>,
    flows: &[Flow],
    place: usize,
    callees: &mut Vec<u32>,
) -> Result<Flow, AllocError>
    requires ready { AreReady (O.lists grouped.now.opener.now) grouped.now.own.now (lists_of grouped.now.groups.now) grouped.now.places.now }
    requires next { IsNext (O.lists grouped.now.opener.now) grouped.now.own.now (lists_of grouped.now.groups.now) (see_flows flows.now) place }
    ensures { IfOk result (λ flow. IsFlow (Calls (O.lists grouped.now.opener.now)) grouped.now.own.now
        (group_at (lists_of grouped.now.groups.now) place) (see_flow flow)) }
{
    let mut flow = Flow::none();
    for &member in &grouped.groups[place] {
        callees.clear();
        grouped.opener.expand(member, callees)?;
        let itself = Flow::of(member, grouped.own[member as usize]);
        let both = flow.lesser(&itself);
        flow = with_callees(both, callees, place, grouped.places, flows);
    }
    Ok(flow)
}

/// Puts the flows of the groups at these indices into `found`, which is empty. The flows of the
/// groups that they call are known.
pub fn push_flows<O: Opener>(
    grouped: &Grouped<'_, O>,
    flows: &[Flow],
    stretch: &[usize],
    callees: &mut Vec<u32>,
    found: &mut Vec<Flow>,
) -> Result<(), AllocError>
    requires ready { AreReady (O.lists grouped.now.opener.now) grouped.now.own.now (lists_of grouped.now.groups.now) grouped.now.places.now }
    requires next { All (IsNext (O.lists grouped.now.opener.now) grouped.now.own.now (lists_of grouped.now.groups.now) (see_flows flows.now)) stretch.now }
    requires empty { found.old.items ≡ [] }
    ensures { OnOk result
        (AreFound (O.lists grouped.now.opener.now) grouped.now.own.now (lists_of grouped.now.groups.now) stretch.now (see_flows found.new.items)) }
{
    for &place in stretch {
        let flow = flow_of(grouped, flows, place, callees)?;
        found.push(flow)?;
    }
    Ok(())
}

/// The flows of all groups, computed in sequence in the order of the groups, so that those that a
/// group calls are known before it.
pub fn flows_in_turn<O: Opener>(
    alloc: Global,
    grouped: &Grouped<'_, O>,
) -> Result<Vec<Flow>, AllocError>
    requires { AreReady (O.lists grouped.now.opener.now) grouped.now.own.now (lists_of grouped.now.groups.now) grouped.now.places.now }
    ensures { IfOk result (λ flows. AreFlows (Calls (O.lists grouped.now.opener.now)) grouped.now.own.now
        (lists_of grouped.now.groups.now) (see_flows flows.items)) }
{
    let mut flows = vec![in alloc; Flow::none(); grouped.groups.len()]?;
    let mut callees = Vec::new(alloc);
    for place in 0..grouped.groups.len() {
        let flow = flow_of(grouped, &flows, place, &mut callees)?;
        flows[place] = flow;
    }
    Ok(flows)
}
