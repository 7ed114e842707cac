//! Flows height by height, with the groups of one height in parallel.

ghost use Rattle.std.specs.Prelude.{◌≡◌, [], ℕ, ◌<◌, ◌*◌, ◌↔◌, length, All, IfOk, OnOk};
ghost use Rattle.graph_law.specs.Classes.{HasMember};
ghost use Rattle.graph_law.specs.Graph.{Calls, lists_of};
ghost use Rattle.graph_law.specs.LegalOrder.{IsLegalOrder};
ghost use Rattle.group_release.specs.Level.{AreLevels};
ghost use Rattle.effect_flow.specs.Carriers.{AreFlows};
ghost use Rattle.effect_flow.specs.Flows.{AreAdded, AreFound, ArePieces, AreReady, IsAsked, IsNext, IsPut, piece_of};
ghost use Rattle.effect_flow.specs.Seen.{see_flows};
ghost use Rattle.effect_flow.specs.declared.heights.TheConstants.{SIZE};

use crate::carriers::{flow_there, flows_in_turn, push_flows};
use crate::flows::Flow;
use crate::grouped::Grouped;
use crate::height_order::{height_end, height_order};
use graph_law::{Opener, group_places};
use group_release::Level;
use rayon::prelude::*;
use std::alloc::{AllocError, Global};
use std::thread::Threads;

/// How many groups are computed in sequence. Only the last piece of a height has fewer.
const SIZE: usize = 512;

/// How few pieces are worth a thread of their own.
const FEWEST: usize = 2;

/// How many pieces `count` groups make.
fn piece_count(count: usize) -> usize
    ensures { (number : ℕ) → number < result ↔ number * SIZE < count }
{
    if count % SIZE == 0 {
        return count / SIZE;
    }
    count / SIZE + 1
}

/// The flows of the groups of a piece.
fn piece<O: Opener>(
    alloc: Global,
    grouped: &Grouped<'_, O>,
    flows: &[Flow],
    stretch: &[usize],
    number: usize,
) -> Result<Vec<Flow>, AllocError>
    requires ready { AreReady (O.lists grouped.now.opener.now) grouped.now.own.now (lists_of grouped.now.groups.now) grouped.now.places.now }
    requires next { All (IsNext (O.lists grouped.now.opener.now) grouped.now.own.now (lists_of grouped.now.groups.now) (see_flows flows.now)) stretch.now }
    requires within { number * SIZE < length stretch.now }
    ensures { IfOk result (λ found.
        AreFound (O.lists grouped.now.opener.now) grouped.now.own.now (lists_of grouped.now.groups.now) (piece_of stretch.now number) (see_flows found.items)) }
{
    let from = number * SIZE;
    let to = from + (stretch.len() - from).min(SIZE);
    let mut callees = Vec::new(alloc);
    let mut found = Vec::new(alloc);
    push_flows(grouped, flows, &stretch[from..to], &mut callees, &mut found)?;
    Ok(found)
}

/// The flows of the groups of each piece, in the order of their numbers. They are computed in
/// parallel.
fn each_piece<R: Threads + Sync, O: Opener>(
    rt: &R,
    alloc: Global,
    grouped: &Grouped<'_, O>,
    flows: &[Flow],
    stretch: &[usize],
) -> Result<Vec<Result<Vec<Flow>, AllocError>>, AllocError>
    requires ready { AreReady (O.lists grouped.now.opener.now) grouped.now.own.now (lists_of grouped.now.groups.now) grouped.now.places.now }
    requires next { All (IsNext (O.lists grouped.now.opener.now) grouped.now.own.now (lists_of grouped.now.groups.now) (see_flows flows.now)) stretch.now }
    ensures { IfOk result (λ each. ArePieces (O.lists grouped.now.opener.now) grouped.now.own.now (lists_of grouped.now.groups.now) stretch.now each.items) }
{
    (0..piece_count(stretch.len()))
        .into_par_iter()
        .with_min_len(FEWEST)
        .map(
            |number: usize| -> Result<Vec<Flow>, AllocError>
                requires { IsAsked (O.lists grouped.now.opener.now) grouped.now.own.now (lists_of grouped.now.groups.now) grouped.now.places.now
                    (see_flows flows.now) stretch.now number }
                ensures { IfOk result (λ found.
                    AreFound (O.lists grouped.entry.now.opener.now) grouped.entry.now.own.now (lists_of grouped.entry.now.groups.now)
                    (piece_of stretch.entry.now number) (see_flows found.items)) }
            { piece(alloc, grouped, flows, stretch, number) },
        )
        .collect(rt, alloc)
}

/// Puts the flows of all pieces, one after the other, into `found`, which is empty.
fn push_pieces<R: Threads + Sync, O: Opener>(
    rt: &R,
    alloc: Global,
    grouped: &Grouped<'_, O>,
    flows: &[Flow],
    stretch: &[usize],
    found: &mut Vec<Flow>,
) -> Result<(), AllocError>
    requires ready { AreReady (O.lists grouped.now.opener.now) grouped.now.own.now (lists_of grouped.now.groups.now) grouped.now.places.now }
    requires next { All (IsNext (O.lists grouped.now.opener.now) grouped.now.own.now (lists_of grouped.now.groups.now) (see_flows flows.now)) stretch.now }
    requires empty { found.old.items ≡ [] }
    ensures { OnOk result
        (AreFound (O.lists grouped.now.opener.now) grouped.now.own.now (lists_of grouped.now.groups.now) stretch.now (see_flows found.new.items)) }
{
    let each = each_piece(rt, alloc, grouped, flows, stretch)?;
    for one in &each {
        match one {
            Ok(piece) => found.extend_from_slice(piece)?,
            Err(_) => return Err(AllocError),
        }
    }
    Ok(())
}

/// Puts the flows of the groups at these indices into `found`, which is empty. They are computed in
/// sequence if they are one piece, and otherwise in parallel.
fn find<R: Threads + Sync, O: Opener>(
    rt: &R,
    alloc: Global,
    grouped: &Grouped<'_, O>,
    flows: &[Flow],
    stretch: &[usize],
    callees: &mut Vec<u32>,
    found: &mut Vec<Flow>,
) -> Result<(), AllocError>
    requires ready { AreReady (O.lists grouped.now.opener.now) grouped.now.own.now (lists_of grouped.now.groups.now) grouped.now.places.now }
    requires next { All (IsNext (O.lists grouped.now.opener.now) grouped.now.own.now (lists_of grouped.now.groups.now) (see_flows flows.now)) stretch.now }
    requires empty { found.old.items ≡ [] }
    ensures { OnOk result
        (AreFound (O.lists grouped.now.opener.now) grouped.now.own.now (lists_of grouped.now.groups.now) stretch.now (see_flows found.new.items)) }
{
    if stretch.len() > SIZE {
        return push_pieces(rt, alloc, grouped, flows, stretch, found);
    }
    push_flows(grouped, flows, stretch, callees, found)
}

/// Writes each flow that was found to its group's index.
fn put(flows: &mut [Flow], stretch: &[usize], found: &[Flow])
    requires within { All (λ place. place < length flows.old) stretch.now }
    requires each { length found.now ≡ length stretch.now }
    ensures { IsPut stretch.now (see_flows found.now) (see_flows flows.old) (see_flows flows.new) }
{
    for k in 0..stretch.len() {
        let flow = flow_there(found, k);
        flows[stretch[k]] = flow;
    }
}

/// Computes the flows of the groups at these indices, and writes them there. `callees` and `found`
/// are buffers.
fn add_flows<R: Threads + Sync, O: Opener>(
    rt: &R,
    alloc: Global,
    grouped: &Grouped<'_, O>,
    stretch: &[usize],
    flows: &mut [Flow],
    callees: &mut Vec<u32>,
    found: &mut Vec<Flow>,
) -> Result<(), AllocError>
    requires ready { AreReady (O.lists grouped.now.opener.now) grouped.now.own.now (lists_of grouped.now.groups.now) grouped.now.places.now }
    requires next { All (IsNext (O.lists grouped.now.opener.now) grouped.now.own.now (lists_of grouped.now.groups.now) (see_flows flows.old)) stretch.now }
    ensures { OnOk result (AreAdded (O.lists grouped.now.opener.now) grouped.now.own.now (lists_of grouped.now.groups.now) stretch.now
        (see_flows flows.old) (see_flows flows.new)) }
{
    found.clear();
    find(rt, alloc, grouped, flows, stretch, callees, found)?;
    put(flows, stretch, found);
    Ok(())
}

/// The flows of all groups, computed height by height.
fn flows_by_height<R: Threads + Sync, O: Opener>(
    rt: &R,
    alloc: Global,
    grouped: &Grouped<'_, O>,
    levels: &[Level],
) -> Result<Vec<Flow>, AllocError>
    requires ready { AreReady (O.lists grouped.now.opener.now) grouped.now.own.now (lists_of grouped.now.groups.now) grouped.now.places.now }
    requires leveled { AreLevels (Calls (O.lists grouped.now.opener.now)) (lists_of grouped.now.groups.now) levels.now }
    ensures { IfOk result (λ flows. AreFlows (Calls (O.lists grouped.now.opener.now)) grouped.now.own.now
        (lists_of grouped.now.groups.now) (see_flows flows.items)) }
{
    let order = height_order(rt, alloc, levels)?;
    let mut flows = vec![in alloc; Flow::none(); grouped.groups.len()]?;
    let mut callees = Vec::new(alloc);
    let mut found = Vec::new(alloc);
    let mut from = 0;
    while from < order.len() {
        let to = height_end(levels, &order, from);
        add_flows(
            rt,
            alloc,
            grouped,
            &order[from..to],
            &mut flows,
            &mut callees,
            &mut found,
        )?;
        from = to;
    }
    Ok(flows)
}

/// Whether a height has, on average, enough groups for several pieces. This decides how flows are
/// computed, and not what they are.
fn are_wide(levels: &[Level]) -> bool {
    let mut highest = 0;
    for level in levels {
        highest = highest.max(level.height);
    }
    (highest as usize) < levels.len() / SIZE
}

/// For each group, in the same order, a witness for each kind of effect: the least node that a
/// member reaches and that has the kind itself.
///
/// `own` has for each node the kinds that it has itself, as bits of their numbers. The groups are
/// in reverse topological order, and `levels` are their levels. Each of their nodes is expanded
/// once. Fails only if memory runs out, here or in the opener.
pub fn flow<R: Threads + Sync, O: Opener>(
    rt: &R,
    alloc: Global,
    opener: &O,
    groups: &[Vec<u32>],
    levels: &[Level],
    own: &[u64],
) -> Result<Vec<Flow>, AllocError>
    requires legal { IsLegalOrder (Calls (O.lists opener.now)) (lists_of groups.now) }
    requires nodes { (p : ℕ) → HasMember (lists_of groups.now) p → p < length (O.lists opener.now) }
    requires leveled { AreLevels (Calls (O.lists opener.now)) (lists_of groups.now) levels.now }
    requires own { length own.now ≡ length (O.lists opener.now) }
    ensures { IfOk result (λ flows. AreFlows (Calls (O.lists opener.now)) own.now (lists_of groups.now) (see_flows flows.items)) }
{
    let places = group_places(alloc, opener.count() as usize, groups)?;
    let grouped = Grouped {
        opener,
        groups,
        own,
        places: &places,
    };
    if are_wide(levels) {
        return flows_by_height(rt, alloc, &grouped, levels);
    }
    flows_in_turn(alloc, &grouped)
}
