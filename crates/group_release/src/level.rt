ghost use Rattle.std.specs.Prelude.{◌≡◌, ℕ, ◌<◌, ◌≤◌, length, slice_index, All, Contains, IfOk};
ghost use Rattle.graph_law.specs.Graph.{Calls, IsClosed, lists_of};
ghost use Rattle.graph_law.specs.Classes.{HasMember};
ghost use Rattle.graph_law.specs.LegalOrder.{IsLegalOrder};
ghost use Rattle.group_release.specs.Level.{AreLevels};
ghost use Rattle.group_release.specs.Levels.{IsLevelOf, IsRaised, LeadDown};

use graph_law::{Opener, stamp};
use std::alloc::{AllocError, Global};

/// The level of a group: its height, and whether it is recursive.
///
/// The height is 0 if it calls no other group, and otherwise one more than the greatest height that
/// it calls. It is recursive if it has two members, or if its one member calls itself.
#[derive(Clone, Copy, Debug, PartialEq, Eq)]
pub struct Level {
    pub height: u32,
    pub recursive: bool,
}

/// The level of each group, in the same order. The groups are SCCs in reverse topological order.
/// Each of their nodes is expanded once. Fails only if memory runs out, here or in the opener.
pub fn levels<O: Opener>(
    alloc: Global,
    opener: &O,
    groups: &[Vec<u32>],
) -> Result<Vec<Level>, AllocError>
    requires legal { IsLegalOrder (Calls (O.lists opener.now)) (lists_of groups.now) }
    requires nodes { (p : ℕ) → HasMember (lists_of groups.now) p → p < length (O.lists opener.now) }
    ensures { IfOk result (λ levels. AreLevels (Calls (O.lists opener.now)) (lists_of groups.now) levels.items) }
{
    let mut places = vec![in alloc; 0usize; opener.count() as usize]?;
    let mut levels = Vec::new(alloc);
    let mut callees = Vec::new(alloc);
    for group in groups {
        stamp(&mut places, group, levels.len());
        let level = level_of(opener, group, &places, &levels, &mut callees)?;
        levels.push(level)?;
    }
    Ok(levels)
}

/// The level of a group, if those of the groups before it are known, and the index of the group of
/// each callee. `callees` is a buffer for the successors of one node at a time.
fn level_of<O: Opener>(
    opener: &O,
    group: &[u32],
    places: &[usize],
    levels: &[Level],
    callees: &mut Vec<u32>,
) -> Result<Level, AllocError>
    requires closed { IsClosed (O.lists opener.now) }
    requires nodes { All (λ member. member < length (O.lists opener.now)) group.now }
    requires counted { length places.now ≡ length (O.lists opener.now) }
    requires known { (p q : ℕ) → Contains group.now p → Calls (O.lists opener.now) p q
        → slice_index places.now q ≤ length levels.now }
    requires low { All (λ level. level.height < 4294967295) levels.now }
    ensures { IfOk result (λ level. IsLevelOf (O.lists opener.now) places.now levels.now group.now level) }
{
    let mut height = 0;
    let mut recursive = group.len() > 1;
    for &member in group {
        callees.clear();
        opener.expand(member, callees)?;
        height = raise_height(height, callees, places, levels);
        recursive |= callees.contains(&member);
    }
    Ok(Level { height, recursive })
}

/// The height, raised above each callee's group that has a level already. The group itself has none
/// yet, so its calls of itself raise nothing.
pub fn raise_height(mut height: u32, callees: &[u32], places: &[usize], levels: &[Level]) -> u32
    requires nodes { All (λ callee. callee < length places.now) callees.now }
    requires known { All (λ callee. slice_index places.now callee ≤ length levels.now) callees.now }
    requires low { All (λ level. level.height < 4294967295) levels.now }
    ensures { IsRaised (LeadDown places.now (length levels.now) callees.now) levels.now height result }
{
    for &callee in callees {
        let place = places[callee as usize];
        if place == levels.len() {
            continue;
        }
        height = height.max(levels[place].height + 1);
    }
    height
}
