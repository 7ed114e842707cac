ghost use Rattle.std.specs.Prelude.{◌≡◌, ◌<◌, ℕ, true, false, length, slice_index, slice_index_or, All, IfOk};
ghost use Rattle.graph_law.specs.Classes.{HasMember, least_member};
ghost use Rattle.graph_law.specs.Graph.{Calls, lists_of};
ghost use Rattle.graph_law.specs.LegalOrder.{IsLegalOrder};
ghost use Rattle.loop_paths.specs.Circuits.{AreCircuits, AreReturns, circuits_of};

use crate::breadth::lead;
use crate::inner::Inner;
use graph_law::{Opener, group_places};
use std::alloc::{AllocError, Global};

/// The first member of a group, which is its least one.
fn least_of(group: &[u32]) -> u32
    requires { 0 < length group.now }
    ensures { result ≡ least_member group.now }
{
    group[0]
}

/// For each group, the least path from its least member to a node that calls that member.
fn returns_of<O: Opener>(
    alloc: Global,
    opener: &O,
    groups: &[Vec<u32>],
    seen: &mut [bool],
) -> Result<Vec<Option<Vec<u32>>>, AllocError>
    requires some { All (λ group. 0 < length group) (lists_of groups.now) }
    requires below { All (λ group. least_member group < length (O.lists opener.now)) (lists_of groups.now) }
    requires each { length seen.old ≡ length (O.lists opener.now) }
    requires clear { (q : ℕ) → slice_index_or seen.old q false ≡ true → ⊥ }
    ensures { IfOk result (λ found. AreReturns (Calls (O.lists opener.now)) (lists_of groups.now) (length groups.now) (circuits_of found.items)) }
{
    let mut found = Vec::new(alloc);
    for group in groups {
        let least = least_of(group);
        found.push(lead(alloc, opener, least, least, seen)?)?;
    }
    Ok(found)
}

/// The least cycle through each group's least member, or None if the group isn't recursive, in the
/// order of the groups. They are in reverse topological order.
///
/// The last node of a cycle calls the first one, which isn't repeated. A search follows only calls
/// inside its group, so each node of the groups is expanded once. Fails only if memory runs out,
/// here or in the opener.
pub fn circuits<O: Opener>(
    alloc: Global,
    opener: &O,
    groups: &[Vec<u32>],
) -> Result<Vec<Option<Vec<u32>>>, AllocError>
    requires legal { IsLegalOrder (Calls (O.lists opener.now)) (lists_of groups.now) }
    requires nodes { (p : ℕ) → HasMember (lists_of groups.now) p → p < length (O.lists opener.now) }
    ensures { IfOk result (λ found. AreCircuits (Calls (O.lists opener.now)) (lists_of groups.now) (circuits_of found.items)) }
{
    let count = opener.count() as usize;
    let places = group_places(alloc, count, groups)?;
    let mut seen = vec![in alloc; false; count]?;
    let inner = Inner {
        opener,
        places: &places,
    };
    let found = returns_of(alloc, &inner, groups, &mut seen)?;
    Ok(found)
}
