//! Which group each predicate is in.

ghost use Rattle.std.specs.Prelude.{◌<◌, All, IfOk};
ghost use Rattle.call_table.specs.Memberships.{AreGroupsOf};
ghost use Rattle.graph_law.specs.Graph.{lists_of};

use graph_law::stamp;
use std::alloc::{AllocError, Global};

/// For each of `count` nodes one more than the index of the group that it is in, or 0 if it is in
/// none.
pub fn groups_of(alloc: Global, count: u32, groups: &[Vec<u32>]) -> Result<Vec<usize>, AllocError>
    requires { All (All (λ member. member < count)) (lists_of groups.now) }
    ensures { IfOk result (λ places. AreGroupsOf count (lists_of groups.now) places.items) }
{
    let mut places = vec![in alloc; 0usize; count as usize]?;
    for (at, group) in groups.iter().enumerate() {
        stamp(&mut places, group, at + 1);
    }
    Ok(places)
}
