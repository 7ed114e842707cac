ghost use Rattle.std.specs.Prelude.{IfOk};
ghost use Rattle.graph_law.specs.Graph.{lists_of};
ghost use Rattle.graph_law.specs.CallOrder.{AreApart, AreGroupPlaces, AreZeroElsewhere};

use crate::stamping::stamp;
use std::alloc::{AllocError, Global};

/// For each of `count` nodes, the index of the group that it is in; 0 for a node in no group.
pub fn group_places(
    alloc: Global,
    count: usize,
    groups: &[Vec<u32>],
) -> Result<Vec<usize>, AllocError>
    requires { AreApart count (lists_of groups.now) }
    ensures members { IfOk result (λ places. AreGroupPlaces count (lists_of groups.now) places.items) }
    ensures others { IfOk result (λ places. AreZeroElsewhere (lists_of groups.now) places.items) }
{
    let mut places = vec![in alloc; 0usize; count]?;
    for (place, group) in groups.iter().enumerate() {
        stamp(&mut places, group, place);
    }
    Ok(places)
}
