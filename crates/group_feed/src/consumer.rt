ghost use Rattle.std.specs.Prelude.{◌≡◌, true, false, [], OnOk};
ghost use Rattle.crossbeam_queue.specs.Passes.{view, IsPassOf};
ghost use Rattle.group_feed.specs.Driving.{HasTaken, HasTakenAll};

use crate::ends::next;
use crate::line::{Graph, Line, LinePass};
use crate::taker::Taker;
use std::alloc::AllocError;
use std::sync::Wait;

/// Passes the groups of the line to the taker, up to the end mark. If the taker finds no memory,
/// the later ones stay on the line. The contract holds if the call returns.
pub(crate) fn consume<N: Graph, R: Wait, T: Taker>(
    rt: &R,
    line: &Line<N>,
    pass: &mut LinePass,
    taker: &mut T,
) -> Result<(), AllocError>
    requires queue { IsPassOf line.now pass.old }
    requires takes { (view pass.old).takes ≡ true }
    requires open_yet { (view pass.old).through ≡ false }
    requires none { (view pass.old).taken ≡ [] }
    requires lists { T.lists taker.old ≡ N.lists }
    requires fresh { T.taken taker.old ≡ [] }
    ensures lists { T.lists taker.new ≡ N.lists }
    ensures part { HasTaken N.lists line.now pass.new (T.taken taker.new) }
    ensures all { OnOk result (HasTakenAll pass.new (T.taken taker.new)) }
{
    'parcels: for _ in rt.forever() {
        let Some(parcel) = next(rt, line, pass) else {
            return Ok(());
        };
        taker.take(&parcel.nodes)?;
    }
    unreachable!()
}
