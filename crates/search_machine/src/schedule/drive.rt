ghost use Rattle.std.specs.Prelude.{◌≡◌, ◌<◌, ◌≤◌, ℕ, false, length, All, IfOk, OnOk};
ghost use Rattle.graph_law.specs.Classes.{HasMember};
ghost use Rattle.graph_law.specs.Graph.{Calls, lists_of};
ghost use Rattle.graph_law.specs.LegalOrder.{IsComplete, IsLegalOrder};
ghost use Rattle.graph_law.specs.Reach.{IsReached};
ghost use Rattle.search_machine.specs.Events.{IsEvent};
ghost use Rattle.search_machine.specs.Runs.{CanAct};
ghost use Rattle.search_machine.specs.Schedule.{IsScheduled};
ghost use Rattle.search_machine.specs.Work.{work};

use crate::laws::schedules_answer;
use crate::schedule::actors::list_actors;
use crate::schedule::draw::{number_after, pick};
use crate::{Machine, Step};
use graph_law::Opener;
use search_stack::Opening;
use std::alloc::{AllocError, Global};

/// The SCCs of all that the roots reach in reverse topological order, members ascending, found by
/// `searches` searches that take turns on this thread.
///
/// The order is that of their release, by the schedule of the seed. Fails only if memory runs out,
/// here or in the opener. A turn costs a scan of the places and one event.
pub fn drive_many<O: Opener>(
    alloc: Global,
    opener: &O,
    roots: &[u32],
    searches: u32,
    seed: u64,
) -> Result<Vec<Vec<u32>>, AllocError>
    requires roots { All (λ root. root < length (O.lists opener.now)) roots.now }
    requires some { 0 < searches }
    requires few { searches ≤ 64 }
    ensures run { IfOk result (λ groups. IsScheduled (O.lists opener.now) roots.now searches seed (lists_of groups.items)) }
    ensures legal { IfOk result (λ groups. IsLegalOrder (Calls (O.lists opener.now)) (lists_of groups.items)) }
    ensures complete { IfOk result (λ groups. IsComplete roots.now (lists_of groups.items)) }
    ensures reached { IfOk result (λ groups. (v : ℕ) → HasMember (lists_of groups.items) v
        → IsReached (Calls (O.lists opener.now)) roots.now v) }
{
    schedules_answer();
    let mut machine = Machine::make(alloc, opener, roots, searches)?;
    machine.keeps();
    let mut number = seed;
    let mut places = Vec::with_capacity(alloc, searches as usize)?;
    'turns: loop {
        list_actors(&machine, &mut places)?;
        if places.is_empty() {
            return Ok(machine.into_groups());
        }
        number = number_after(number);
        let place = pick(&places, number);
        take_turn(alloc, opener, &mut machine, place)?;
    }
}

/// Lets the place make one event. A node that it claims is expanded at once.
fn take_turn<O: Opener>(
    alloc: Global,
    opener: &O,
    machine: &mut Machine,
    place: u32,
) -> Result<(), AllocError>
    requires graph { machine.old.lists ≡ O.lists opener.now }
    requires sound { machine.old.failed ≡ false }
    requires can { CanAct machine.old.state place }
    ensures event { OnOk result (IsEvent (O.lists opener.now) place machine.old.state machine.new.state) }
    ensures only { OnOk result (machine.new ≡ record machine.old { state = machine.new.state }) }
    ensures falls { OnOk result (work machine.new.lists machine.new.state < work machine.old.lists machine.old.state) }
{
    machine.keeps();
    let node = match machine.act(place)? {
        Step::Done => return Ok(()),
        Step::Open(node) => node,
    };
    let mut succs = Vec::new(alloc);
    opener.expand(node, &mut succs)?;
    match machine.opened(alloc, place, Opening { node, succs }) {
        Ok(()) => Ok(()),
        Err((error, _opening)) => Err(error),
    }
}
