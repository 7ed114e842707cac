ghost use Rattle.std.specs.Prelude.{◌≡◌, false, OnOk};
ghost use Rattle.search_machine.specs.Runs.{AreActors};

use crate::Machine;
use std::alloc::AllocError;

/// Fills `places` with the places that can act, ascending.
pub(crate) fn list_actors(machine: &Machine, places: &mut Vec<u32>) -> Result<(), AllocError>
    requires { machine.now.failed ≡ false }
    ensures { OnOk result (AreActors machine.now.state places.new.items) }
{
    places.clear();
    'places: for place in 0..machine.places() {
        if !machine.can_act(place) {
            continue;
        }
        places.push(place)?;
    }
    Ok(())
}
