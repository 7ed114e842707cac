ghost use Rattle.std.specs.Prelude.{◌≡◌, ◌<◌, [], slice_index_or, option_and_then, true, None, Some, IfOk, IfErr};
ghost use Rattle.search_machine.specs.Events.{Opens, running_stack};
ghost use Rattle.search_machine.specs.State.{waiting_at};

use super::Machine;
use search_stack::{Opening, Search};
use std::alloc::{AllocError, Global};

impl Machine {
    /// Pushes the expanded node that the place waits for. If memory runs out, the opening is
    /// returned and the machine has failed. Nothing else changes then.
    pub fn opened(
        &mut self,
        alloc: Global,
        place: u32,
        opening: Opening,
    ) -> Result<(), (AllocError, Opening)>
        requires waits { waiting_at self.old.state place ≡ Some opening.node }
        requires successors { opening.succs.items ≡ slice_index_or self.old.lists opening.node [] }
        ensures opens { IfOk result (λ _. Opens self.old.lists self.old.state place opening.node self.new.state) }
        ensures only { IfOk result (λ _. self.new ≡ record self.old { state = self.new.state }) }
        ensures failed { IfErr result (λ _. self.new ≡ record self.old { failed = true }) }
        ensures back { IfErr result (λ failed. failed.1 ≡ opening) }
    {
        let at = place as usize;
        let there = self.running[at].take();
        let mut search = match with_room_for_one(alloc, there) {
            Ok(search) => search,
            Err((error, there)) => {
                self.running[at] = there;
                self.book.fail();
                return Err((error, opening));
            }
        };
        search.push(opening);
        self.waiting[at] = None;
        self.running[at] = Some(search);
        Ok(())
    }
}

/// The search with capacity for one more entry, or an empty one with it if there is none. If memory
/// runs out, what was there is returned.
fn with_room_for_one(
    alloc: Global,
    there: Option<Search>,
) -> Result<Search, (AllocError, Option<Search>)>
    ensures stack { IfOk result (λ search. search.stack ≡ running_stack there) }
    ensures wanted { IfOk result (λ search. search.wanted ≡ option_and_then (λ before. before.wanted) there) }
    ensures room { IfOk result (λ search. 0 < search.spare) }
    ensures back { IfErr result (λ failed. failed.1 ≡ there) }
{
    let Some(mut search) = there else {
        return match Search::with_room(alloc, 1) {
            Ok(search) => Ok(search),
            Err(error) => Err((error, None)),
        };
    };
    match search.reserve(1) {
        Ok(()) => Ok(search),
        Err(error) => Err((error, Some(search))),
    }
}
