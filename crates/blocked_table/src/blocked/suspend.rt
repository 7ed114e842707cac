ghost use Rattle.std.specs.Prelude.{◌≡◌, ◌≤◌, ℕ, List, None, Some, IfOk, IfErr};
ghost use Rattle.blocked_table.specs.Kept.{ComesTo};
ghost use Rattle.blocked_table.specs.Suspending.{Adds, AreGood, AreGoodForSome, CanWait, HasRoomFor, IsSuspended, StaysGood};

use super::Blocked;
use crate::suspended::Suspended;
use crate::words::{write_first, write_words};
use search_stack::Search;
use std::alloc::AllocError;

impl Blocked {
    /// Suspends a search until the node that its last edge leads to is finished. If the search
    /// would then wait for itself, the searches on this cycle are merged into it instead: each is
    /// cut at the node of it that is waited for, the upper parts come on top of the search in that
    /// order, and the edge at the end is treated as a back edge. If out of memory, the search is
    /// returned and all stays as it was.
    ///
    /// The first search that is suspended takes time linear in the number of nodes and slots, since
    /// their words are written then.
    pub fn suspend(
        &mut self,
        mut search: Search,
        on: u32,
    ) -> Result<Suspended, (AllocError, Search)>
        requires can_wait { CanWait self.old.kept search on }
        requires room { HasRoomFor self.old search.stack on }
        requires good { AreGoodForSome self.old.kept search.stack }
        ensures only { self.new ≡ record self.old { kept = self.new.kept } }
        ensures done { IfOk result (IsSuspended self.old.kept self.new.kept search on) }
        ensures kept { IfErr result (λ failed. self.new ≡ self.old) }
        ensures back { IfErr result (λ failed. failed.1.stack ≡ search.stack) }
        ensures back_wants { IfErr result (λ failed. failed.1.wanted ≡ None) }
        ensures back_room { IfErr result (λ failed. search.spare ≤ failed.1.spare) }

        // All searches keep their invariant.
        ensures good { IfOk result (λ suspended. (lists : List (List ℕ)) (roots done : List ℕ)
            → AreGood lists roots done self.old.kept search.stack → StaysGood lists roots done self.new.kept suspended) }
    {
        let alloc = *self.holders.allocator();
        let mut places = Vec::new(alloc);
        let found = match self.walk(&search, on, &mut places) {
            Ok(found) => found,
            Err(error) => return Err((error, search)),
        };
        let Some(way) = found else {
            self.keep(search, on)?;
            return Ok(Suspended::Kept);
        };
        if let Err(error) = search.reserve(way.entries) {
            return Err((error, search));
        }
        self.transfer(&mut search, on, &places, way.end);
        Ok(Suspended::Moved(search))
    }

    /// Puts the search into a vacant slot, where it waits for a node. For the first one the words of
    /// all nodes and slots are written. If out of memory, the search is returned and all stays as it
    /// was.
    fn keep(&mut self, mut search: Search, on: u32) -> Result<(), (AllocError, Search)>
        requires can_wait { CanWait self.old.kept search on }
        requires room { HasRoomFor self.old search.stack on }
        requires never { ComesTo self.old.kept search.stack on → ⊥ }
        ensures only { self.new ≡ record self.old { kept = self.new.kept } }
        ensures kept { IfOk result (λ done. (place : ℕ) × Adds self.old.kept self.new.kept place (record search { wanted = Some on })) }
        ensures unchanged { IfErr result (λ failed. self.new ≡ self.old) }
        ensures back { IfErr result (λ failed. failed.1 ≡ search) }
    {
        match write_first(
            &self.kept,
            &mut self.holders,
            &mut self.waiters,
            self.count,
            self.most,
        ) {
            Ok(()) => {}
            Err(error) => return Err((error, search)),
        }
        search.set_wanted(on);
        let Some(place) = self.vacant.pop() else {
            let place = self.kept.len() as u32;
            write_words(&mut self.holders, &search, 0, place + 1);
            self.waiters.add(place, on);
            self.kept.push(Some(search)).unwrap();
            return Ok(());
        };
        write_words(&mut self.holders, &search, 0, place + 1);
        self.waiters.add(place, on);
        self.kept[place as usize] = Some(search);
        Ok(())
    }
}
