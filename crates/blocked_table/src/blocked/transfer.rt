ghost use Rattle.std.specs.Prelude.{◌≡◌, ◌+◌, ◌<◌, ◌≤◌, ℕ, List, [], true, false, None, Some, IfOk, IfSome, IfNone};
ghost use Rattle.search_stack.specs.Stack.{size};
ghost use Rattle.search_stack.specs.Search.{SearchValue, IsLastBegun, IsOn};
ghost use Rattle.blocked_table.specs.declared.suspended.Suspended.TheVariants.{Moved};
ghost use Rattle.blocked_table.specs.Transfer.{IsTransfer};
ghost use Rattle.blocked_table.specs.Blocked.{IsTable};
ghost use Rattle.blocked_table.specs.Kept.{kept_at, Holds, ComesTo};
ghost use Rattle.blocked_table.specs.Paths.{StepsAt, IsWaitPath};
ghost use Rattle.blocked_table.specs.Suspending.{AreGood, AreGoodForSome, CanWait, IsPartOnTop, StaysGood, entries_of};

use super::Blocked;
use crate::way::Way;
use crate::words::write_words;
use search_stack::Search;
use std::alloc::AllocError;

impl Blocked {
    /// Follows what searches wait for, from a node to a node of the search, and pushes the slots of
    /// the searches on the way. None if the chain doesn't lead to the search. If the searches have
    /// 2^32 entries or more together, that is reported as out of memory.
    pub(crate) fn walk(
        &self,
        search: &Search,
        on: u32,
        places: &mut Vec<u32>,
    ) -> Result<Option<Way>, AllocError>
        requires empty { places.old.items ≡ [] }
        requires apart { (place v : ℕ) → Holds self.now.kept place v → IsOn search.now.stack v → ⊥ }
        ensures path { IfOk result (λ found. IfSome found (λ way. IsWaitPath self.now.kept on places.new.items way.end)) }
        ensures back { IfOk result (λ found. IfSome found (λ way. IsOn search.now.stack way.end)) }
        ensures entries { IfOk result (λ found. IfSome found (λ way. way.entries ≡ entries_of self.now.kept places.new.items)) }
        ensures never { IfOk result (λ found. IfNone found (ComesTo self.now.kept search.now.stack on → ⊥)) }
        ensures table { IsTable self.now }
    {
        let mut node = on;
        let mut entries = 0u32;
        'walk: while !search.holds(node) {
            let Some(place) = self.holder(node) else {
                return Ok(None);
            };
            let Some(keeper) = &self.kept[place as usize] else {
                return Ok(None);
            };
            let Some(wanted) = keeper.wanted() else {
                return Ok(None);
            };
            entries = entries.checked_add(keeper.len()).ok_or(AllocError)?;
            places.push(place)?;
            node = wanted;
        }
        Ok(Some(Way { end: node, entries }))
    }

    /// Cuts the search in a slot at the node, and puts its upper part on top of another search. The
    /// rest stays suspended and waits for the last node that its top has begun. If nothing is left,
    /// the slot is vacant. Returns the node that the search in the slot waited for.
    pub(crate) fn move_part(&mut self, search: &mut Search, place: u32, node: u32) -> u32
        requires step { (x : ℕ) × StepsAt self.old.kept node place x }
        requires last { IsLastBegun search.old.stack node }
        requires apart { (i v : ℕ) → Holds self.old.kept i v → IsOn search.old.stack v → ⊥ }
        requires good { AreGoodForSome self.old.kept search.old.stack }
        requires room { (donor : SearchValue) → kept_at self.old.kept place ≡ Some donor → size donor.stack ≤ search.old.spare }
        ensures only { self.new ≡ record self.old { kept = self.new.kept } }
        ensures moved { IsPartOnTop self.old.kept self.new.kept search.old search.new node place result }
    {
        let Some(mut donor) = self.kept[place as usize].take() else {
            return node;
        };
        let Some(wanted) = donor.wanted() else {
            return node;
        };
        let Some(cut) = donor.cut(node) else {
            return node;
        };
        write_words(&mut self.holders, &donor, cut.position, 0);
        search.append(&mut donor, cut);
        self.waiters.remove(place);
        let Some(wants) = donor.wanted() else {
            self.vacant.push(place).unwrap();
            return wanted;
        };
        self.waiters.add(place, wants);
        self.kept[place as usize] = Some(donor);
        wanted
    }

    /// Moves the upper parts of the searches in these slots on top of a search, one after another,
    /// and treats the edge at the end as a back edge.
    pub(crate) fn transfer(&mut self, search: &mut Search, on: u32, places: &[u32], end: u32)
        requires table { IsTable self.old }
        requires path { IsWaitPath self.old.kept on places.now end }
        requires back { IsOn search.old.stack end }
        requires room { entries_of self.old.kept places.now ≤ search.old.spare }
        requires can_wait { CanWait self.old.kept search.old on }
        requires good { AreGoodForSome self.old.kept search.old.stack }
        ensures only { self.new ≡ record self.old { kept = self.new.kept } }
        ensures moved { IsTransfer self.old.kept self.new.kept search.old.stack on search.new.stack }
        ensures wants_nothing { search.new.wanted ≡ None }
        ensures good { (lists : List (List ℕ)) (roots done : List ℕ) → AreGood lists roots done self.old.kept search.old.stack
            → StaysGood lists roots done self.new.kept (Moved search.new) }
    {
        let mut node = on;
        'parts: for &place in places {
            node = self.move_part(search, place, node);
        }
        search.back(node);
    }
}
