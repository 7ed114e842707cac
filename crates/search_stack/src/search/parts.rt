ghost use Rattle.std.specs.Prelude.{◌≡◌, ◌↔◌, IsTrue, ◌+◌, ◌≤◌, ℕ, Bool, true, List, Some, None, IfSome, IfNone};
ghost use Rattle.search_stack.specs.GoodSearch.{IsGood};
ghost use Rattle.search_stack.specs.Search.{IsCut, IsLastBegun, IsMoved, IsOn};
ghost use Rattle.search_stack.specs.Stack.{size, position as position_of};

use super::Search;
use crate::cut::{Cut, greatest_cut};
use crate::transfer::{last_begun, move_entries, move_frames};

impl Search {
    /// Where the search is cut for a node: the greatest frame, at or below that of the node's
    /// segment, such that no frame from it on has a low below its position. None if the node isn't
    /// on the stack.
    pub fn cut(&self, node: u32) -> Option<Cut>
        ensures none { IfNone result (IsOn self.now.stack node → ⊥) }
        ensures cut { IfSome result (λ cut. IsCut self.now.stack node cut.frame) }
        ensures position { IfSome result (λ cut. cut.position ≡ position_of self.now.stack cut.frame) }
    {
        let Some(place) = self.opened.get_index_of(&node) else {
            return None;
        };
        Some(greatest_cut(&self.frames, place as u32))
    }

    /// Whether the node is on the stack. It takes constant time.
    pub fn holds(&self, node: u32) -> bool
        ensures { IsTrue result ↔ IsOn self.now.stack node }
    {
        let Some(_) = self.opened.get_index_of(&node) else {
            return false;
        };
        true
    }

    /// Moves the part of the donor from the cut on top of this search. That part has the node that
    /// this search's last edge leads to.
    ///
    /// The donor keeps the rest, and waits for the last successor that its new top has begun.
    /// Without a rest it waits for nothing. It takes no memory.
    pub fn append(&mut self, donor: &mut Search, cut: Cut)
        requires last { (v : ℕ) × IsLastBegun self.old.stack v × IsCut donor.old.stack v cut.frame }
        requires position { cut.position ≡ position_of donor.old.stack cut.frame }
        requires room { size donor.old.stack ≤ self.old.spare + cut.position }
        requires apart { (v : ℕ) → IsOn self.old.stack v → IsOn donor.old.stack v → ⊥ }
        ensures moved { IsMoved self.old self.new donor.old donor.new cut.frame }

        // Well-formed searches stay so: this one with its last edge open, and the rest too.
        ensures good { (lists : List (List ℕ)) (roots done : List ℕ) (opened : Bool) → IsGood lists roots done true self.old.stack
            → IsGood lists roots done opened donor.old.stack → IsGood lists roots done true self.new.stack }
        ensures good_rest { (lists : List (List ℕ)) (roots done : List ℕ) (opened : Bool) → IsGood lists roots done opened donor.old.stack
            → IsGood lists roots done true donor.new.stack }
    {
        let base = self.opened.len() as u32;
        let count = donor.opened.len() as u32 - cut.position;
        move_entries(&mut self.opened, &mut donor.opened, cut.position as usize);
        move_frames(&mut self.frames, &mut donor.frames, cut, base);
        self.spare -= count;
        self.wanted = None;
        donor.wanted = last_begun(&donor.opened, &donor.frames);
    }

    /// The node that the search waits for, or none.
    pub fn wanted(&self) -> Option<u32>
        ensures { result ≡ self.now.wanted }
    {
        self.wanted
    }

    /// Makes the search wait for the node that the last edge of its top leads to.
    pub fn set_wanted(&mut self, on: u32)
        requires { IsLastBegun self.old.stack on }
        ensures { self.new ≡ record self.old { wanted = Some on } }
    {
        self.wanted = Some(on);
    }

    /// Makes the search wait for nothing.
    pub fn clear_wanted(&mut self)
        ensures { self.new ≡ record self.old { wanted = None } }
    {
        self.wanted = None;
    }
}
