ghost use Rattle.std.specs.Prelude.{◌≡◌, ℕ, List, true, false, Some, Contains};
ghost use Rattle.search_stack.specs.Search.{SearchValue, IsGoodSearch};
ghost use Rattle.blocked_table.specs.Blocked.{IsWoken};
ghost use Rattle.blocked_table.specs.Kept.{kept_at};
ghost use Rattle.blocked_table.specs.Waking.{AreSomeWoken, IsOneWoken, IsUnwanted};

use super::Blocked;

impl Blocked {
    /// Makes ready each suspended search that waits for a node of the group. It takes a step for
    /// each node of the group and for each search that becomes ready.
    pub fn wake(&mut self, group: &[u32])
        ensures only { self.new ≡ record self.old { kept = self.new.kept } }
        ensures woken { IsWoken group.now self.old.kept self.new.kept }

        // Suspended searches keep their invariant if the group is finished now.
        ensures good { (lists : List (List ℕ)) (roots done more : List ℕ)
            → ((place : ℕ) (search : SearchValue) → kept_at self.old.kept place ≡ Some search → IsGoodSearch lists roots done search)
            → ((v : ℕ) → Contains done v → Contains more v) → ((v : ℕ) → Contains group.now v → Contains more v)
            → (place : ℕ) (search : SearchValue) → kept_at self.new.kept place ≡ Some search → IsGoodSearch lists roots more search }
    {
        'nodes: for &node in group {
            self.wake_node(node);
        }
    }

    /// Makes ready each suspended search that waits for the node.
    fn wake_node(&mut self, node: u32)
        ensures only { self.new ≡ record self.old { kept = self.new.kept } }
        ensures woken { AreSomeWoken (λ w. w ≡ node) self.old.kept self.new.kept }
        ensures none { IsUnwanted self.new.kept node }
    {
        'places: while self.wake_one(node) {}
    }

    /// Makes ready one suspended search that waits for the node. Returns whether there was one.
    fn wake_one(&mut self, node: u32) -> bool
        ensures only { self.new ≡ record self.old { kept = self.new.kept } }
        ensures woken { result ≡ true → IsOneWoken node self.old.kept self.new.kept }
        ensures none { result ≡ false → IsUnwanted self.old.kept node }
        ensures unchanged { result ≡ false → self.new ≡ self.old }
    {
        let Some(place) = self.waiters.first(node) else {
            return false;
        };
        let Some(mut search) = self.kept[place as usize].take() else {
            return false;
        };
        search.clear_wanted();
        self.kept[place as usize] = Some(search);
        self.waiters.remove(place);
        self.ready.push(place).unwrap();
        true
    }
}
