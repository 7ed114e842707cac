ghost use Rattle.std.specs.Prelude.{◌≡◌, ◌⊎◌, ◌+◌, ◌<◌, ◌≤◌, ℕ, true, None, Contains, IfOk, IfErr, IfSome, IfNone};
ghost use Rattle.list_laws.specs.Counts.{times, flat};
ghost use Rattle.graph_law.specs.Classes.{HasMember};
ghost use Rattle.search_stack.specs.GoodSearch.{IsGood};
ghost use Rattle.search_stack.specs.Search.{IsReleasable};
ghost use Rattle.blocked_table.specs.Blocked.{HasReady, IsTaken, IsWoken};
ghost use Rattle.blocked_table.specs.Kept.{Holds};
ghost use Rattle.blocked_table.specs.Suspending.{CanWait, IsSuspended};
ghost use Rattle.group_release.specs.Book.{GoesOnBeside, RunsBeside, released_of};
ghost use Rattle.group_release.specs.Outline.{kept_nodes, newly_wanted, nodes_going, nodes_on, wanted_nodes};
ghost use Rattle.group_release.specs.Released.{IsAppended, IsNewGroup};

use super::Book;
use blocked_table::Suspended;
use search_stack::Search;
use std::alloc::AllocError;

impl Book {
    /// Suspends a search until the node is finished that its last edge leads to. If it may continue
    /// with what it waited for, it is returned instead, as `Blocked::suspend` does. If memory runs
    /// out, the search is returned and nothing changes.
    pub fn suspend(&mut self, search: Search, on: u32) -> Result<Suspended, (AllocError, Search)>
        requires can_wait { CanWait self.old.kept search on }
        requires unreleased { HasMember self.old.groups on → ⊥ }
        requires good { IsGood self.old.lists self.old.roots (flat self.old.groups) true search.stack }
        ensures only { IfOk result (λ _. self.new ≡ record self.old { kept = self.new.kept }) }
        ensures done { IfOk result (IsSuspended self.old.kept self.new.kept search on) }
        ensures beside { IfOk result (GoesOnBeside self.new) }
        ensures unchanged { IfErr result (λ _. self.new ≡ self.old) }
        ensures back { IfErr result (λ failed. failed.1.stack ≡ search.stack) }
        ensures back_wants { IfErr result (λ failed. failed.1.wanted ≡ None) }
        ensures back_room { IfErr result (λ failed. search.spare ≤ failed.1.spare) }

        // In counts: no node is lost or doubled. A node that is newly waited for is `on` or on the
        // search that continues.
        ensures kept_count { IfOk result (λ suspended. (x : ℕ) → times x (kept_nodes self.new.kept) + times x (nodes_going suspended)
            ≡ times x (kept_nodes self.old.kept) + times x (nodes_on search.stack)) }
        ensures wanted_count { IfOk result (λ suspended. (x : ℕ) → 0 < times x (wanted_nodes self.new.kept)
            → (0 < times x (wanted_nodes self.old.kept)) ⊎ (0 < times x (newly_wanted on suspended))) }
    {
        self.keeps();
        self.blocked.suspend(search, on)
    }

    /// Removes and returns a ready search, if there is one.
    pub fn take_ready(&mut self) -> Option<Search>
        ensures only { self.new ≡ record self.old { kept = self.new.kept } }
        ensures some { IfSome result (λ search. IsTaken self.old.kept self.new.kept search) }
        ensures beside { IfSome result (RunsBeside self.new) }
        ensures none { IfNone result (HasReady self.old.kept → ⊥) }
        ensures unchanged { IfNone result (self.new ≡ self.old) }

        // In counts: the nodes of the search leave the suspended ones, and the same nodes are
        // waited for.
        ensures kept_count { IfSome result (λ search. (x : ℕ)
            → times x (kept_nodes self.new.kept) + times x (nodes_on search.stack) ≡ times x (kept_nodes self.old.kept)) }
        ensures wanted_count { (x : ℕ) → times x (wanted_nodes self.new.kept) ≡ times x (wanted_nodes self.old.kept) }
    {
        self.keeps();
        self.blocked.take_ready()
    }

    /// Appends a finished group, with its members ascending, to the released ones. Each suspended
    /// search that waits for a node of it becomes ready.
    pub fn release(&mut self, group: Vec<u32>)
        requires new { IsNewGroup (released_of self.old) group.items }
        requires releasable { IsReleasable self.old.lists self.old.roots (flat self.old.groups) group.items }
        requires apart { (place v : ℕ) → Holds self.old.kept place v → Contains group.items v → ⊥ }
        ensures only { self.new ≡ record self.old { kept = self.new.kept; groups = self.new.groups } }
        ensures appended { IsAppended (released_of self.old) group.items (released_of self.new) }
        ensures woken { IsWoken group.items self.old.kept self.new.kept }

        // In counts: the nodes of the group are released, the suspended ones stay, and no other
        // node is waited for.
        ensures released_count { (x : ℕ) → times x (flat self.new.groups) ≡ times x (flat self.old.groups) + times x group.items }
        ensures kept_nodes { kept_nodes self.new.kept ≡ kept_nodes self.old.kept }
        ensures wanted_count { (x : ℕ) → times x (wanted_nodes self.new.kept) ≤ times x (wanted_nodes self.old.kept) }
    {
        self.blocked.wake(&group);
        self.released.append(group);
    }
}
