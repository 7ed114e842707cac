ghost use Rattle.std.specs.Prelude.{◌≡◌, ℕ, true, false, None};
ghost use Rattle.search_stack.specs.Search.{IsDone};
ghost use Rattle.search_stack.specs.Stack.{Stack};
ghost use Rattle.blocked_table.specs.Blocked.{HasReady};
ghost use Rattle.search_machine.specs.Events.{IsIdle, Runs};
ghost use Rattle.search_machine.specs.Machine.{Acts, IsActed, IsBegun};
ghost use Rattle.search_machine.specs.Runs.{HasMore};

use super::Machine;
use crate::step::Step;
use blocked_table::Suspended;
use std::alloc::AllocError;

impl Machine {
    /// An idle place takes a ready search, or otherwise the next root. If the root isn't claimed
    /// yet, it claims it and waits until it is expanded.
    pub(crate) fn start(&mut self, place: u32) -> Step
        requires sound { self.old.failed ≡ false }
        requires idle { IsIdle self.old.state place }
        requires more { HasMore self.old.state }
        ensures { Acts self.old self.new result place }
    {
        let at = place as usize;
        if let Some(search) = self.book.take_ready() {
            self.running[at] = Some(search);
            return Step::Done;
        }
        let root = self.book.roots()[self.given];
        self.given += 1;
        if self.claimed[root as usize] {
            return Step::Done;
        }
        self.claimed[root as usize] = true;
        self.waiting[at] = Some(root);
        Step::Open(root)
    }

    /// Begins an edge of the top of the search at the place. If it leads to a claimed node, it
    /// settles the edge. None if all edges have begun, and then nothing changes.
    pub(crate) fn begin_edge(&mut self, place: u32) -> Result<Option<Step>, AllocError>
        requires sound { self.old.failed ≡ false }
        requires runs { (stack : Stack) × Runs self.old.state place stack }
        ensures { IsBegun self.old self.new place result }
    {
        let at = place as usize;
        let Some(mut search) = self.running[at].take() else {
            return Ok(None);
        };
        let Some(node) = search.begin() else {
            self.running[at] = Some(search);
            return Ok(None);
        };
        if !self.claimed[node as usize] {
            self.claimed[node as usize] = true;
            self.waiting[at] = Some(node);
            self.running[at] = Some(search);
            return Ok(Some(Step::Open(node)));
        }
        if search.back(node) {
            self.running[at] = Some(search);
            return Ok(Some(Step::Done));
        }
        if self.book.released().holds(node) {
            self.running[at] = Some(search);
            return Ok(Some(Step::Done));
        }
        match self.book.suspend(search, node) {
            Ok(Suspended::Kept) => Ok(Some(Step::Done)),
            Ok(Suspended::Moved(after)) => {
                self.running[at] = Some(after);
                Ok(Some(Step::Done))
            }
            Err((error, back)) => {
                self.running[at] = Some(back);
                self.book.fail();
                Err(error)
            }
        }
    }

    /// Releases the top segment of the search at the place if it is complete (ripe), and otherwise
    /// joins it to the one below.
    pub(crate) fn finish_top(&mut self, place: u32) -> Result<Step, AllocError>
        requires sound { self.old.failed ≡ false }
        requires runs { (stack : Stack) × Runs self.old.state place stack × IsDone stack }
        ensures { IsActed self.old self.new place result }
    {
        let at = place as usize;
        let Some(mut search) = self.running[at].take() else {
            return Ok(Step::Done);
        };
        if !search.is_ripe() {
            search.retreat();
            self.running[at] = Some(search);
            return Ok(Step::Done);
        }
        let group = match search.take_ripe() {
            Ok(group) => group,
            Err(error) => {
                self.running[at] = Some(search);
                self.book.fail();
                return Err(error);
            }
        };
        self.book.release(group);
        if search.is_empty() {
            return Ok(Step::Done);
        }
        self.running[at] = Some(search);
        Ok(Step::Done)
    }
}
