ghost use Rattle.std.specs.Prelude.{◌≡◌, ◌↔◌, ◌<◌, ℕ, true, false, None, length, replicate, All, IfOk, IfErr, IsTrue};
ghost use Rattle.graph_law.specs.Graph.{lists_of};
ghost use Rattle.search_machine.specs.Machine.{IsStep, Stops};
ghost use Rattle.search_machine.specs.Runs.{CanAct, opening_state};
ghost use Rattle.search_machine.specs.State.{IsGoodState};

use crate::step::Step;
use graph_law::Opener;
use group_release::{Book, Released};
use search_stack::Search;
use std::alloc::{AllocError, Global};
use std::marker::Model;

mod act;
mod open;

/// Many searches of one graph, each at a place, which take turns on one thread.
///
/// Contracts see it with the graph and the roots that it was made with, whether it has failed, and
/// the state of its searches. The state always satisfies its invariant.
#[derive(Drop)]
pub struct Machine {
    book: Book,
    given: usize,
    running: Vec<Option<Search>>,
    waiting: Vec<Option<u32>>,
    claimed: Vec<bool>,
}

impl Model for Machine {
    ghost use Rattle.search_machine.specs.Machine.{MachineValue};

    ghost Value = { MachineValue };

    ghost use Rattle.search_machine.specs.MachineFields.{value_of, IsMachine};

    ghost view = { value_of };

    ghost invariant = { IsMachine };
}

impl Machine {
    /// All places are idle, nothing is claimed, and all roots are to come.
    pub fn make<O: Opener>(
        alloc: Global,
        opener: &O,
        roots: &[u32],
        places: u32,
    ) -> Result<Machine, AllocError>
        requires { All (λ root. root < length (O.lists opener.now)) roots.now }
        ensures { IfOk result (λ machine. machine ≡ record {
          lists = O.lists opener.now;
          roots = roots.now;
          failed = false;
          state = opening_state (length (O.lists opener.now)) roots.now places;
        }) }
    {
        let count = opener.count();
        Ok(Machine {
            book: Book::make(alloc, opener, roots)?,
            given: 0,
            running: no_searches(alloc, places as usize)?,
            waiting: vec![in alloc; None; places as usize]?,
            claimed: vec![in alloc; false; count as usize]?,
        })
    }

    /// Whether the place can act and the machine hasn't failed. The place waits for no node to be
    /// expanded. It has a search, or it is idle while there is a ready search or a root to take.
    pub fn can_act(&self, place: u32) -> bool
        ensures { IsTrue result ↔ ((self.now.failed ≡ false) × CanAct self.now.state place) }
    {
        if self.book.has_failed() {
            return false;
        }
        let Some(waiting) = self.waiting.get(place as usize) else {
            return false;
        };
        if waiting.is_some() {
            return false;
        }
        if self.running[place as usize].is_some() {
            return true;
        }
        if self.book.has_ready() {
            return true;
        }
        self.given < self.book.roots().len()
    }

    /// Lets a place act that can: it makes one event, or claims a node and waits until it is
    /// expanded. If memory runs out the machine has failed, and at most the edge that the place has
    /// begun is new.
    pub fn act(&mut self, place: u32) -> Result<Step, AllocError>
        requires sound { self.old.failed ≡ false }
        requires can { CanAct self.old.state place }
        ensures step { IfOk result (λ step. IsStep step place self.old.state self.new.state) }
        ensures only { IfOk result (λ _. self.new ≡ record self.old { state = self.new.state }) }
        ensures stopped { IfErr result (λ _. Stops self.old.state place self.new.state) }
        ensures failed { IfErr result (λ _. self.new ≡ record self.old { failed = true; state = self.new.state }) }
    {
        if self.running[place as usize].is_none() {
            return Ok(self.start(place));
        }
        match self.begin_edge(place)? {
            Some(step) => Ok(step),
            None => self.finish_top(place),
        }
    }

    /// Marks the machine as failed: no place can act any more.
    pub fn fail(&mut self)
        ensures { self.new ≡ record self.old { failed = true } }
    {
        self.book.fail();
    }

    /// Whether the machine has failed.
    pub fn has_failed(&self) -> bool
        ensures { result ≡ self.now.failed }
    {
        self.book.has_failed()
    }

    /// The released groups, in the order of their release.
    pub fn released(&self) -> &Released
        ensures { result.now ≡ record { count = length self.now.lists; groups = self.now.state.groups } }
    {
        self.book.released()
    }

    /// How many places there are.
    pub fn places(&self) -> u32
        ensures { result ≡ length self.now.state.running }
    {
        self.running.len() as u32
    }

    /// The roots that the machine was made with.
    pub fn roots(&self) -> &[u32]
        ensures { result.now ≡ self.now.roots }
    {
        self.book.roots()
    }

    /// The invariant of each machine. The function does nothing, and is called for what it ensures.
    pub fn keeps(&self)
        ensures { IsGoodState self.now.lists self.now.roots self.now.failed self.now.state }
    {
        let _waiting = &self.waiting;
    }

    /// The released groups, in the order of their release.
    pub fn into_groups(self) -> Vec<Vec<u32>>
        ensures { lists_of result.items ≡ self.state.groups }
    {
        self.book.into_groups()
    }
}

/// `places` places without a search.
fn no_searches(alloc: Global, places: usize) -> Result<Vec<Option<Search>>, AllocError>
    ensures { IfOk result (λ made. made.items ≡ replicate places None) }
{
    let mut searches = Vec::new(alloc);
    'places: for _place in 0..places {
        searches.push(None)?;
    }
    Ok(searches)
}
