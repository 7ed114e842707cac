ghost use Rattle.std.specs.Prelude.{◌≡◌, ◌⊎◌, ◌↔◌, ◌+◌, ◌-◌, ◌<◌, ◌≤◌, ℕ, Bool, true, false, is_some, List, [], ◌++◌, slice_index_or, Contains, IsOk};
ghost use Rattle.std.specs.Prelude.{IsTrue, IfOk, IfSome, IfNone, OnOk, OnErr};
ghost use Rattle.std.specs.Bool.{OnFalse};
ghost use Rattle.graph_law.specs.Graph.{Calls};
ghost use Rattle.graph_law.specs.Reach.{IsReached};
ghost use Rattle.search_stack.specs.Stack.{Stack, IsShaped, size, height, top, node as node_on, position as position_of, low as low_of};
ghost use Rattle.search_stack.specs.GoodSearch.{IsGood};
ghost use Rattle.search_stack.specs.Search.{IsOn, IsDistinct, IsLastBegun, IsDone, IsRipe, IsReleasable, empty_stack, pushed, next_successor};
ghost use Rattle.search_stack.specs.Search.{one_more_begun, lowered, retreated, below_frame, nodes_from};

use crate::frame::{Frame, top_frame};
use crate::node_hasher::NodeHasher;
use crate::opening::Opening;
use indexmap::IndexMap;
use std::alloc::{AllocError, Global};
use std::hash::BuildHasherDefault;
use std::marker::Model;

mod parts;

/// The successors of a node on the stack, of which the first ones have begun.
#[derive(Drop)]
pub(crate) struct Opened {
    pub(crate) succs: Vec<u32>,
    pub(crate) begun: usize,
}

/// A depth-first search between two steps.
///
/// Contracts see it as a stack, a node that it waits for or none, and a spare capacity in entries.
/// The stack has entries (a node, its successors, how many have begun) and frames (a position, a
/// low). A segment is from the position of a frame up to that of the next one. No node is on it
/// twice.
#[derive(Drop)]
pub struct Search {
    opened: IndexMap<u32, Opened, BuildHasherDefault<NodeHasher>>,
    frames: Vec<Frame>,
    wanted: Option<u32>,
    spare: u32,
}

impl Model for Search {
    ghost use Rattle.search_stack.specs.Search.{SearchValue};

    ghost Value = { SearchValue };

    ghost use Rattle.search_stack.specs.Fields.{value_of, IsSearch};

    ghost view = { value_of };

    ghost invariant = { IsSearch };
}

impl Search {
    /// A search with an empty stack. It takes no memory.
    pub fn empty(alloc: Global) -> Search
        ensures { result ≡ record { stack = empty_stack; wanted = None; spare = 0 } }
    {
        Search {
            opened: IndexMap::with_hasher(alloc, BuildHasherDefault::new()),
            frames: Vec::new(alloc),
            wanted: None,
            spare: 0,
        }
    }

    /// A search with an empty stack, with capacity for `room` entries.
    pub fn with_room(alloc: Global, room: u32) -> Result<Search, AllocError>
        ensures empty { IfOk result (λ search. search.stack ≡ empty_stack) }
        ensures wants_nothing { IfOk result (λ search. search.wanted ≡ None) }
        ensures spare { IfOk result (λ search. room ≤ search.spare) }
    {
        let mut search = Search::empty(alloc);
        search.reserve(room)?;
        Ok(search)
    }

    /// Reserves capacity for `more` entries. If that fails, nothing changes. It also fails if there
    /// would be 2^32 entries, which a `u32` doesn't count.
    pub fn reserve(&mut self, more: u32) -> Result<(), AllocError>
        ensures stack { self.new.stack ≡ self.old.stack }
        ensures wanted { self.new.wanted ≡ self.old.wanted }
        ensures ok { OnOk result (more ≤ self.new.spare) }
        ensures spare { self.old.spare ≤ self.new.spare }
        ensures err { OnErr result (self.new ≡ self.old) }
        ensures enough { more ≤ self.old.spare → IsOk result }
    {
        if more <= self.spare {
            return Ok(());
        }
        let count = self.opened.len() as u32;
        if more > u32::MAX - count {
            return Err(AllocError);
        }
        self.opened.reserve(more as usize)?;
        self.frames.reserve(more as usize)?;
        self.spare = more;
        Ok(())
    }

    /// Pushes a node with none of its successors begun, and a frame for it. It takes no memory.
    pub fn push(&mut self, opening: Opening)
        requires room { 0 < self.old.spare }
        requires wants_nothing { self.old.wanted ≡ None }
        requires fresh { IsOn self.old.stack opening.node → ⊥ }
        requires led { (size self.old.stack ≡ 0) ⊎ IsLastBegun self.old.stack opening.node }
        ensures pushed { self.new.stack ≡ pushed self.old.stack opening.node opening.succs.items }
        ensures wants_nothing { self.new.wanted ≡ None }
        ensures spare { self.old.spare ≤ self.new.spare + 1 }

        // A well-formed search whose edge to the node is open is well-formed again.
        ensures good { (lists : List (List ℕ)) (roots done : List ℕ) → IsGood lists roots done true self.old.stack
            → opening.succs.items ≡ slice_index_or lists opening.node []
            → (size self.old.stack ≡ 0 → IsReached (Calls lists) roots opening.node)
            → IsGood lists roots done false self.new.stack }
    {
        let Opening { node, succs } = opening;
        let position = self.opened.len() as u32;
        self.opened
            .insert(node, Opened { succs, begun: 0 })
            .unwrap();
        self.frames
            .push(Frame {
                position,
                low: position,
            })
            .unwrap();
        self.spare -= 1;
    }

    /// The next successor of the top frame's entry, which counts as begun then. None if all have
    /// begun.
    pub fn begin(&mut self) -> Option<u32>
        requires some { 0 < size self.old.stack }
        requires wants_nothing { self.old.wanted ≡ None }
        ensures next { result ≡ next_successor self.old.stack }
        ensures begun { IfSome result (λ _. self.new
            ≡ record self.old { stack = one_more_begun self.old.stack (position_of self.old.stack (top self.old.stack)) }) }
        ensures last { IfSome result (IsLastBegun self.new.stack) }
        ensures unchanged { IfNone result (self.new ≡ self.old) }
        ensures wants_nothing { self.new.wanted ≡ None }
        ensures done { IfNone result (IsDone self.new.stack) }

        // A well-formed search stays so, with the edge that has begun open.
        ensures good { (lists : List (List ℕ)) (roots done : List ℕ) → IsGood lists roots done false self.old.stack
            → IsGood lists roots done (is_some result) self.new.stack }
    {
        let position = top_frame(&self.frames).position as usize;
        let opened = &self.opened[position];
        if opened.begun == opened.succs.len() {
            return None;
        }
        let node = opened.succs[opened.begun];
        let opened = &mut self.opened[position];
        opened.begun += 1;
        Some(node)
    }

    /// Settles the last edge that has begun, which leads to `node`. True if the node is on the
    /// stack: then the low of the top becomes its position if that is less.
    pub fn back(&mut self, node: u32) -> bool
        requires some { 0 < size self.old.stack }
        requires wants_nothing { self.old.wanted ≡ None }
        requires last { IsLastBegun self.old.stack node }
        ensures on { IsTrue result ↔ IsOn self.old.stack node }
        ensures lowered { IsTrue result → (place : ℕ) → place < size self.old.stack → node_on self.old.stack place ≡ node
            → self.new ≡ record self.old { stack = lowered self.old.stack place } }
        ensures unchanged { OnFalse result (self.new ≡ self.old) }
        ensures wants_nothing { self.new.wanted ≡ None }

        // A well-formed search, with the edge open or not, is well-formed if the node is on the
        // stack or finished.
        ensures good { (lists : List (List ℕ)) (roots done : List ℕ) (opened : Bool)
            → IsGood lists roots done opened self.old.stack → IsTrue result ⊎ Contains done node
            → IsGood lists roots done false self.new.stack }
    {
        let Some(place) = self.opened.get_index_of(&node) else {
            return false;
        };
        let top = self.frames.len() - 1;
        let frame = &mut self.frames[top];
        frame.low = frame.low.min(place as u32);
        true
    }

    /// Whether the top segment is an SCC (ripe): its frame's entry has begun all its successors,
    /// and its low is its position.
    pub fn is_ripe(&self) -> bool
        ensures ripe { IsTrue result ↔ IsRipe self.now.stack }
        ensures shaped { IsShaped self.now.stack }
    {
        if self.frames.is_empty() {
            return false;
        }
        let frame = top_frame(&self.frames);
        let opened = &self.opened[frame.position as usize];
        if opened.begun != opened.succs.len() {
            return false;
        }
        frame.low == frame.position
    }

    /// Joins the top segment to the one below, whose low becomes the lesser of both.
    pub fn retreat(&mut self)
        requires two { 2 ≤ height self.old.stack }
        requires done { IsDone self.old.stack }
        requires low { low_of self.old.stack (top self.old.stack) < position_of self.old.stack (top self.old.stack) }
        ensures retreated { self.new ≡ record self.old { stack = retreated self.old.stack } }
        ensures good { (lists : List (List ℕ)) (roots done : List ℕ) → IsGood lists roots done false self.old.stack
            → IsGood lists roots done false self.new.stack }
    {
        let top = self.frames.len() - 1;
        let joined = self.frames[top];
        self.frames.truncate(top);
        let frame = &mut self.frames[top - 1];
        frame.low = frame.low.min(joined.low);
    }

    /// Removes the top segment, and returns its nodes in the order of the stack. If memory runs
    /// out, nothing changes.
    pub fn take_ripe(&mut self) -> Result<Vec<u32>, AllocError>
        requires { IsRipe self.old.stack }
        ensures group { IfOk result (λ group. group.items ≡ nodes_from self.old.stack (top self.old.stack)) }
        ensures taken { OnOk result (self.new ≡ record self.old { stack = below_frame self.old.stack (top self.old.stack) }) }
        ensures err { OnErr result (self.new ≡ self.old) }

        // The segment of a well-formed search may be released, and the rest is well-formed with it
        // finished.
        ensures releasable { IfOk result (λ group. (lists : List (List ℕ)) (roots done : List ℕ)
            → IsGood lists roots done false self.old.stack → IsReleasable lists roots done group.items) }
        ensures good { IfOk result (λ group. (lists : List (List ℕ)) (roots done : List ℕ)
            → IsGood lists roots done false self.old.stack → IsGood lists roots (done ++ group.items) false self.new.stack) }
    {
        let top = self.frames.len() - 1;
        let position = self.frames[top].position as usize;
        let alloc = *self.opened.allocator();
        let group = self.opened.keys().as_slice()[position..].to_vec(alloc)?;
        self.opened.truncate(position);
        self.frames.truncate(top);
        Ok(group)
    }

    /// The number of entries.
    pub fn len(&self) -> u32
        ensures len { result ≡ size self.now.stack }
        ensures distinct { IsDistinct self.now.stack }
    {
        self.opened.len() as u32
    }

    /// Whether there is no entry.
    pub fn is_empty(&self) -> bool
        ensures { IsTrue result ↔ (size self.now.stack ≡ 0) }
    {
        self.opened.is_empty()
    }

    /// For how many more entries there is capacity.
    pub fn spare(&self) -> u32
        ensures { result ≡ self.now.spare }
    {
        self.spare
    }

    /// The number of frames.
    pub fn frame_count(&self) -> u32
        ensures { result ≡ height self.now.stack }
    {
        self.frames.len() as u32
    }

    /// The node of the entry at a position.
    pub fn node_at(&self, position: u32) -> u32
        requires { position < size self.now.stack }
        ensures { result ≡ node_on self.now.stack position }
    {
        *self.opened.get_index(position as usize).unwrap().0
    }

    /// The frame at the index, from the lowest on.
    pub fn frame_at(&self, frame: u32) -> Frame
        requires { frame < height self.now.stack }
        ensures position { result.position ≡ position_of self.now.stack frame }
        ensures low { result.low ≡ low_of self.now.stack frame }
    {
        self.frames[frame as usize]
    }

    /// A search that is well-formed for some finished nodes is so for more of them.
    pub fn stays_good()
        ensures { (lists : List (List ℕ)) (roots done more : List ℕ) (opened : Bool) (stack : Stack)
            → IsGood lists roots done opened stack → ((v : ℕ) → Contains done v → Contains more v)
            → IsGood lists roots more opened stack }
    {}
}
