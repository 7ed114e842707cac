//! A search of a whole graph, in arrays.

ghost use Rattle.std.specs.Prelude.{◌≡◌, ◌⊎◌, ◌↔◌, ◌+◌, ◌<◌, ◌≤◌, ℕ, Bool, true, false, is_some, List, [], ◌++◌, length, map, replicate};
ghost use Rattle.std.specs.Prelude.{slice_index_or, slice_set, Contains, IsTrue, IfOk, IfSome, IfNone, OnOk};
ghost use Rattle.graph_law.specs.Graph.{Calls};
ghost use Rattle.graph_law.specs.Reach.{IsReached};
ghost use Rattle.search_stack.specs.Stack.{IsShaped, size, height, top, position as position_of, low as low_of};
ghost use Rattle.search_stack.specs.GoodSearch.{IsGood};
ghost use Rattle.search_stack.specs.PlainSearch.{IsSeen, IsSettledBy};
ghost use Rattle.search_stack.specs.Search.{IsOn, IsLastBegun, IsDone, IsRipe, IsReleasable, empty_stack, pushed, next_successor};
ghost use Rattle.search_stack.specs.Search.{one_more_begun, retreated, below_frame, nodes_from};

use crate::frame::{Frame, top_frame};
use graph_law::stamp;
use std::alloc::{AllocError, Global};
use std::marker::Model;

/// The place of a node whose SCC was found. A node on the stack may have it too, if it is the last
/// of 2^32 - 1. No low is above that place, so an edge to either node leaves the low as it is.
pub(crate) const FOUND: u32 = u32::MAX;

/// A node on the stack. Its successors are `count` of one list, from `start` on, and the first ones
/// have begun.
#[derive(Clone, Copy)]
pub(crate) struct OpenNode {
    pub(crate) start: usize,
    pub(crate) count: usize,
    pub(crate) begun: usize,
    pub(crate) node: u32,
}

/// A depth-first search that meets each node of a graph once, between two steps. It isn't cut, and
/// waits for nothing, so a look-up of a node is one read.
///
/// Contracts see it as the stack of a `Search`, and for each node whether it was met.
#[derive(Drop)]
pub(crate) struct ArraySearch {
    /// For each node 0 before it is met, one more than its place on the stack, and then `FOUND`.
    places: Vec<u32>,
    nodes: Vec<OpenNode>,
    frames: Vec<Frame>,
    /// The successors of the nodes on the stack, in the order of the stack.
    succs: Vec<u32>,
}

impl Model for ArraySearch {
    ghost use Rattle.search_stack.specs.ArrayFields.{ArrayValue, IsArraySearch, value_in};

    ghost Value = { ArrayValue };

    ghost view = { value_in };

    ghost invariant = { IsArraySearch };
}

impl ArraySearch {
    /// A search with an empty stack. No node was met.
    pub(crate) fn make(alloc: Global, count: u32) -> Result<ArraySearch, AllocError>
        ensures { IfOk result (λ search. search ≡ record { stack = empty_stack; seen = replicate count false }) }
    {
        Ok(ArraySearch {
            places: vec![in alloc; 0u32; count as usize]?,
            nodes: Vec::with_capacity(alloc, count as usize)?,
            frames: Vec::with_capacity(alloc, count as usize)?,
            succs: Vec::new(alloc),
        })
    }

    /// Whether there is no node on the stack.
    pub(crate) fn is_empty(&self) -> bool
        ensures { IsTrue result ↔ (size self.now.stack ≡ 0) }
    {
        self.nodes.is_empty()
    }

    /// Whether the node was met.
    pub(crate) fn has_met(&self, node: u32) -> bool
        requires { node < length self.now.seen }
        ensures { result ≡ slice_index_or self.now.seen node false }
    {
        self.places[node as usize] != 0
    }

    /// Pushes a node that wasn't met, with none of its successors begun, and a frame for it.
    pub(crate) fn push(&mut self, node: u32, list: &[u32]) -> Result<(), AllocError>
        requires below { node < length self.old.seen }
        requires unmet { slice_index_or self.old.seen node false ≡ false }
        requires led { (size self.old.stack ≡ 0) ⊎ IsLastBegun self.old.stack node }
        ensures pushed { OnOk result (self.new.stack ≡ pushed self.old.stack node list.now) }
        ensures met { OnOk result (self.new.seen ≡ slice_set self.old.seen node true) }
        ensures good { OnOk result ((lists : List (List ℕ)) (roots done : List ℕ) → IsGood lists roots done true self.old.stack
            → list.now ≡ slice_index_or lists node []
            → (size self.old.stack ≡ 0 → IsReached (Calls lists) roots node)
            → IsGood lists roots done false self.new.stack) }
    {
        self.nodes.reserve(1)?;
        self.frames.reserve(1)?;
        let start = self.succs.len();
        self.succs.extend_from_slice(list)?;
        let position = self.nodes.len() as u32;
        let count = list.len();
        self.nodes
            .push(OpenNode {
                start,
                count,
                begun: 0,
                node,
            })
            .unwrap();
        self.frames
            .push(Frame {
                position,
                low: position,
            })
            .unwrap();
        self.places[node as usize] = position + 1;
        Ok(())
    }

    /// The next successor of the top frame's node, which counts as begun then. None if all have
    /// begun.
    pub(crate) fn begin(&mut self) -> Option<u32>
        requires some { 0 < size self.old.stack }
        ensures next { result ≡ next_successor self.old.stack }
        ensures begun { IfSome result (λ _. self.new
            ≡ record self.old { stack = one_more_begun self.old.stack (position_of self.old.stack (top self.old.stack)) }) }
        ensures last { IfSome result (IsLastBegun self.new.stack) }
        ensures unchanged { IfNone result (self.new ≡ self.old) }
        ensures done { IfNone result (IsDone self.new.stack) }
        ensures good { (lists : List (List ℕ)) (roots done : List ℕ) → IsGood lists roots done false self.old.stack
            → IsGood lists roots done (is_some result) self.new.stack }
    {
        let position = top_frame(&self.frames).position as usize;
        let entry = self.nodes[position];
        if entry.begun == entry.count {
            return None;
        }
        self.nodes[position].begun = entry.begun + 1;
        Some(self.succs[entry.start + entry.begun])
    }

    /// Settles the last edge that has begun, which leads to a node that was met. If the node is on
    /// the stack, the low of the top becomes its place if that is less.
    pub(crate) fn back(&mut self, node: u32)
        requires last { IsLastBegun self.old.stack node }
        requires met { IsSeen self.old.seen node }
        ensures settled { IsSettledBy self.old.stack node self.new.stack }
        ensures seen { self.new.seen ≡ self.old.seen }
        ensures good { (lists : List (List ℕ)) (roots done : List ℕ) → IsGood lists roots done true self.old.stack
            → IsOn self.old.stack node ⊎ Contains done node
            → IsGood lists roots done false self.new.stack }
    {
        let place = self.places[node as usize] - 1;
        let top = self.frames.len() - 1;
        let frame = &mut self.frames[top];
        frame.low = frame.low.min(place);
    }

    /// Whether the top segment is an SCC (ripe): its low is its position.
    pub(crate) fn is_ripe(&self) -> bool
        requires { IsDone self.now.stack }
        ensures ripe { IsTrue result ↔ IsRipe self.now.stack }
        ensures shaped { IsShaped self.now.stack }
    {
        let frame = top_frame(&self.frames);
        frame.low == frame.position
    }

    /// Joins the top segment to the one below, whose low becomes the lesser of both.
    pub(crate) fn retreat(&mut self)
        requires two { 2 ≤ height self.old.stack }
        requires done { IsDone self.old.stack }
        requires low { low_of self.old.stack (top self.old.stack) < position_of self.old.stack (top self.old.stack) }
        ensures retreated { self.new ≡ record self.old { stack = retreated self.old.stack } }
        ensures good { (lists : List (List ℕ)) (roots done : List ℕ) → IsGood lists roots done false self.old.stack
            → IsGood lists roots done false self.new.stack }
    {
        let top = self.frames.len() - 1;
        let joined = self.frames[top];
        self.frames.truncate(top);
        let frame = &mut self.frames[top - 1];
        frame.low = frame.low.min(joined.low);
    }

    /// Removes the top segment, and returns its nodes in the order of the stack.
    pub(crate) fn take_ripe(&mut self, alloc: Global) -> Result<Vec<u32>, AllocError>
        requires { IsRipe self.old.stack }
        ensures group { IfOk result (λ group. group.items ≡ nodes_from self.old.stack (top self.old.stack)) }
        ensures taken { OnOk result (self.new ≡ record self.old { stack = below_frame self.old.stack (top self.old.stack) }) }
        ensures releasable { IfOk result (λ group. (lists : List (List ℕ)) (roots done : List ℕ)
            → IsGood lists roots done false self.old.stack → IsReleasable lists roots done group.items) }
        ensures good { IfOk result (λ group. (lists : List (List ℕ)) (roots done : List ℕ)
            → IsGood lists roots done false self.old.stack → IsGood lists roots (done ++ group.items) false self.new.stack) }
    {
        let top = self.frames.len() - 1;
        let frame = self.frames[top];
        let position = frame.position as usize;
        let first = self.nodes[position];
        let group = nodes_in(alloc, &self.nodes[position..])?;
        stamp(&mut self.places, &group, FOUND);
        self.succs.truncate(first.start);
        self.nodes.truncate(position);
        self.frames.truncate(top);
        Ok(group)
    }
}

fn nodes_in(alloc: Global, each: &[OpenNode]) -> Result<Vec<u32>, AllocError>
    ensures { IfOk result (λ nodes. nodes.items ≡ map (λ it. it.node) each.now) }
{
    each.iter().map(|it| it.node).collect(alloc)
}
