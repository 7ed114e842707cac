//! Terms as one list of nodes, each after its parts.

ghost use Rattle.std.specs.Prelude.{◌≡◌, ◌≤◌, ◌<◌, ◌∷◌, ◌++◌, [], ℕ, List, Some, IfOk, OnOk, length, take, slice_get, MatchOption};
ghost use Rattle.prolog_terms.specs.declared.node.Node.{Node as NodeOf};
ghost use Rattle.prolog_terms.specs.declared.node.TheConstants.{MANY};
ghost use Rattle.prolog_terms.specs.Forest.{before_last, forest, last_of, node_tree, taken, without};
ghost use Rattle.prolog_terms.specs.Sized.{AreTerms, filled};
ghost use Rattle.prolog_terms.specs.Terms.{root_tree, tree_in};
ghost use Rattle.prolog_terms.specs.Views.{inside};

use crate::node::{MANY, NO_NODE, Node, Shape, part_count};
use crate::term::Span;
use std::alloc::{AllocError, Global};
use std::marker::Model;

/// Nodes, each after its parts and with its size, and how many adjacent terms they are. No term
/// takes parts from before the nodes.
#[derive(Drop)]
pub struct NodeList {
    list: Vec<Node>,
    terms: usize,
}

impl Model for NodeList {
    ghost use Rattle.std.specs.Prelude.{List};
    ghost use Rattle.prolog_terms.specs.declared.node.Node.{Node};
    ghost use Rattle.prolog_terms.specs.Sized.{AreTerms};

    ghost Value = { List Node };

    ghost view = { λ nodes. nodes.list.items };

    ghost invariant = { λ nodes. AreTerms nodes.list.items nodes.terms };
}

/// The node at the index.
#[inline(always)]
fn node_at(list: &[Node], at: usize) -> Node
    requires { at < length list.now }
    ensures { slice_get list.now at ≡ Some result }
{
    list[at]
}

/// The size of a term of that many nodes.
#[inline(always)]
fn size_of(count: usize) -> u32
    requires { 0 < count }
    ensures some { 0 < result }
    ensures within { result ≤ count }
    ensures is { result < MANY → result ≡ count }
{
    if count >= MANY as usize {
        return MANY;
    }
    count as u32
}

impl NodeList {
    /// No nodes.
    pub fn new(alloc: Global) -> NodeList
        ensures { result ≡ [] }
    {
        NodeList {
            list: Vec::new(alloc),
            terms: 0,
        }
    }

    /// No nodes yet, with capacity for `count`, so that they needn't be moved while they are added.
    pub fn with_room(alloc: Global, count: usize) -> Result<NodeList, AllocError>
        ensures { IfOk result (λ nodes. nodes ≡ []) }
    {
        let list = Vec::with_capacity(alloc, count)?;
        Ok(NodeList { list, terms: 0 })
    }

    /// How many nodes there are.
    pub fn len(&self) -> usize
        ensures is { result ≡ length self.now }
        ensures few { result < 9223372036854775808 }
    {
        self.list.len()
    }

    pub(crate) fn clear(&mut self)
        ensures { self.new ≡ [] }
    {
        self.list.clear();
        self.terms = 0;
    }

    /// The last of the first `end` nodes, and how many come before it.
    #[inline(always)]
    pub(crate) fn last(&self, end: usize) -> Option<(Node, usize)>
        ensures { MatchOption result (take end self.now ≡ []) (λ last. take end self.now ≡ take last.1 self.now ++ last.0 ∷ []) }
    {
        let end = end.min(self.list.len());
        if end == 0 {
            return None;
        }
        Some((node_at(&self.list, end - 1), end - 1))
    }

    /// How many nodes there are up to the last term of the first `end` nodes, inside the brackets
    /// round it.
    #[inline(always)]
    pub(crate) fn inside(&self, end: usize) -> usize
        ensures { (names : List (List ℕ)) → last_of (forest names (take result self.now)) ≡ inside (last_of (forest names (take end self.now))) }
    {
        let mut inner = end;
        while let Some((node, before)) = self.last(inner) {
            match node.shape {
                Shape::Paren => inner = before,
                _ => return inner,
            }
        }
        inner
    }

    /// How many of the first `end` nodes come before their last term.
    #[inline(always)]
    pub(crate) fn before(&self, end: usize) -> usize
        ensures rest { (names : List (List ℕ)) → forest names (take result self.now) ≡ before_last (forest names (take end self.now)) }
        ensures within { result ≤ end }
    {
        self.before_these(end.min(self.list.len()))
    }

    /// How many of the first `end` nodes come before their last term, if there are as many nodes.
    #[inline(always)]
    fn before_these(&self, end: usize) -> usize
        requires { end ≤ length self.now }
        ensures rest { (names : List (List ℕ)) → forest names (take result self.now) ≡ before_last (forest names (take end self.now)) }
        ensures within { result ≤ end }
    {
        match self.before_sized(end) {
            Some(before) => before,
            None => self.before_parts(end),
        }
    }

    /// What `before_these` returns, by the size of the last term. `None` if that has `MANY` nodes or
    /// more.
    #[inline(always)]
    fn before_sized(&self, end: usize) -> Option<usize>
        requires { end ≤ length self.now }
        ensures { MatchOption result (0 < end) (λ before. (before ≤ end)
            × ((names : List (List ℕ)) → forest names (take before self.now) ≡ before_last (forest names (take end self.now)))) }
    {
        if end == 0 {
            return Some(0);
        }
        let size = node_at(&self.list, end - 1).size;
        if size == MANY {
            return None;
        }
        Some(end - size as usize)
    }

    /// What `before_these` returns, found part by part. It is called only for terms of `MANY` nodes
    /// or more, which take 100 GB.
    fn before_parts(&self, end: usize) -> usize
        requires some { 0 < end }
        requires there { end ≤ length self.now }
        ensures rest { (names : List (List ℕ)) → forest names (take result self.now) ≡ before_last (forest names (take end self.now)) }
        ensures within { result ≤ end }
    {
        let mut at = end - 1;
        let count = part_count(node_at(&self.list, at).shape);
        for _part in 0..count {
            if let Some(before) = self.before_sized(at) {
                at = before;
                continue;
            }
            at = self.before_parts(at);
        }
        at
    }

    /// How many of the first `end` nodes come before their last `count` terms.
    #[inline(always)]
    fn before_many(&self, end: usize, count: usize) -> usize
        requires { end ≤ length self.now }
        ensures rest { (names : List (List ℕ)) → forest names (take result self.now) ≡ without count (forest names (take end self.now)) }
        ensures within { result ≤ end }
    {
        let mut at = end;
        for _part in 0..count {
            at = self.before_these(at);
        }
        at
    }

    /// The nodes of the last term of the first `end` nodes, if there are as many.
    #[inline(always)]
    fn last_nodes(&self, end: usize) -> &[Node]
        requires some { 0 < end }
        requires there { end ≤ length self.now }
        ensures one { AreTerms result.now 1 }
        ensures root { (names : List (List ℕ)) → root_tree names result.now ≡ tree_in names self.now end }
    {
        &self.list[self.before_these(end)..end]
    }

    /// How many adjacent terms the nodes are.
    #[inline(always)]
    fn terms(&self) -> usize
        ensures { (names : List (List ℕ)) → result ≡ length (forest names self.now) }
    {
        self.terms
    }

    /// Puts a variable at 0 before all nodes.
    fn put_first(&mut self) -> Result<(), AllocError>
        ensures { OnOk result ((names : List (List ℕ)) → forest names self.new ≡ forest names self.old ++ last_of [] ∷ []) }
    {
        self.list.insert(0, NO_NODE)?;
        self.terms += 1;
        Ok(())
    }

    /// Puts variables at 0 before all nodes, for missing terms, until there are `count` terms.
    #[inline(always)]
    fn fill(&mut self, count: usize) -> Result<(), AllocError>
        ensures trees { OnOk result ((names : List (List ℕ)) → forest names self.new ≡ filled count (forest names self.old)) }
        ensures some { OnOk result ((names : List (List ℕ)) → count ≤ length (forest names self.new)) }
    {
        while self.terms() < count {
            self.put_first()?;
        }
        Ok(())
    }

    /// Adds a node of this shape after its parts.
    #[inline(always)]
    pub(crate) fn lay(&mut self, shape: Shape, span: Span) -> Result<(), AllocError>
        ensures { OnOk result ((names : List (List ℕ)) → forest names self.new
            ≡ node_tree names shape span (forest names self.old) ∷ without (taken shape) (forest names self.old)) }
    {
        let count = part_count(shape);
        self.fill(count)?;
        let end = self.list.len();
        let from = self.before_many(end, count);
        let size = size_of(end - from + 1);
        self.list.push(Node { shape, span, size })?;
        self.terms = self.terms - count + 1;
        Ok(())
    }

    /// Appends other nodes, or a variable at 0 if there are none. The last of them is the last of
    /// all.
    pub(crate) fn append(&mut self, others: &mut NodeList) -> Result<(), AllocError>
        ensures more { (more : List NodeOf) × (self.new ≡ self.old ++ more) }
        ensures root { OnOk result ((names : List (List ℕ)) → root_tree names self.new ≡ root_tree names others.old) }
    {
        others.fill(1)?;
        self.list.extend_from_slice(&others.list)?;
        self.terms += others.terms;
        Ok(())
    }

    /// Appends the last term of the first `end` of other nodes, with its parts, or a variable at 0
    /// if there is none. `end` may be past the last node. The term is the last of all then, and the
    /// earlier nodes stay unchanged, even if memory runs out. Linear in the nodes of that term, which
    /// are copied as they are.
    pub fn append_last(&mut self, others: &NodeList, end: usize) -> Result<(), AllocError>
        ensures more { (more : List NodeOf) × (self.new ≡ self.old ++ more) }
        ensures root { OnOk result ((names : List (List ℕ)) → root_tree names self.new ≡ tree_in names others.now end) }
    {
        let end = end.min(others.list.len());
        if end == 0 {
            self.list.push(NO_NODE)?;
            self.terms += 1;
            return Ok(());
        }
        self.list.extend_from_slice(others.last_nodes(end))?;
        self.terms += 1;
        Ok(())
    }

    /// The same nodes without spare capacity.
    pub fn exact_copy(&self, alloc: Global) -> Result<NodeList, AllocError>
        ensures { IfOk result (λ copy. copy ≡ self.now) }
    {
        let mut list = Vec::with_capacity(alloc, self.list.len())?;
        list.extend_from_slice(&self.list)?;
        Ok(NodeList {
            list,
            terms: self.terms,
        })
    }
}
