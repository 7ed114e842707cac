ghost use Rattle.std.specs.Prelude.{◌≡◌, ◌++◌, ◌∷◌, [], All, IfOk, IfSome, MatchOption, map, option_map, take};
ghost use Rattle.prolog_terms.specs.declared.term.Span.{Span as SpanOf};
ghost use Rattle.prolog_terms.specs.Forest.{forest, node_tree};
ghost use Rattle.prolog_terms.specs.Tree.{count, span_of};
ghost use Rattle.prolog_terms.specs.Views.{trees_in, only_of, pair_of, triple_of};
ghost use Rattle.prolog_terms.specs.Terms.{kind_tree, parts_in, root_tree, tree_in, tree_of, trees_of, IsNodeOf, IsOf, IsPartsOf, AreOf};

use crate::node::{NO_NODE, Node, Shape};
use crate::node_list::NodeList;
use prolog_names::Names;
use std::alloc::{AllocError, Global};

/// The position of a term: from the start of its first token to the end of its last, as byte
/// offsets.
#[derive(Clone, Copy, Debug, PartialEq, Eq)]
pub struct Span {
    pub from: u32,
    pub to: u32,
}

/// The value of no position.
pub const NO_SPAN: Span = Span { from: 0, to: 0 };

/// How a compound term is written.
#[derive(Clone, Copy, Debug, PartialEq, Eq)]
pub enum Form {
    Functional,
    Prefix,
    Infix,
    Postfix,
}

/// The kinds of constants that aren't atoms.
#[derive(Clone, Copy, Debug, PartialEq, Eq)]
pub enum ConstKind {
    Integer,
    Float,
    Str,
    BackStr,
}

/// A term as it is written, with its position: the last of the first `end` nodes of a list, after
/// its parts. The names are those of its text.
#[derive(Clone, Copy)]
pub struct Term<'a> {
    pub names: &'a Names,
    pub nodes: &'a NodeList,
    pub end: usize,
}

/// Adjacent terms within a term: the last `count` terms of the first `end` nodes of a list.
#[derive(Clone, Copy)]
pub struct Parts<'a> {
    pub names: &'a Names,
    pub nodes: &'a NodeList,
    pub end: usize,
    pub count: u32,
}

/// What a term is. `[]` and `{}` are atoms. `value` is that of an integer, if it is at most
/// 4,294,967,295.
#[derive(Clone, Copy)]
pub enum TermKind<'a> {
    Var,
    Const {
        kind: ConstKind,
        minus: bool,
        value: Option<u32>,
    },
    Atom {
        name: &'a str,
    },
    Compound {
        name: &'a str,
        args: Parts<'a>,
        form: Form,
    },
    List {
        items: Parts<'a>,
    },
    Tailed {
        items: Parts<'a>,
        tail: Term<'a>,
    },
    Curly {
        inner: Term<'a>,
    },
    Paren {
        inner: Term<'a>,
    },
}

impl<'a> Term<'a> {
    /// The term of the last node.
    pub fn root(names: &'a Names, nodes: &'a NodeList) -> Term<'a>
        ensures tree { tree_of result ≡ root_tree names.now nodes.now }
        ensures within { IsOf names.now nodes.now result }
    {
        Term {
            names,
            nodes,
            end: nodes.len(),
        }
    }

    /// The term's node, and how many nodes come before it. If there is no node, the term is a
    /// variable.
    #[inline(always)]
    pub(crate) fn node(&self) -> (Node, usize)
        ensures { IsNodeOf self.now result.0 result.1 }
    {
        match self.nodes.last(self.end) {
            Some(last) => last,
            None => (NO_NODE, 0),
        }
    }

    /// The last `count` terms of the first `end` nodes, as parts of this term.
    #[inline(always)]
    pub(crate) fn parts(&self, end: usize, count: u32) -> Parts<'a>
        ensures trees { trees_of result ≡ parts_in self.now.names.now self.now.nodes.now end count }
        ensures within { IsPartsOf self.now.names.now self.now.nodes.now result }
    {
        Parts {
            names: self.names,
            nodes: self.nodes,
            end,
            count,
        }
    }

    /// The term that is the last of the first `end` nodes.
    #[inline(always)]
    pub(crate) fn part(&self, end: usize) -> Term<'a>
        ensures tree { tree_of result ≡ tree_in self.now.names.now self.now.nodes.now end }
        ensures within { IsOf self.now.names.now self.now.nodes.now result }
    {
        Term {
            names: self.names,
            nodes: self.nodes,
            end,
        }
    }

    /// What a term of this shape is, after the first `before` nodes.
    #[inline(always)]
    fn kind_of(&self, shape: Shape, before: usize) -> TermKind<'a>
        ensures tree { (span : SpanOf) → kind_tree result span
            ≡ node_tree self.now.names.now shape span (forest self.now.names.now (take before self.now.nodes.now)) }
        ensures within { AreOf self.now.names.now self.now.nodes.now result }
    {
        match shape {
            Shape::Var => TermKind::Var,
            Shape::Const { kind, minus, value } => TermKind::Const { kind, minus, value },
            Shape::Atom { name } => TermKind::Atom {
                name: self.names.text(name),
            },
            Shape::Compound { name, count, form } => TermKind::Compound {
                name: self.names.text(name),
                args: self.parts(before, count),
                form,
            },
            Shape::List { count } => TermKind::List {
                items: self.parts(before, count),
            },
            Shape::Tailed { count } => TermKind::Tailed {
                items: self.parts(self.nodes.before(before), count),
                tail: self.part(before),
            },
            Shape::Curly => TermKind::Curly {
                inner: self.part(before),
            },
            Shape::Paren => TermKind::Paren {
                inner: self.part(before),
            },
        }
    }

    /// What the term is, with its parts, which are of the same nodes.
    #[inline(always)]
    pub fn kind(&self) -> TermKind<'a>
        ensures tree { kind_tree result (span_of (tree_of self.now)) ≡ tree_of self.now }
        ensures within { AreOf self.now.names.now self.now.nodes.now result }
    {
        let (node, before) = self.node();
        self.kind_of(node.shape, before)
    }

    /// The position of the term, with the brackets round it.
    #[inline(always)]
    pub fn span(&self) -> Span
        ensures { result ≡ span_of (tree_of self.now) }
    {
        let (node, _before) = self.node();
        node.span
    }

    /// What the term is, with its parts, which are of the same nodes, and its position.
    #[inline(always)]
    pub fn kind_at(&self) -> (TermKind<'a>, Span)
        ensures tree { kind_tree result.0 result.1 ≡ tree_of self.now }
        ensures span { result.1 ≡ span_of (tree_of self.now) }
        ensures within { AreOf self.now.names.now self.now.nodes.now result.0 }
    {
        let (node, before) = self.node();
        (self.kind_of(node.shape, before), node.span)
    }
}

impl<'a> Parts<'a> {
    /// How many terms there are.
    pub fn len(&self) -> usize
        ensures { result ≡ count (trees_of self.now) }
    {
        self.count as usize
    }

    /// The terms in their order.
    pub fn to_vec(&self, alloc: Global) -> Result<Vec<Term<'a>>, AllocError>
        ensures trees { IfOk result (λ terms. map tree_of terms.items ≡ trees_in (trees_of self.now)) }
        ensures within { IfOk result (λ terms. All (IsOf self.now.names.now self.now.nodes.now) terms.items) }
    {
        let mut terms = Vec::with_capacity(alloc, self.count as usize)?;
        let mut end = self.end;
        for _part in 0..self.count {
            terms.push(self.part(end))?;
            end = self.nodes.before(end);
        }
        terms.reverse();
        Ok(terms)
    }

    /// The term that is the last of the first `end` nodes.
    #[inline(always)]
    fn part(&self, end: usize) -> Term<'a>
        ensures tree { tree_of result ≡ tree_in self.now.names.now self.now.nodes.now end }
        ensures within { IsOf self.now.names.now self.now.nodes.now result }
    {
        Term {
            names: self.names,
            nodes: self.nodes,
            end,
        }
    }

    /// The terms before the last one, and that one.
    #[inline(always)]
    pub fn split_last(&self) -> Option<(Parts<'a>, Term<'a>)>
        ensures trees { MatchOption result (trees_in (trees_of self.now) ≡ []) (λ pair.
            trees_in (trees_of self.now) ≡ trees_in (trees_of pair.0) ++ tree_of pair.1 ∷ []) }
        ensures within { IfSome result (λ pair. IsPartsOf self.now.names.now self.now.nodes.now pair.0 × IsOf self.now.names.now self.now.nodes.now pair.1) }
    {
        if self.count == 0 {
            return None;
        }
        let others = Parts {
            names: self.names,
            nodes: self.nodes,
            end: self.nodes.before(self.end),
            count: self.count - 1,
        };
        Some((others, self.part(self.end)))
    }

    /// The term, if it is the only one.
    pub fn only(&self) -> Option<Term<'a>>
        ensures tree { option_map tree_of result ≡ only_of (trees_of self.now) }
        ensures within { IfSome result (IsOf self.now.names.now self.now.nodes.now) }
    {
        if self.count != 1 {
            return None;
        }
        Some(self.part(self.end))
    }

    /// The two terms, if there are exactly two.
    #[inline(always)]
    pub fn pair(&self) -> Option<(Term<'a>, Term<'a>)>
        ensures trees { option_map (λ pair. (tree_of pair.0, tree_of pair.1)) result ≡ pair_of (trees_of self.now) }
        ensures within { IfSome result (λ pair. IsOf self.now.names.now self.now.nodes.now pair.0 × IsOf self.now.names.now self.now.nodes.now pair.1) }
    {
        if self.count != 2 {
            return None;
        }
        let left = self.part(self.nodes.before(self.end));
        Some((left, self.part(self.end)))
    }

    /// The three terms, if there are exactly three.
    pub fn triple(&self) -> Option<(Term<'a>, Term<'a>, Term<'a>)>
        ensures { option_map (λ three. (tree_of three.0, tree_of three.1, tree_of three.2)) result ≡ triple_of (trees_of self.now) }
    {
        if self.count != 3 {
            return None;
        }
        let second = self.nodes.before(self.end);
        let first = self.nodes.before(second);
        Some((self.part(first), self.part(second), self.part(self.end)))
    }
}
