ghost use Rattle.std.specs.Prelude.{◌≡◌};
ghost use Rattle.prolog_terms.specs.Forest.{taken};

use crate::term::{ConstKind, Form, NO_SPAN, Span};

/// What a term is, with the number of its name. It comes after its parts: the `count` arguments of
/// a compound, the `count` items of a list and then its tail, or the term in brackets.
#[derive(Clone, Copy)]
pub enum Shape {
    Var,
    Const {
        kind: ConstKind,
        minus: bool,
        value: Option<u32>,
    },
    Atom {
        name: u32,
    },
    Compound {
        name: u32,
        count: u32,
        form: Form,
    },
    List {
        count: u32,
    },
    Tailed {
        count: u32,
    },
    Curly,
    Paren,
}

/// The size of a term of so many nodes or more.
pub const MANY: u32 = 4_294_967_295;

/// A term in a list of nodes, in which its parts come before it. Its size is how many nodes it has,
/// with itself, if they are fewer than `MANY`. So the term before it ends that many nodes further to
/// the front. A size in 32 bits keeps a node to 24 bytes.
#[derive(Clone, Copy)]
pub struct Node {
    pub shape: Shape,
    pub span: Span,
    pub size: u32,
}

/// The node of a term if there is none: a variable at 0.
pub const NO_NODE: Node = Node {
    shape: Shape::Var,
    span: NO_SPAN,
    size: 1,
};

/// How many of the terms before it are parts of a node.
#[inline(always)]
pub fn part_count(shape: Shape) -> usize
    ensures { result ≡ taken shape }
{
    match shape {
        Shape::Var => 0,
        Shape::Const { .. } => 0,
        Shape::Atom { .. } => 0,
        Shape::Compound { count, .. } => count as usize,
        Shape::List { count } => count as usize,
        Shape::Tailed { count } => count as usize + 1,
        Shape::Curly => 1,
        Shape::Paren => 1,
    }
}
