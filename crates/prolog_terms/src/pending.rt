//! What is open: operators and brackets that wait for what is to the right of them.

ghost use Rattle.std.specs.Prelude.{◌≡◌, List};
ghost use Rattle.prolog_terms.specs.Tree.{Tree};
ghost use Rattle.prolog_terms.specs.ReaderSeen.{pending_has_parts, inner_depth, pending_bound, right_of, priority_of};
ghost use Rattle.prolog_terms.specs.StackSeen.{Names, see_pending, see_operator};

use crate::operand::Operand;
use crate::operator_sides::Sides;
use crate::word::Word;

/// An operator that waits for its right side.
#[derive(Clone, Copy)]
pub enum Operator {
    Prefix {
        word: Word,
        sides: Sides,
    },
    Infix {
        left: Operand,
        word: Word,
        sides: Sides,
    },
}

/// What comes before arguments or items: a functor and its bracket, or a `[`.
#[derive(Clone, Copy)]
pub enum Opened {
    Call(Word),
    Square(Word),
}

/// A bracket that isn't closed.
#[derive(Clone, Copy)]
pub enum Bracket {
    /// It waits for its first part.
    First(Opened),
    /// It waits for one more part after its `count` parts; the deepest of them has this depth.
    Next {
        opened: Opened,
        count: u32,
        depth: usize,
    },
    /// A list that waits for its tail after its items; the deepest of them has this depth.
    Tail {
        square: Word,
        count: u32,
        depth: usize,
    },
    /// It holds one term.
    Wrap(Word),
}

/// An operator or a bracket that waits for what is to the right of it. Its terms are nodes already.
#[derive(Clone, Copy)]
pub enum Pending {
    Operator(Operator),
    Bracket(Bracket),
}

/// The depth of the deepest part that is in it.
#[inline(always)]
pub fn inner_depth(pending: Pending) -> usize
    ensures { (names : Names) (trees : List Tree) → result ≡ inner_depth (see_pending names pending trees) }
{
    match pending {
        Pending::Operator(Operator::Prefix { .. }) => 0,
        Pending::Operator(Operator::Infix { left, .. }) => left.depth,
        Pending::Bracket(Bracket::First(_)) => 0,
        Pending::Bracket(Bracket::Next { depth, .. }) => depth,
        Pending::Bracket(Bracket::Tail { depth, .. }) => depth,
        Pending::Bracket(Bracket::Wrap(_)) => 0,
    }
}

/// Whether the innermost bracket has parts, if this one is on top of others; `below` says it of
/// those.
#[inline(always)]
pub fn has_parts(pending: Pending, below: bool) -> bool
    ensures { (names : Names) (trees : List Tree) → result ≡ pending_has_parts (see_pending names pending trees) below }
{
    match pending {
        Pending::Operator(_) => below,
        Pending::Bracket(Bracket::First(_)) => true,
        Pending::Bracket(Bracket::Next { .. }) => true,
        Pending::Bracket(Bracket::Tail { .. }) => true,
        Pending::Bracket(Bracket::Wrap(_)) => false,
    }
}

/// The greatest priority of the right side of the operator.
#[inline(always)]
pub fn right_bound(operator: Operator) -> u32
    ensures { (names : Names) (trees : List Tree) → result ≡ right_of (see_operator names operator trees) }
{
    match operator {
        Operator::Prefix { sides, .. } => sides.right,
        Operator::Infix { sides, .. } => sides.right,
    }
}

/// The priority of the operator's term.
#[inline(always)]
pub fn priority_of(operator: Operator) -> u32
    ensures { (names : Names) (trees : List Tree) → result ≡ priority_of (see_operator names operator trees) }
{
    match operator {
        Operator::Prefix { sides, .. } => sides.priority,
        Operator::Infix { sides, .. } => sides.priority,
    }
}

/// The greatest priority of what may be to the right of it.
#[inline(always)]
pub fn pending_bound(pending: Pending) -> u32
    ensures { (names : Names) (trees : List Tree) → result ≡ pending_bound (see_pending names pending trees) }
{
    match pending {
        Pending::Operator(operator) => right_bound(operator),
        Pending::Bracket(Bracket::First(_)) => 999,
        Pending::Bracket(Bracket::Next { .. }) => 999,
        Pending::Bracket(Bracket::Tail { .. }) => 999,
        Pending::Bracket(Bracket::Wrap(_)) => 1200,
    }
}
