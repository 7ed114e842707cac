//! The invariant of the table of claims, and what each kind of step changes. No value of these
//! types is ever made.

ghost use Rattle.std.specs.Prelude.{ℕ, List, []};

use crate::bound_book::BoundBook;
use crate::view::View;
use atomic_table::{Join, Play, Split, TableRule};
use group_release::Book;
use std::marker::{Brand, PhantomData};
use std::snapshot::Snapshot;

/// The rule: word 0 is the lock, and node x has word x + 1. The one slot has the book.
pub struct ClaimRule;

impl TableRule<Option<BoundBook>, View, Snapshot<Book>> for ClaimRule {
    ghost use Rattle.node_claims.specs.Rule.{RuleHolds};
    ghost use Rattle.node_claims.specs.Views.{fresh};

    ghost holds = { λ key s. RuleHolds s };

    ghost first = { λ key. fresh key.value.lists key.value.roots };
}

/// A claim: one compare-and-swap of the word of a node, from 0 to 1.
pub(crate) struct Claim;

impl Play<Option<BoundBook>, View> for Claim {
    ghost use Rattle.node_claims.specs.Steps.{claims};

    ghost then = { claims };
}

/// A look: one load of the word of a node.
pub(crate) struct Look;

impl Play<Option<BoundBook>, View> for Look {
    ghost use Rattle.node_claims.specs.Steps.{looks_at};

    ghost then = { looks_at };
}

/// A try to lock: one compare-and-swap of the lock's word, from 0 to 1.
pub(crate) struct Take;

impl Play<Option<BoundBook>, View> for Take {
    ghost use Rattle.node_claims.specs.Steps.{takes_turn};

    ghost then = { takes_turn };
}

/// Closing a node: one store of 2 to its word.
pub(crate) struct Close;

impl Play<Option<BoundBook>, View> for Close {
    ghost use Rattle.node_claims.specs.Steps.{closes};

    ghost then = { closes };
}

/// The nodes that a pass has after it unlocked.
pub trait Naming {
    ghost nodes: { List ℕ };
}

impl Naming for Brand {
    ghost nodes = { [] };
}

/// Unlocking: one store of 0 to the lock's word. The pass has the nodes that `N` names.
pub(crate) struct Give<N> {
    of: PhantomData<N>,
}

impl<N: Naming> Play<Option<BoundBook>, View> for Give<N> {
    ghost use Rattle.node_claims.specs.Steps.{gives_turn};

    ghost then = { gives_turn N.nodes };
}

/// Splitting: one pass stays as it is, and the other is new.
pub(crate) struct Part;

impl Split<View> for Part {
    ghost use Rattle.node_claims.specs.Views.{fresh};

    ghost left = { λ v. v };

    ghost right = { λ v. fresh v.lists v.roots };
}

/// Joining: one pass knows what both knew.
pub(crate) struct Whole;

impl Join<View> for Whole {
    ghost use Rattle.node_claims.specs.Views.{both, spent};

    ghost both = { both };

    ghost spent = { spent };
}
