//! What a pass knows, as plain data. No value of these types is ever made: only contracts and
//! proofs use them.

use std::collections::LinkedList;

/// A book as the rule sees it: its graph and its roots, whether it has failed, the nodes of its
/// suspended searches, the nodes that these wait for, and its released groups.
pub struct Outline {
    pub lists: LinkedList<LinkedList<u32>>,
    pub roots: LinkedList<u32>,
    pub failed: bool,
    pub kept: LinkedList<u32>,
    pub wants: LinkedList<u32>,
    pub released: LinkedList<LinkedList<u32>>,
}

/// A book as it was taken, and the nodes closed since.
pub struct Taken {
    pub book: Outline,
    pub closed: LinkedList<u32>,
}

/// What a pass knows:
///
/// - the graph and the roots;
/// - the nodes that it claimed and has, and those that it saw finished;
/// - what each of its claims and looks found;
/// - `told`: that it gave back a failed book, so each pass that locks from then on finds the book
///   failed;
/// - the book that it took, if it has the lock.
///
/// A pass that was joined into another isn't live.
pub struct View {
    pub live: bool,
    pub lists: LinkedList<LinkedList<u32>>,
    pub roots: LinkedList<u32>,
    pub nodes: LinkedList<u32>,
    pub seen: LinkedList<u32>,
    pub looks: LinkedList<(u32, u64)>,
    pub told: bool,
    pub turn: Option<Taken>,
}
