ghost use Rattle.std.specs.Prelude.{◌≡◌, ℕ, List, [], true, false};

use crossbeam_queue::protocol::{Join, Lesson, Outcome, Protocol, Split};
use crossbeam_queue::{Pass, RuledArrayQueue};
use std::collections::LinkedList;
use std::marker::{Brand, Model, PhantomData};

/// A released group on its way to the taker: an item of the line. Contracts see it as its nodes.
#[derive(Drop)]
pub struct Parcel {
    pub nodes: Vec<u32>,
}

impl Model for Parcel {
    ghost use Rattle.std.specs.Prelude.{ℕ, List};

    ghost Value = { List ℕ };

    ghost view = { λ parcel. parcel.nodes.items };
}

/// What a pass of the line may do, and what it has done: the groups that it pushed, and those that
/// it took. For each it has whether the end mark came after them. No value of it is ever made.
pub struct Hand {
    pub feeds: bool,
    pub takes: bool,
    pub pushed: LinkedList<LinkedList<u32>>,
    pub ended: bool,
    pub taken: LinkedList<LinkedList<u32>>,
    pub through: bool,
}

/// The graph whose groups are on the line.
pub trait Graph {
    ghost lists: { List (List ℕ) };
}

impl Graph for Brand {
    ghost lists = { [] };
}

/// The invariant of the line. No value of these types is ever made.
pub struct InOrder<N> {
    of: PhantomData<N>,
}

impl<N: Graph> Protocol<Option<Parcel>, Hand> for InOrder<N> {
    ghost use Rattle.group_feed.specs.Line.{LineHolds, newcomer};

    ghost holds = { LineHolds N.lists };

    ghost first = { newcomer };
}

/// The feeder's pass, and the taker's.
pub struct Ends;

impl Split<Hand> for Ends {
    ghost use Rattle.std.specs.Prelude.{true, false};
    ghost use Rattle.group_feed.specs.Line.{feeding, taking};

    ghost left = { feeding };

    ghost right = { taking };
}

impl Join<Hand> for Ends {
    ghost use Rattle.group_feed.specs.Line.{both, spent};

    ghost both = { both };

    ghost spent = { spent };
}

/// A push.
pub struct Push<N> {
    of: PhantomData<N>,
}

impl<N: Graph> Outcome<Option<Parcel>, Hand> for Push<N> {
    ghost use Rattle.std.specs.Prelude.{◌≡◌};
    ghost use Rattle.group_feed.specs.Line.{after_push};

    ghost then = { λ v x w. w ≡ after_push v x };
}

impl<N: Graph> Lesson<Option<Parcel>, Hand> for Push<N> {
    ghost use Rattle.std.specs.Prelude.{◌≤◌, length};

    ghost fact = { λ v items. length items ≤ length N.lists };
}

/// A pop.
pub struct Pop<N> {
    of: PhantomData<N>,
}

impl<N: Graph> Outcome<Option<Parcel>, Hand> for Pop<N> {
    ghost use Rattle.group_feed.specs.Line.{Takes};

    ghost then = { Takes N.lists };
}

impl<N: Graph> Lesson<Option<Parcel>, Hand> for Pop<N> {
    ghost use Rattle.std.specs.Prelude.{⊤};

    ghost fact = { λ v items. ⊤ };
}

/// What a pass knows that has pushed and popped.
pub struct Total;

impl Lesson<Option<Parcel>, Hand> for Total {
    ghost use Rattle.std.specs.Prelude.{◌≡◌, ◌++◌};
    ghost use Rattle.group_feed.specs.Line.{parcels};

    ghost fact = { λ v items. parcels v.pushed v.ended ≡ parcels v.taken v.through ++ items };
}

/// The bounded queue between feeder and taker. `None` is the end mark.
pub type Line<N> = RuledArrayQueue<Option<Parcel>, Hand, InOrder<N>>;

/// The pass of one end of the line.
pub type LinePass = Pass<Option<Parcel>, Hand>;
