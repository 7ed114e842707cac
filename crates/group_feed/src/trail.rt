ghost use Rattle.std.specs.Prelude.{◌≡◌, ◌++◌, ◌∷◌, []};

use boxcar::tag::{Names, Tag};
use std::marker::Model;

/// The groups that a taker has taken, in their order, for a taker that stores none of them. Only
/// contracts read the list, and it takes no memory.
#[derive(Drop)]
pub struct Trail {
    groups: Tag,
}

impl Model for Trail {
    ghost use Rattle.std.specs.Prelude.{ℕ, List};

    ghost Value = { List (List ℕ) };

    ghost use Rattle.group_release.specs.Coding.{lists_from};

    ghost view = { λ trail. lists_from trail.groups.numbers };
}

// The groups of a trail, and one more.
#[derive(Drop)]
struct Grown<'a> {
    groups: &'a Tag,
    group: &'a [u32],
}

// How a tag lists them.
struct OneMore;

impl<'a> Names<Grown<'a>> for OneMore {
    ghost use Rattle.std.specs.Prelude.{◌++◌, ◌∷◌, []};
    ghost use Rattle.group_release.specs.Coding.{lists_from, numbers_of};

    ghost numbers = { λ grown. numbers_of (lists_from grown.groups.now.numbers ++ grown.group.now ∷ []) };
}

impl Trail {
    /// No group yet.
    pub fn new() -> Trail
        ensures { result ≡ [] }
    {
        Trail {
            groups: Tag::empty(),
        }
    }

    /// Appends one group.
    pub fn add(&mut self, group: &[u32])
        ensures { self.new ≡ self.old ++ group.now ∷ [] }
    {
        let grown = Grown {
            groups: &self.groups,
            group,
        };
        let groups = Tag::of::<Grown<'_>, OneMore>(&grown);
        self.groups = groups;
    }
}
