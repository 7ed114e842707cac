ghost use Rattle.std.specs.Prelude.{◌≡◌, [], IfOk};
ghost use Rattle.graph_law.specs.Graph.{Calls};
ghost use Rattle.group_release.specs.Level.{AreLevels};

use crate::taker::Taker;
use crate::trail::Trail;
use graph_law::{Opener, stamp};
use group_release::{Level, raise_height};
use std::alloc::{AllocError, Global};
use std::marker::Model;

/// A consumer that computes the levels of groups as they come, in reverse topological order of the
/// opener's graph. Contracts see it as this graph, the groups that it has taken and their levels.
#[derive(Drop)]
pub struct LevelTaker<'a, O: Opener> {
    opener: &'a O,
    places: Vec<usize>,
    levels: Vec<Level>,
    callees: Vec<u32>,
    trail: Trail,
}

impl<'a, O: Opener> Model for LevelTaker<'a, O> {
    ghost use Rattle.group_feed.specs.Leveling.{LevelsTaken};

    ghost Value = { LevelsTaken };

    ghost use Rattle.group_feed.specs.Leveling.{AreLeveled};

    ghost view = { λ t. record { lists = O.lists t.opener.now; taken = t.trail; levels = t.levels.items } };

    ghost invariant = { λ t. AreLeveled (O.lists t.opener.now) t.trail t.places.items t.levels.items };
}

impl<'a, O: Opener> LevelTaker<'a, O> {
    /// A consumer of groups of the opener's graph, which has taken none.
    pub fn new(alloc: Global, opener: &'a O) -> Result<LevelTaker<'a, O>, AllocError>
        ensures { IfOk result (λ made. made ≡ record { lists = O.lists opener.now; taken = []; levels = [] }) }
    {
        Ok(LevelTaker {
            opener,
            places: vec![in alloc; 0usize; opener.count() as usize]?,
            levels: Vec::new(alloc),
            callees: Vec::new(alloc),
            trail: Trail::new(),
        })
    }

    /// One level for each group that was taken, in their order.
    pub fn levels(&self) -> &[Level]
        ensures levels { result.now ≡ self.now.levels }
        ensures are { AreLevels (Calls self.now.lists) self.now.taken self.now.levels }
    {
        &self.levels
    }
}

impl<'a, O: Opener> Taker for LevelTaker<'a, O> {
    ghost lists = { λ taker. taker.lists };

    ghost taken = { λ taker. taker.taken };

    fn take(&mut self, group: &[u32]) -> Result<(), AllocError> {
        self.opener.count();
        stamp(&mut self.places, group, self.levels.len());
        let mut height = 0;
        let mut recursive = group.len() > 1;
        for &member in group {
            self.callees.clear();
            self.opener.expand(member, &mut self.callees)?;
            height = raise_height(height, &self.callees, &self.places, &self.levels);
            recursive |= self.callees.contains(&member);
        }
        self.levels.push(Level { height, recursive })?;
        self.trail.add(group);
        Ok(())
    }
}
