ghost use Rattle.std.specs.Prelude.{◌≡◌, ◌↔◌, [], IfOk, IsTrue};
ghost use Rattle.graph_law.specs.Classes.{HasMember};
ghost use Rattle.graph_law.specs.Graph.{lists_of};
ghost use Rattle.group_release.specs.Released.{AreReleased, IsAppended, IsNewGroup};

use graph_law::stamp;
use std::alloc::{AllocError, Global};
use std::marker::Model;

/// Groups of nodes in the order of their release. No node is in two of them.
#[derive(Drop)]
pub struct Released {
    groups: Vec<Vec<u32>>,
    held: Vec<bool>,
}

impl Model for Released {
    ghost use Rattle.group_release.specs.Released.{ReleasedGroups};

    ghost Value = { ReleasedGroups };

    ghost use Rattle.group_release.specs.ReleasedFields.{value_of, IsReleased};

    ghost view = { value_of };

    ghost invariant = { IsReleased };
}

impl Released {
    /// No group yet, for nodes below `count`.
    pub fn make(alloc: Global, count: u32) -> Result<Released, AllocError>
        ensures { IfOk result (λ made. made ≡ record { count = count; groups = [] }) }
    {
        Ok(Released {
            groups: Vec::with_capacity(alloc, count as usize)?,
            held: vec![in alloc; false; count as usize]?,
        })
    }

    /// Appends a group with its members ascending. It takes no memory.
    pub fn append(&mut self, mut group: Vec<u32>)
        requires { IsNewGroup self.old group.items }
        ensures { IsAppended self.old group.items self.new }
    {
        group.sort_unstable();
        stamp(&mut self.held, &group, true);
        self.groups.push(group).unwrap();
    }

    /// Whether one of the groups has the node.
    pub fn holds(&self, node: u32) -> bool
        ensures { IsTrue result ↔ HasMember self.now.groups node }
    {
        self.held.get(node as usize).copied().unwrap_or(false)
    }

    /// The groups in the order of their release.
    pub fn groups(&self) -> &[Vec<u32>]
        ensures groups { lists_of result.now ≡ self.now.groups }
        ensures released { AreReleased self.now }
    {
        &self.groups
    }

    /// The groups in the order of their release.
    pub fn into_groups(self) -> Vec<Vec<u32>>
        ensures { lists_of result.items ≡ self.groups }
    {
        self.groups
    }
}
