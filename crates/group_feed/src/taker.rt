ghost use Rattle.std.specs.Prelude.{◌≡◌, ◌++◌, ◌∷◌, [], List, ℕ, OnOk, OnErr};
ghost use Rattle.group_feed.specs.Ordered.{AreOrdered};

use std::alloc::AllocError;

/// A consumer of released groups, one after another. It means a graph, which doesn't change, and
/// the list of groups that it has taken. These are in reverse topological order of the graph: each
/// group is whole, comes once, and comes after the groups that its members call.
pub trait Taker: Send {
    ghost lists: { Self → List (List ℕ) };

    ghost taken: { Self → List (List ℕ) };

    /// Takes one group more. If memory runs out, the list stays unchanged.
    fn take(&mut self, group: &[u32]) -> Result<(), AllocError>
        requires ordered { AreOrdered (lists self.old) (taken self.old ++ group.now ∷ []) }
        ensures lists { lists self.new ≡ lists self.old }
        ensures ok { OnOk result (taken self.new ≡ taken self.old ++ group.now ∷ []) }
        ensures err { OnErr result (taken self.new ≡ taken self.old) };
}
