ghost use Rattle.std.specs.Prelude.{◌≡◌, ◌<◌, List, [], ℕ, length, slice_index_or, OnOk, OnErr};
ghost use Rattle.graph_law.specs.Graph.{IsClosed};

use std::alloc::AllocError;

/// An implicit graph, whose nodes are expanded one at a time. It means a list of successor lists,
/// one for each node, which doesn't change.
pub trait Opener: Sync {
    ghost lists: { Self → List (List ℕ) };

    /// The number of nodes. They are the numbers below it.
    fn count(&self) -> u32
        ensures count { result ≡ length (lists self.now) }
        ensures closed { IsClosed (lists self.now) };

    /// Puts the successors of `node` into `out`, which is empty. If memory runs out, `out` stays
    /// empty.
    fn expand(&self, node: u32, out: &mut Vec<u32>) -> Result<(), AllocError>
        requires below { node < length (lists self.now) }
        requires empty { out.old.items ≡ [] }
        ensures ok { OnOk result (out.new.items ≡ slice_index_or (lists self.now) node []) }
        ensures err { OnErr result (out.new.items ≡ []) };
}
