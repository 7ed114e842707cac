ghost use Rattle.std.specs.Prelude.{◌≡◌, ◌<◌, ◌++◌, ◌∷◌, [], ℕ, List, length, slice_index_or, IfOk, OnOk};
ghost use Rattle.graph_law.specs.Graph.{Calls};
ghost use Rattle.loop_paths.specs.Grown.{IsTree, path_at};

use std::alloc::{AllocError, Global};

/// The nodes that a search has reached, in the order of their least paths. For each it has the
/// index of the node from which it was reached. The first node is the start of the search.
#[derive(Drop)]
pub(crate) struct Tree {
    pub(crate) nodes: Vec<u32>,
    pub(crate) callers: Vec<usize>,
}

impl Tree {
    /// The tree of one node.
    pub(crate) fn of(alloc: Global, node: u32) -> Result<Tree, AllocError>
        ensures nodes { IfOk result (λ tree. tree.nodes.items ≡ node ∷ []) }
        ensures callers { IfOk result (λ tree. tree.callers.items ≡ 0 ∷ []) }
    {
        let mut nodes = Vec::new(alloc);
        let mut callers = Vec::new(alloc);
        nodes.push(node)?;
        callers.push(0)?;
        Ok(Tree { nodes, callers })
    }

    /// Adds a node that was reached from the one at the index.
    pub(crate) fn push(&mut self, node: u32, caller: usize) -> Result<(), AllocError>
        ensures nodes { OnOk result (self.new.nodes.items ≡ self.old.nodes.items ++ node ∷ []) }
        ensures callers { OnOk result (self.new.callers.items ≡ self.old.callers.items ++ caller ∷ []) }
    {
        self.nodes.push(node)?;
        self.callers.push(caller)?;
        Ok(())
    }

    /// The path to the node at the index.
    pub(crate) fn path(&self, alloc: Global, place: usize) -> Result<Vec<u32>, AllocError>
        requires tree { (lists : List (List ℕ)) × (from : ℕ) × (paths : List (List ℕ))
            × IsTree (Calls lists) from self.now.nodes.items self.now.callers.items paths }
        requires within { place < length self.now.nodes.items }
        ensures { (lists : List (List ℕ)) (from : ℕ) (paths : List (List ℕ))
            → IsTree (Calls lists) from self.now.nodes.items self.now.callers.items paths
            → IfOk result (λ path. path.items ≡ path_at paths place) }
    {
        let mut path = Vec::new(alloc);
        let mut at = place;
        while at != 0 {
            path.push(self.nodes[at])?;
            at = self.callers[at];
        }
        path.push(self.nodes[0])?;
        path.reverse();
        Ok(path)
    }
}
