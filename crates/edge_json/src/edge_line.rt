//! The names of a line.

ghost use Rattle.std.specs.Prelude.{◌≡◌, [], ◌∷◌, IfOk};

use std::alloc::{AllocError, Global};
use std::marker::Model;

/// A node, and one that it calls if there is one. Contracts see the list of their names.
#[derive(Drop)]
pub struct EdgeLine {
    pub(crate) from: Vec<u8>,
    pub(crate) to: Option<Vec<u8>>,
}

impl Model for EdgeLine {
    ghost use Rattle.std.specs.Prelude.{ℕ, List};
    ghost use Rattle.edge_json.specs.Ends.{ends_of};

    ghost Value = { List (List ℕ) };

    ghost view = { λ line. ends_of line.from.items line.to };
}

impl EdgeLine {
    /// A node alone.
    pub(crate) fn node(alloc: Global, from: &str) -> Result<EdgeLine, AllocError>
        ensures { IfOk result (λ line. line ≡ from.now ∷ []) }
    {
        Ok(EdgeLine {
            from: from.as_bytes().to_vec(alloc)?,
            to: None,
        })
    }

    /// A node and one that it calls.
    pub(crate) fn edge(alloc: Global, from: &str, to: &str) -> Result<EdgeLine, AllocError>
        ensures { IfOk result (λ line. line ≡ from.now ∷ to.now ∷ []) }
    {
        Ok(EdgeLine {
            from: from.as_bytes().to_vec(alloc)?,
            to: Some(to.as_bytes().to_vec(alloc)?),
        })
    }
}
