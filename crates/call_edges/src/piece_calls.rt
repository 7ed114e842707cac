//! Calls that are recorded with the positions of their goals.

ghost use Rattle.std.specs.Prelude.{◌≡◌, ◌∷◌, ◌++◌, [], true, length, OnOk};

use crate::placed_calls::PlacedCall;
use std::alloc::{AllocError, Global};

/// The calls of predicates with adjacent numbers, or nothing if no calls are recorded.
#[derive(Drop)]
pub struct PieceCalls<'a> {
    /// For each predicate where its calls begin and end in `calls`.
    pub spans: Vec<(usize, usize)>,
    /// The calls, predicate by predicate.
    pub calls: Vec<PlacedCall<'a>>,
}

impl<'a> PieceCalls<'a> {
    /// The calls of no predicate. They take no memory.
    pub fn none(alloc: Global) -> PieceCalls<'a>
        ensures spans { result.spans.items ≡ [] }
        ensures calls { result.calls.items ≡ [] }
    {
        PieceCalls {
            spans: Vec::new(alloc),
            calls: Vec::new(alloc),
        }
    }

    /// Adds the calls of one more predicate, if calls are recorded.
    pub fn push(&mut self, keep: bool, list: &[PlacedCall<'a>]) -> Result<(), AllocError>
        ensures calls { OnOk result (keep ≡ true → self.new.calls.items ≡ self.old.calls.items ++ list.now) }
        ensures spans { OnOk result (keep ≡ true → self.new.spans.items
            ≡ self.old.spans.items ++ ((length self.old.calls.items, length (self.old.calls.items ++ list.now)) ∷ [])) }
    {
        if !keep {
            return Ok(());
        }
        let from = self.calls.len();
        self.calls.extend_from_slice(list)?;
        self.spans.push((from, self.calls.len()))?;
        Ok(())
    }
}
