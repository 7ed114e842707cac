ghost use Rattle.std.specs.Prelude.{◌≡◌, ℕ, ◌<◌, ◌⊎◌, None, Some, IsBitSet};
ghost use Rattle.effect_flow.specs.Carriers.{IsFirst, first_at};
ghost use Rattle.effect_flow.specs.Seen.{see_flow};
ghost use Rattle.effect_flow.specs.declared.kinds.TheConstants.{KINDS};

use crate::kinds::KINDS;

/// The value of no node: it is no node's number.
const NO_NODE: u32 = u32::MAX;

/// For each kind of effect the witness of a group, if it has one: the least node that a member
/// reaches and that has the kind itself.
#[derive(Clone, Copy, Debug, PartialEq, Eq)]
pub struct Flow {
    firsts: [u32; KINDS],
}

impl Flow {
    /// No witness of any kind.
    pub(crate) fn none() -> Flow
        ensures { (kind : ℕ) → kind < KINDS → first_at (see_flow result) kind ≡ None }
    {
        Flow {
            firsts: [NO_NODE; KINDS],
        }
    }

    /// The node as the witness of each of the kinds.
    pub(crate) fn of(node: u32, kinds: u64) -> Flow
        requires { node < 4294967295 }
        ensures { (kind : ℕ) → kind < KINDS → IsFirst (λ q. (q ≡ node) × IsBitSet kinds kind) (first_at (see_flow result) kind) }
    {
        let mut firsts = [NO_NODE; KINDS];
        for kind in 0..KINDS {
            if kinds >> kind & 1 != 1 {
                continue;
            }
            firsts[kind] = node;
        }
        Flow { firsts }
    }

    /// The lesser of both witnesses of each kind.
    pub(crate) fn lesser(&self, other: &Flow) -> Flow
        ensures { (kind : ℕ) → kind < KINDS
            → IsFirst (λ q. (first_at (see_flow self.now) kind ≡ Some q) ⊎ (first_at (see_flow other.now) kind ≡ Some q)) (first_at (see_flow result) kind) }
    {
        let mut firsts = self.firsts;
        for kind in 0..KINDS {
            firsts[kind] = firsts[kind].min(other.firsts[kind]);
        }
        Flow { firsts }
    }

    /// The witness of that kind, or None. Kinds are numbered as in `kinds_of`.
    pub fn first(&self, kind: u32) -> Option<u32>
        requires { kind < KINDS }
        ensures { result ≡ first_at (see_flow self.now) kind }
    {
        let node = self.firsts[kind as usize];
        if node == NO_NODE {
            return None;
        }
        Some(node)
    }
}
