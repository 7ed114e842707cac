ghost use Rattle.std.specs.Prelude.{◌≡◌, ◌==◌, slice_index};
ghost use Rattle.loop_paths.specs.Inner.{inner_nodes};

use graph_law::Opener;
use std::alloc::AllocError;

/// The calls of a graph that stay inside groups.
#[derive(Drop)]
pub(crate) struct Inner<'a, O> {
    pub(crate) opener: &'a O,
    pub(crate) places: &'a [usize],
}

/// The index of a node's group.
fn place_of(places: &[usize], node: u32) -> usize
    ensures { result ≡ slice_index places.now node }
{
    match places.get(node as usize) {
        Some(place) => *place,
        None => 0,
    }
}

/// Keeps only those of the callees that are in the group of the node.
fn keep_inner(places: &[usize], node: u32, callees: &mut Vec<u32>)
    ensures { callees.new.items ≡ inner_nodes places.now node callees.old.items }
{
    let own = place_of(places, node);
    callees.retain(
        |callee: &u32| -> bool
            ensures { result ≡ (slice_index places.entry.now callee.now == own) }
        { place_of(places, *callee) == own },
    );
}

impl<'a, O: Opener> Opener for Inner<'a, O> {
    ghost use Rattle.loop_paths.specs.Inner.{inner_lists};

    ghost lists = { λ inner. inner_lists (O.lists inner.opener.now) inner.places.now };

    fn count(&self) -> u32 {
        self.opener.count()
    }

    fn expand(&self, node: u32, out: &mut Vec<u32>) -> Result<(), AllocError> {
        self.opener.expand(node, out)?;
        keep_inner(self.places, node, out);
        Ok(())
    }
}
