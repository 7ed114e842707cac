//! Concatenated lists, and ranges of a list.

ghost use Rattle.std.specs.Prelude.{◌≡◌, ◌≤◌, flat_map, length, slice_range, IfOk};

use std::alloc::{AllocError, Global};

/// The lists, one after the other.
pub fn join_lists<T: Copy>(alloc: Global, each: &[Vec<T>]) -> Result<Vec<T>, AllocError>
    ensures { IfOk result (λ all. all.items ≡ flat_map (λ list. list.items) each.now) }
{
    let mut all = Vec::new(alloc);
    for list in each {
        all.extend_from_slice(list)?;
    }
    Ok(all)
}

/// The items from one index up to another.
pub fn between<T>(all: &[T], from: usize, to: usize) -> &[T]
    requires ordered { from ≤ to }
    requires within { to ≤ length all.now }
    ensures { result.now ≡ slice_range all.now from to }
{
    &all[from..to]
}
