//! Sorting runs by the first bytes of their names, which rarely reads the names themselves.

ghost use Rattle.std.specs.Prelude.{◌≡◌, slice_index_or};
ghost use Rattle.std.specs.List.Sorted.{IsPermutation, IsStableBy};
ghost use Rattle.module_table.specs.Defined.{comes_before};
ghost use Rattle.module_table.specs.Lead.{lead};

use crate::defined::Defined;
use prolog_names::Names;
use std::alloc::AllocError;

/// The byte at the index, or 0 past the last one.
fn byte_at(bytes: &[u8], place: usize) -> u8
    ensures { result ≡ slice_index_or bytes.now place 0 }
{
    match bytes.get(place) {
        Some(byte) => *byte,
        None => 0,
    }
}

/// The first eight bytes of a text as one number. Texts are ordered as these numbers are, unless
/// they have the same number.
fn lead(text: &str) -> u64
    ensures { result ≡ lead text.now }
{
    let bytes = text.as_bytes();
    u64::from_be_bytes([
        byte_at(bytes, 0),
        byte_at(bytes, 1),
        byte_at(bytes, 2),
        byte_at(bytes, 3),
        byte_at(bytes, 4),
        byte_at(bytes, 5),
        byte_at(bytes, 6),
        byte_at(bytes, 7),
    ])
}

/// Sorts the runs by the first bytes of their names. Those of one predicate stay in the order that
/// they have.
pub fn sort_by_lead(names: &Names, runs: &mut Vec<Defined>) -> Result<(), AllocError>
    ensures moved { IsPermutation runs.old.items runs.new.items }
    ensures stable { IsStableBy (comes_before names.now) runs.old.items runs.new.items }
{
    runs.sort_by_cached_key(|run| lead(names.text(run.name)))
}
