//! The first bytes of a name as one number, by which names are sorted without reading most of them.

ghost use Rattle.std.specs.Prelude.{◌≡◌, ◌<◌, slice_index, All};
ghost use Rattle.byte_names.specs.Lead.{lead};

/// The byte at the index, or 0 past the last one.
#[inline(always)]
fn byte_at(name: &[u8], place: usize) -> u8
    ensures { result ≡ slice_index name.now place }
{
    match name.get(place) {
        Some(byte) => *byte,
        None => 0,
    }
}

/// The first eight bytes of a name as one number. Names are ordered as these numbers are, unless
/// they have the same number.
pub(crate) fn lead(name: &[u8]) -> u64
    ensures is { result ≡ lead name.now }
    ensures bytes { All (λ byte. byte < 256) name.now }
{
    u64::from_be_bytes([
        byte_at(name, 0),
        byte_at(name, 1),
        byte_at(name, 2),
        byte_at(name, 3),
        byte_at(name, 4),
        byte_at(name, 5),
        byte_at(name, 6),
        byte_at(name, 7),
    ])
}
