ghost use Rattle.std.specs.Prelude.{◌≡◌, ◌-◌, ◌<◌, length, slice_index_or};

/// A frame of a search (an activation of the recursive algorithm): the position of its entry, and
/// the least position that its segment is known to lead back to (the low-link).
#[derive(Clone, Copy)]
pub struct Frame {
    pub position: u32,
    pub low: u32,
}

/// The last frame.
pub(crate) fn top_frame(frames: &[Frame]) -> Frame
    requires { 0 < length frames.now }
    ensures { result ≡ slice_index_or frames.now (length frames.now - 1) (record { position = 0; low = 0 }) }
{
    frames[frames.len() - 1]
}
