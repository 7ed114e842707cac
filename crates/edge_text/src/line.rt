//! The lines of a text.

ghost use Rattle.std.specs.Prelude.{◌≡◌, ◌<◌, ◌≤◌, ℕ, true, false, length, slice_index};
ghost use Rattle.edge_text.specs.Lines.{is_comment, is_newline};

/// Where the line that begins there ends: at the next newline, or at the end of the text.
#[inline(always)]
pub fn line_end(text: &[u8], from: usize) -> usize
    requires { from ≤ length text.now }
    ensures from { from ≤ result }
    ensures within { result ≤ length text.now }
    ensures inside { (k : ℕ) → from ≤ k → k < result → is_newline (slice_index text.now k) ≡ false }
    ensures end { result < length text.now → is_newline (slice_index text.now result) ≡ true }
{
    for at in from..text.len() {
        if text[at] == b'\n' {
            return at;
        }
    }
    text.len()
}

/// Whether the line is a comment.
#[inline(always)]
pub(crate) fn is_comment(line: &[u8]) -> bool
    ensures { result ≡ is_comment line.now }
{
    match line.first() {
        Some(byte) => *byte == b'#',
        None => false,
    }
}
