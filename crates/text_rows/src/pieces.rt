use std::alloc::AllocError;

/// Adds a text that was made, or returns why it wasn't.
pub fn push_made(out: &mut String, made: Result<String, AllocError>) -> Result<(), AllocError> {
    let piece = made?;
    out.push_str(&piece)
}
