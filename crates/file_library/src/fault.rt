use clause_text::Cause;
use prolog_tokens::{Place, Text};

/// An error in a file, with its position: the byte offset, and the line and the column. An error
/// for a file that isn't there has line 0 and column 0.
#[derive(Debug, Drop)]
pub struct Fault {
    pub file: Text,
    pub offset: u32,
    pub place: Place,
    pub cause: Cause,
}
