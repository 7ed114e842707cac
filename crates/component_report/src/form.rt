/// How a report is written.
#[derive(Clone, Copy, Debug, PartialEq, Eq, Drop)]
pub enum Form {
    /// Lines of words.
    Lines,
    /// JSON Lines: an object on each line (RFC 8259).
    Json,
}
