/// What is wrong with a line.
#[derive(Clone, Copy, Debug, PartialEq, Eq)]
pub enum Cause {
    /// It isn't an object of JSON with a string `from`, and if there is a `to`, a string `to`.
    NotEdge,
    /// One of its names is too long.
    LongName,
}

/// A line that is no edge. Lines count from 1.
#[derive(Clone, Copy, Debug, PartialEq, Eq)]
pub struct LineFault {
    pub line: u32,
    pub cause: Cause,
}
