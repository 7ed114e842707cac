/// How many files are read at most.
pub const MOST_FILES: usize = 1024;

/// How many bytes the files have together at most.
pub const MOST_TEXT: u32 = 33_554_432;
