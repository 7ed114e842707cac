/// How many workers or searches there are at most.
pub const MOST_WORKERS: u32 = 64;

/// How many predicates a generated program has at most.
pub const MOST_MADE: u32 = 100_000;

/// How many bytes a list of predicates has at most.
pub const MOST_LIST: usize = 65_536;
