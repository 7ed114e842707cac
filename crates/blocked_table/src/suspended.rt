use search_stack::Search;

/// What `Blocked::suspend` did: it suspended the search, or it moved the searches that this one
/// would wait for on top of it, and the search goes on.
#[derive(Drop)]
pub enum Suspended {
    Kept,
    Moved(Search),
}
