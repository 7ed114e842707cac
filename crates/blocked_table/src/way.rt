/// A cycle that a search would close: the node of the search that is waited for at its end, and how
/// many entries the other searches on it have.
#[derive(Clone, Copy)]
pub(crate) struct Way {
    pub(crate) end: u32,
    pub(crate) entries: u32,
}
