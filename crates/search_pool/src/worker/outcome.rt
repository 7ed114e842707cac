use super::stretch::Stretch;
use crate::ended::Ended;
use node_claims::Pass;
use search_stack::Search;

/// A worker between two locks.
#[derive(Drop)]
pub(crate) struct Worker {
    pub(crate) pass: Pass,
    /// The search that it runs. It is empty if the worker is idle.
    pub(crate) search: Search,
    /// The roots that were handed out to it.
    pub(crate) stretch: Stretch,
    /// How many roots, from the first on, have been seen finished.
    pub(crate) seen_roots: usize,
    /// How often it has found nothing to do since it last had a search.
    pub(crate) waits: u32,
    /// How many of its searches in a row had to wait after few nodes, and the node that the last of
    /// them waits for.
    pub(crate) vain: u32,
    pub(crate) awaited: u32,
}

/// How a step of a worker ended: it continues, or has ended.
#[derive(Drop)]
pub(crate) enum Outcome {
    On(Worker),
    Ended(Ended),
}
