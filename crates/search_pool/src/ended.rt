use node_claims::Pass;
use search_stack::Search;

/// How a worker ends.
#[derive(Drop)]
pub enum Ended {
    /// It has seen each root finished, and has no node.
    Finished {
        pass: Pass,
    },
    /// Memory ran out, here or at another worker, and the book has failed. The nodes of the pass
    /// are those of the search, and `unopened`, which it won and didn't push, if there is one.
    NoMemory {
        pass: Pass,
        search: Search,
        unopened: Option<u32>,
    },
}
