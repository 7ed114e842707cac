/// Why a search stopped that ran without the lock.
#[derive(Clone, Copy, Debug)]
pub(crate) enum Stopped {
    /// Its top segment is an SCC.
    Ripe,
    /// It has to wait: its last edge leads to this node, which another search has.
    Wants(u32),
    /// Memory ran out for the successors of this node, which the pass has won.
    Unopened(u32),
    /// Memory ran out for one more entry.
    NoRoom,
}
