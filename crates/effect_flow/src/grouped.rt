/// A graph and its groups.
#[derive(Drop)]
pub(crate) struct Grouped<'a, O> {
    pub(crate) opener: &'a O,
    /// The groups, in reverse topological order.
    pub(crate) groups: &'a [Vec<u32>],
    /// For each node the kinds that it has itself, as a set of bits.
    pub(crate) own: &'a [u64],
    /// For each node the index of its group.
    pub(crate) places: &'a [usize],
}
