//! What is asked of a program, and its groups.

use call_edges::CallLists;
use group_release::Level;

/// What is asked of a program: its call graph, the roots, and the ends of the path that is asked
/// for.
#[derive(Drop)]
pub struct Asked<'p> {
    pub calls: CallLists<'p>,
    pub roots: Vec<u32>,
    pub ends: Option<(u32, u32)>,
}

/// The groups that the roots reach in reverse topological order, with their levels.
#[derive(Clone, Copy)]
pub struct Grouped<'a, 'p> {
    pub asked: &'a Asked<'p>,
    pub groups: &'a [Vec<u32>],
    pub levels: &'a [Level],
}
