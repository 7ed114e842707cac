//! Graphs of few nodes as rows. A row is a set of nodes, whose bit q is set if node q is in it. The
//! row of node p has the nodes that p calls.

use crate::draws::Draws;
use graph_law::Graph;
use std::alloc::{AllocError, Global};
use std::io::{self, ErrorKind};

/// A set of eight nodes.
const EIGHT: u32 = 255;

/// The nodes of a set, ascending.
pub fn nodes_in(alloc: Global, set: u32) -> Result<Vec<u32>, AllocError> {
    let mut nodes = Vec::new(alloc);
    for node in 0..32 {
        if set >> node & 1 == 1 {
            nodes.push(node)?;
        }
    }
    Ok(nodes)
}

/// Rows of eight nodes, without a number of them. Half of the graphs have few calls, so that they
/// have many groups.
pub fn random_rows(alloc: Global, fewer: u32, draws: &mut Draws) -> Result<Vec<u32>, AllocError> {
    let all = EIGHT.wrapping_shr(fewer);
    let sparse = draws.next() & 1 == 1;
    let mut rows = Vec::new(alloc);
    for _ in &nodes_in(alloc, all)? {
        let mut row = draws.next() & draws.next();
        if sparse {
            row &= draws.next();
        }
        rows.push(row & all)?;
    }
    Ok(rows)
}

/// The graph of these rows, in which each node is a root.
pub fn graph_of(alloc: Global, rows: &[u32]) -> io::Result<Graph> {
    let mut succs = Vec::new(alloc);
    let mut roots = Vec::new(alloc);
    let mut node = 0u32;
    for &row in rows {
        succs.push(nodes_in(alloc, row)?)?;
        roots.push(node)?;
        node = node.wrapping_add(1);
    }
    Graph::new(succs, roots).ok_or(ErrorKind::InvalidInput.into())
}
