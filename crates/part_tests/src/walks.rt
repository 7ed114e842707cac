//! Least walks of graphs of few nodes, by tables of all walks.

use crate::graphs::nodes_in;
use std::alloc::{AllocError, Global};

/// The nodes that a node calls.
pub fn row(rows: &[u32], node: u32) -> u32 {
    rows.get(node as usize).copied().unwrap_or(0)
}

/// The set of one node.
pub fn alone(node: u32) -> u32 {
    1u32.wrapping_shl(node)
}

/// The nodes that call one of a set.
fn callers(rows: &[u32], set: u32) -> u32 {
    let mut found = 0;
    for node in 0..8 {
        if row(rows, node) & set != 0 {
            found |= alone(node);
        }
    }
    found
}

/// The nodes from which zero calls lead to a node, one call, two and so on, up to eight.
fn sets_to(alloc: Global, rows: &[u32], to: u32) -> Result<Vec<u32>, AllocError> {
    let mut sets = Vec::new(alloc);
    let mut set = alone(to);
    for _ in 0..9 {
        sets.push(set)?;
        set = callers(rows, set);
    }
    Ok(sets)
}

/// The first of the walks, by their first different nodes, from a node to that of the first set.
/// The last set has the nodes that are called first.
fn first_walk(
    alloc: Global,
    rows: &[u32],
    from: u32,
    sets: &[u32],
) -> Result<Vec<u32>, AllocError> {
    let mut walk = Vec::new(alloc);
    let mut node = from;
    walk.push(node)?;
    for &set in sets.iter().rev() {
        node = (row(rows, node) & set).trailing_zeros();
        walk.push(node)?;
    }
    Ok(walk)
}

/// The least walk from one node to another with at least this many calls, or none.
pub fn least_walk(
    alloc: Global,
    rows: &[u32],
    from: u32,
    to: u32,
    least: usize,
) -> Result<Option<Vec<u32>>, AllocError> {
    let sets = sets_to(alloc, rows, to)?;
    for calls in least..sets.len() {
        if sets[calls] & alone(from) != 0 {
            return Ok(Some(first_walk(alloc, rows, from, &sets[..calls])?));
        }
    }
    Ok(None)
}

/// The least closed walk of a node without its last node, or none.
pub fn least_circuit(
    alloc: Global,
    rows: &[u32],
    node: u32,
) -> Result<Option<Vec<u32>>, AllocError> {
    let Some(mut walk) = least_walk(alloc, rows, node, node, 1)? else {
        return Ok(None);
    };
    walk.pop();
    Ok(Some(walk))
}

/// The nodes that a set reaches.
pub fn reach(alloc: Global, rows: &[u32], set: u32) -> Result<u32, AllocError> {
    let mut found = set;
    for _ in 0..8 {
        for &node in &nodes_in(alloc, found)? {
            found |= row(rows, node);
        }
    }
    Ok(found)
}
