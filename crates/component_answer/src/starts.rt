//! The nodes whose reach is reported.

ghost use Rattle.std.specs.Prelude.{◌≡◌, ◌<◌, ◌^◌, length, IfOk, Contains, MatchOption};
ghost use Rattle.std.specs.List.{range_with_len};
ghost use Rattle.byte_names.specs.Names.{AreInOrder, name_at, names_of};
ghost use Rattle.component_answer.specs.Starts.{AreNamedBy, AreStartsOf, IsNodeNamed};

use std::alloc::{AllocError, Global};

/// The nodes at which the search begins, or the index of the first root that is no node.
#[derive(Drop)]
pub(crate) enum Starts {
    Nodes(Vec<u32>),
    Missing(usize),
}

/// The node of that name.
fn node_named(names: &[&[u8]], name: &[u8]) -> Option<u32>
    requires few { length names.now < 2 ^ 32 }
    requires ordered { AreInOrder (names_of names.now) }
    ensures { MatchOption result (Contains (names_of names.now) name.now → ⊥) (IsNodeNamed (names_of names.now) name.now) }
{
    match names.binary_search(&name) {
        Ok(place) => Some(place as u32),
        Err(_) => None,
    }
}

/// All nodes below the count, ascending.
fn all_nodes(alloc: Global, count: u32) -> Result<Vec<u32>, AllocError>
    ensures { IfOk result (λ nodes. nodes.items ≡ range_with_len 0 count) }
{
    let mut nodes = Vec::with_capacity(alloc, count as usize)?;
    for node in 0..count {
        nodes.push(node)?;
    }
    Ok(nodes)
}

/// The nodes of these names.
fn named_nodes(alloc: Global, names: &[&[u8]], roots: &[&[u8]]) -> Result<Starts, AllocError>
    requires few { length names.now < 2 ^ 32 }
    requires ordered { AreInOrder (names_of names.now) }
    ensures { IfOk result (AreNamedBy (names_of names.now) (names_of roots.now)) }
{
    let mut nodes = Vec::with_capacity(alloc, roots.len())?;
    for root in roots {
        let Some(node) = node_named(names, root) else {
            return Ok(Starts::Missing(nodes.len()));
        };
        nodes.push(node)?;
    }
    Ok(Starts::Nodes(nodes))
}

/// The nodes of these names, or all nodes if there are no names.
pub(crate) fn starts_of(
    alloc: Global,
    names: &[&[u8]],
    roots: &[&[u8]],
) -> Result<Starts, AllocError>
    requires few { length names.now < 2 ^ 32 }
    requires ordered { AreInOrder (names_of names.now) }
    ensures { IfOk result (AreStartsOf (names_of names.now) (names_of roots.now)) }
{
    if roots.is_empty() {
        let nodes = all_nodes(alloc, names.len() as u32)?;
        return Ok(Starts::Nodes(nodes));
    }
    named_nodes(alloc, names, roots)
}
