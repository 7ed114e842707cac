ghost use Rattle.std.specs.Prelude.{◌≡◌};

use std::hash::Hasher;

/// How many consecutive nodes share a slot of the table.
const NEIGHBOURS: u32 = 9;

/// Hashes a node so that consecutive nodes share a slot of a table, and the next ones the next
/// slot. They differ in the high bits that the table compares. So a search that reaches consecutive
/// nodes one after another seldom waits for memory. No two nodes compete for a slot of a table that
/// has capacity for all of them.
#[derive(Clone, Copy)]
pub(crate) struct NodeHasher {
    node: u32,
}

impl Default for NodeHasher {
    ghost is_default = { λ hasher. hasher ≡ record { node = 0 } };

    fn default() -> NodeHasher {
        NodeHasher { node: 0 }
    }
}

impl Hasher for NodeHasher {
    ghost use Rattle.search_stack.specs.NodeHash.{written, node_hash};

    ghost write = { written };

    ghost finish = { node_hash };

    fn finish(&self) -> u64 {
        (self.node / NEIGHBOURS) as u64 ^ ((self.node & 255) as u64) << 24
    }

    fn write(&mut self, bytes: &[u8]) {
        let mut node = self.node;
        for &byte in bytes {
            node = node >> 8 | (byte as u32) << 24;
        }
        self.node = node;
    }
}
