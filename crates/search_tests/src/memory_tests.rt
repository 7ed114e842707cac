use crate::graphs::graph_of_lists;
use graph_law::{Graph, Opener};
use search_machine::drive_many;
use search_stack::groups_plain;
use std::alloc::AllocError;
use std::test::Fail;

/// A graph that finds no memory to expand one node.
#[derive(Drop)]
struct Failing {
    graph: Graph,
    at: u32,
}

impl Opener for Failing {
    ghost lists = { λ failing. failing.graph.lists };

    fn count(&self) -> u32 {
        self.graph.count()
    }

    fn expand(&self, node: u32, out: &mut Vec<u32>) -> Result<(), AllocError> {
        if node == self.at {
            return Err(AllocError);
        }
        self.graph.expand(node, out)
    }
}

/// A cycle whose nodes are all roots, so that searches wait for each other when one of them finds
/// no memory.
#[test]
fn no_memory_at_a_node_is_told(rt: HostRuntime) -> Result<(), Fail> {
    let alloc = rt.alloc();
    for at in 0..3 {
        let graph = graph_of_lists(alloc, &[&[1], &[2], &[0]], &[0, 1, 2])?;
        let failing = Failing { graph, at };
        assert_eq!(rt; failing.count(), 3);
        assert!(rt; groups_plain(alloc, &failing, &[0, 1, 2]).is_err());
        assert!(rt; drive_many(alloc, &failing, &[0, 1, 2], 3, 7).is_err());
        assert!(rt; drive_many(alloc, &failing, &[0], 2, 7).is_err());
    }
    Ok(())
}
