use crate::graphs::{graph_of_lists, tailed_ring};
use crate::text::levels_shown;
use graph_law::{Graph, Opener, is_recursive};
use search_stack::groups_plain;
use std::alloc::Global;
use std::test::Fail;

#[test]
fn tells_callees_and_recursive_groups(rt: HostRuntime) -> Result<(), Fail> {
    let alloc = rt.alloc();
    let graph = tailed_ring(alloc)?;
    assert_eq!(rt; graph.count(), 4);
    assert!(rt; is_recursive(&graph, &[0, 1]));
    assert!(rt; !is_recursive(&graph, &[2]));
    assert!(rt; !is_recursive(&graph, &[3]));
    let mut out = Vec::new(alloc);
    graph.expand(1, &mut out)?;
    assert_eq!(rt; out.as_slice(), [2, 0].as_slice());
    Ok(())
}

#[test]
fn a_node_that_calls_itself_is_recursive(rt: HostRuntime) -> Result<(), Fail> {
    let alloc = rt.alloc();
    let graph = Graph::new(vec![in alloc; vec![in alloc; 0]?]?, Vec::new(alloc)).ok_or("refused")?;
    assert_eq!(rt; graph.count(), 1);
    assert!(rt; graph.roots().is_empty());
    assert!(rt; is_recursive(&graph, &[0]));
    Ok(())
}

#[test]
fn releases_callees_first_with_their_levels(rt: HostRuntime) -> Result<(), Fail> {
    let alloc = rt.alloc();
    let ring = tailed_ring(alloc)?;
    assert_eq!(rt;
        search_text(alloc, &ring)?.as_str(),
        "[[2], [0, 1], [3]] [(0, false), (1, true), (2, false)]"
    );
    let called = graph_of_lists(alloc, &[&[2], &[2], &[3], &[1, 0], &[1]], &[4, 0])?;
    assert_eq!(rt;
        search_text(alloc, &called)?.as_str(),
        "[[0, 1, 2, 3], [4]] [(0, true), (1, false)]"
    );
    Ok(())
}

/// The groups that one search finds, and their levels.
fn search_text(alloc: Global, graph: &Graph) -> Result<String, Fail> {
    let groups = groups_plain(alloc, graph, graph.roots())?;
    let levels = levels_shown(alloc, graph, &groups)?;
    Ok(format!(in alloc; "{groups:?} {levels}")?)
}
