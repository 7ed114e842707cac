use search_stack::{Opening, Search};
use std::alloc::{AllocError, Global};
use std::test::Fail;

#[test]
fn makes_room_and_takes_a_group(rt: HostRuntime) -> Result<(), Fail> {
    let alloc = rt.alloc();
    assert!(rt; makes_room(alloc)?);
    let mut search = calling_itself(alloc, 7)?;
    assert!(rt; !search.is_ripe());
    assert!(rt; is_group_in_the_end(&mut search, 7)?);
    assert_eq!(rt; search.len(), 0);
    Ok(())
}

#[test]
fn is_cut_at_a_node_and_wants_it(rt: HostRuntime) -> Result<(), Fail> {
    let alloc = rt.alloc();
    let mut search = calling_itself(alloc, 7)?;
    assert_eq!(rt; cut_at(&search, 7), (true, Some((0, 0))));
    assert_eq!(rt; cut_at(&search, 3), (false, None));
    assert_eq!(rt; search.wanted(), None);
    assert_eq!(rt; wanted_in_between(&mut search), Some(7));
    assert_eq!(rt; search.wanted(), None);
    Ok(())
}

/// Whether a search has the capacity that was asked for.
fn makes_room(alloc: Global) -> Result<bool, AllocError> {
    let mut search = Search::with_room(alloc, 3)?;
    if search.spare() < 3 {
        return Ok(false);
    }
    search.reserve(5)?;
    Ok(search.spare() >= 5 && search.is_empty())
}

/// A search that has pushed a node that calls itself.
fn calling_itself(alloc: Global, node: u32) -> Result<Search, AllocError> {
    let succs = vec![in alloc; node]?;
    let mut search = Search::with_room(alloc, 1)?;
    search.push(Opening { node, succs });
    Ok(search)
}

/// Follows the edge of the one node to itself, and takes the group. Whether each step is as it
/// should be.
fn is_group_in_the_end(search: &mut Search, node: u32) -> Result<bool, AllocError> {
    if search.len() != 1 {
        return Ok(false);
    }
    let None = search.wanted() else {
        return Ok(false);
    };
    let Some(next) = search.begin() else {
        return Ok(false);
    };
    if search.len() != 1 {
        return Ok(false);
    }
    if !search.back(next) {
        return Ok(false);
    }
    if search.len() != 1 {
        return Ok(false);
    }
    let None = search.begin() else {
        return Ok(false);
    };
    if !search.is_ripe() {
        return Ok(false);
    }
    let group = search.take_ripe()?;
    Ok(next == node && group.as_slice() == [node].as_slice())
}

/// Whether the search holds the node, and the position and the frame where it is cut at it.
fn cut_at(search: &Search, node: u32) -> (bool, Option<(u32, u32)>) {
    let cut = search.cut(node).map(|cut| (cut.position, cut.frame));
    (search.holds(node), cut)
}

/// Begins an edge and has the search wait for its node. What the search wants then, before it waits
/// for nothing again.
fn wanted_in_between(search: &mut Search) -> Option<u32> {
    if search.is_empty() {
        return None;
    }
    let None = search.wanted() else {
        return None;
    };
    let node = search.begin()?;
    search.set_wanted(node);
    let wanted = search.wanted();
    search.clear_wanted();
    wanted
}
