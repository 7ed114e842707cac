ghost use Rattle.std.specs.Prelude.{◌≡◌, ◌<◌, IfOk};

use crate::graphs::{graph_of_lists, small_graph};
use graph_law::{Graph, Opener, classes_slow};
use search_machine::{Machine, Step};
use search_stack::Opening;
use std::alloc::{AllocError, Global};
use std::test::Fail;

/// What is seen after a turn: the node that was claimed, and whether the first place and the second
/// can act then.
type Seen = (Option<u32>, bool, bool);

/// A graph, the order in which two places act, and what is seen after each turn, with the released
/// groups at the end.
struct Row {
    lists: &'static [&'static [u32]],
    roots: &'static [u32],
    places: &'static [u32],
    seen: &'static str,
}

fn rows() -> &'static [Row] {
    &[
        // 0 and 1 call each other, and both are roots. Each place takes a root. The first search is
        // suspended, and moves on top of the second, which joins its segments and releases them.
        Row {
            lists: &[&[1], &[0]],
            roots: &[0, 1],
            places: &[0, 1, 0, 1, 1, 1],
            seen: "[(Some(0), true, true), (Some(1), true, true), (None, false, true), \
                 (None, false, true), (None, false, true), (None, false, false)] [[0, 1]]",
        },
        // The second place has 1, 2 and 3, goes back to 1, and is suspended at 0. The first waits
        // for 2, but 3 has gone back to below 2. So all three nodes move on top of 0, are joined to
        // it and released with it.
        Row {
            lists: &[&[2], &[2], &[3], &[1, 0]],
            roots: &[0, 1],
            places: &[0, 1, 1, 1, 1, 1, 0, 0, 0, 0, 0],
            seen: "[(Some(0), true, true), (Some(1), true, true), (Some(2), true, true), \
                 (Some(3), true, true), (None, true, true), (None, true, false), \
                 (None, true, false), (None, true, false), (None, true, false), \
                 (None, true, false), (None, false, false)] [[0, 1, 2, 3]]",
        },
        // The same, but the second place begins at 4, which stays suspended when 1, 2 and 3 are
        // moved, and waits for 1. The second place has nothing to take until 1 is released: then 4
        // is ready.
        Row {
            lists: &[&[2], &[2], &[3], &[1, 0], &[1]],
            roots: &[0, 4],
            places: &[0, 1, 1, 1, 1, 1, 1, 0, 0, 0, 0, 0, 1, 1],
            seen: "[(Some(0), true, true), (Some(4), true, true), (Some(1), true, true), \
                 (Some(2), true, true), (Some(3), true, true), (None, true, true), \
                 (None, true, false), (None, true, false), (None, true, false), \
                 (None, true, false), (None, true, false), (None, true, true), \
                 (None, false, true), (None, false, false)] [[0, 1, 2, 3], [4]]",
        },
    ]
}

/// Searches at two places become one group. A suspended search comes whole where a low is below the
/// cut. Otherwise its rest waits for the release.
#[test]
fn searches_at_two_places_wait_for_each_other(rt: HostRuntime) -> Result<(), Fail> {
    let alloc = rt.alloc();
    for row in rows() {
        let graph = graph_of_lists(alloc, row.lists, row.roots)?;
        let mut seen = Vec::new(alloc);
        let groups = groups_in_turns(alloc, &graph, 2, row.places, &mut seen)?;
        assert_eq!(rt;
            format!(in alloc; "{seen:?} {groups:?}")?.as_str(),
            row.seen
        );
    }
    Ok(())
}

#[test]
fn releases_the_classes_of_all_small_graphs(rt: HostRuntime) -> Result<(), Fail> {
    let alloc = rt.alloc();
    for count in 1..4 {
        for edges in 0..1u32 << (count * count) {
            let graph = small_graph(alloc, count, edges)?.ok_or("refused")?;
            assert!(rt; agrees(alloc, &graph)?);
        }
    }
    Ok(())
}

/// Whether the groups, in order of their least members, are the SCCs. There are two and three
/// places, which act one to three times in a row.
fn agrees(alloc: Global, graph: &Graph) -> Result<bool, Fail> {
    let classes = classes_slow(alloc, graph)?;
    for pattern in 0..6u32 {
        let mut seen = Vec::new(alloc);
        let places = 2 + pattern % 2;
        let turns = turns_in_rows(alloc, places, 1 + pattern / 2)?;
        let mut groups = groups_in_turns(alloc, graph, places, &turns, &mut seen)?;
        groups.sort()?;
        if groups != classes {
            return Ok(false);
        }
    }
    Ok(true)
}

/// An order in which each place acts `row` times in a row.
fn turns_in_rows(alloc: Global, places: u32, row: u32) -> Result<Vec<u32>, AllocError>
    requires places { 0 < places }
    requires row { 0 < row }
{
    let mut turns = Vec::new(alloc);
    for turn in 0..200u32 {
        turns.push(turn / row % places)?;
    }
    Ok(turns)
}

/// The groups that a machine releases whose places act in the listed order. A place whose turn it
/// is does nothing if it can't act.
fn groups_in_turns(
    alloc: Global,
    graph: &Graph,
    places: u32,
    turns: &[u32],
    seen: &mut Vec<Seen>,
) -> Result<Vec<Vec<u32>>, Fail> {
    let mut machine = Machine::make(alloc, graph, graph.roots(), places)?;
    'turns: for &place in turns {
        if !machine.can_act(place) {
            continue;
        }
        let claimed = take_turn(alloc, graph, &mut machine, place)?;
        seen.push((claimed, machine.can_act(0), machine.can_act(1)))?;
    }
    Ok(machine.into_groups())
}

/// Lets a place act, and expands the node that it has claimed.
fn take_turn(
    alloc: Global,
    graph: &Graph,
    machine: &mut Machine,
    place: u32,
) -> Result<Option<u32>, Fail>
    requires { machine.old.lists ≡ graph.now.lists }
    ensures { IfOk result (λ _. machine.new.lists ≡ graph.now.lists) }
{
    machine.keeps();
    if !machine.can_act(place) {
        return Err("the place can't act".into());
    }
    let Step::Open(node) = machine.act(place)? else {
        return Ok(None);
    };
    if node >= graph.count() {
        return Err("no such node".into());
    }
    let mut succs = Vec::new(alloc);
    graph.expand(node, &mut succs)?;
    match machine.opened(alloc, place, Opening { node, succs }) {
        Ok(()) => Ok(Some(node)),
        Err((error, _)) => Err(error.into()),
    }
}
