ghost use Rattle.std.specs.Prelude.{ℕ, ◌<◌, ◌≤◌, length, IfOk};
ghost use Rattle.graph_law.specs.Classes.{HasMember};
ghost use Rattle.graph_law.specs.Graph.{Calls, lists_of};
ghost use Rattle.graph_law.specs.LegalOrder.{IsLegalOrder};

use crate::graphs::Row;
use graph_law::{Graph, classes_slow, heights_slow};
use group_release::levels;
use search_machine::drive_many;
use search_stack::groups_plain;
use std::alloc::{AllocError, Global};

/// The greatest number of searches of a schedule by which each graph is searched, and their seeds.
const MOST_SEARCHES: u32 = 4;

const SEEDS: u64 = 20;

/// The output for a line.
pub fn line_of(alloc: Global, row: &Row) -> Result<String, AllocError> {
    let graph = &row.graph;
    if let [searches, seed] = row.schedule.as_slice() {
        let (searches, seed) = (*searches, u64::from(*seed));
        if searches == 0 || searches > 64 {
            return format!(in alloc; "no schedule");
        }
        let groups = drive_many(alloc, graph, graph.roots(), searches, seed)?;
        return format!(in alloc; "{groups:?}");
    }
    let classes = classes_slow(alloc, graph)?;
    let heights = heights_slow(alloc, graph, &classes)?;
    let searched = search_groups(alloc, graph)?;
    let agree = schedules_agree(alloc, graph, &classes)?;
    let schedules = if agree { "as well" } else { "DIFFER" };
    format!(in alloc;
        "classes {classes:?} heights {heights:?} searched {searched} schedules {schedules}"
    )
}

/// The groups that one search finds, in order of their least members: the height of each, whether
/// it is recursive, and its members.
fn search_groups(alloc: Global, graph: &Graph) -> Result<String, AllocError> {
    let groups = groups(alloc, graph)?;
    let levels = levels(alloc, graph, &groups)?;
    let mut found = Vec::new(alloc);
    for (group, level) in groups.iter().zip(&levels) {
        let mut members = group.clone()?;
        members.sort_unstable();
        found.push((members, level.height, level.recursive))?;
    }
    found.sort()?;
    format!(in alloc; "{found:?}")
}

/// The groups of a graph, callees first.
fn groups(alloc: Global, graph: &Graph) -> Result<Vec<Vec<u32>>, AllocError>
    ensures legal { IfOk result (λ groups. IsLegalOrder (Calls graph.now.lists) (lists_of groups.items)) }
    ensures nodes { IfOk result (λ groups. (p : ℕ) → HasMember (lists_of groups.items) p → p < length graph.now.lists) }
{
    let roots = graph.roots();
    let groups = groups_plain(alloc, graph, roots)?;
    Ok(groups)
}

/// Whether the schedules of one to four searches, with twenty seeds each, release the SCCs.
fn schedules_agree(
    alloc: Global,
    graph: &Graph,
    classes: &Vec<Vec<u32>>,
) -> Result<bool, AllocError> {
    for searches in 1..=MOST_SEARCHES {
        for seed in 0..SEEDS {
            let mut groups = drive_many(alloc, graph, graph.roots(), searches, seed)?;
            groups.sort()?;
            if groups != *classes {
                return Ok(false);
            }
        }
    }
    Ok(true)
}
