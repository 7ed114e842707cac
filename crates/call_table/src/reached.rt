//! The groups of what the roots reach, with their levels.

ghost use Rattle.std.specs.Prelude.{◌≡◌, ◌<◌, All, IfOk, length};
ghost use Rattle.call_edges.specs.Successors.{successor_lists};
ghost use Rattle.call_table.specs.Reached.{AreNodes};
ghost use Rattle.graph_law.specs.Graph.{Calls as ListCalls, lists_of};
ghost use Rattle.report_lines.specs.Reportable.{AreLeveled};

use call_edges::CallLists;
use group_release::{Level, levels};
use import_rules::Program;
use search_stack::groups_plain;
use std::alloc::{AllocError, Global};

/// Groups of predicates in reverse topological order, with the members of each ascending, and the
/// level of each group.
#[derive(Drop)]
pub struct Reached {
    pub groups: Vec<Vec<u32>>,
    pub levels: Vec<Level>,
}

/// The SCCs of all that the roots reach in reverse topological order, found by one search, and
/// their levels.
pub fn groups_from(
    alloc: Global,
    program: &Program,
    calls: &CallLists<'_>,
    roots: &[u32],
) -> Result<Reached, AllocError>
    requires calls { calls.now ≡ program.now }
    requires below { All (λ q. q < length program.now.predicates) roots.now }
    ensures groups { IfOk result (λ found. AreLeveled (ListCalls (successor_lists program.now))
        roots.now (lists_of found.groups.items) found.levels.items) }
    ensures nodes { IfOk result (λ found. AreNodes (length program.now.predicates) (lists_of found.groups.items)) }
    ensures one_level_each { IfOk result (λ found. length found.levels.items ≡ length found.groups.items) }
{
    let _program = program;
    let groups = groups_plain(alloc, calls, roots)?;
    let levels = levels(alloc, calls, &groups)?;
    Ok(Reached { groups, levels })
}
