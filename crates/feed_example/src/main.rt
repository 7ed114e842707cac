//! An analysis that gets each group as soon as it is released, while four workers search: it writes
//! one line for each, callees before callers.
#![tactic(auto)]

use graph_law::Graph;
use group_feed::{Taker, Trail, drive_feed};
use search_pool::OpenGate;
use std::alloc::{AllocError, Global};
use std::io::Write;
use std::process::ExitCode;
use std::rt::Stdout;
use std::sync::Wait;
use std::thread::Threads;

/// An example of a taker. It means the graph that it was made for, and the groups of its trail. It
/// stores none of them itself.
#[derive(Drop)]
struct Lines<'a> {
    graph: &'a Graph,
    trail: Trail,
    out: Stdout,
    written: bool,
}

impl<'a> Taker for Lines<'a> {
    ghost lists = { λ lines. lines.graph.now.lists };

    ghost taken = { λ lines. lines.trail };

    fn take(&mut self, group: &[u32]) -> Result<(), AllocError> {
        self.trail.add(group);
        if writeln!(self.out, "{group:?}").is_err() {
            self.written = false;
        }
        Ok(())
    }
}

/// Two cycles and a node between them, of which each calls the next: they have only one reverse
/// topological order.
fn rings(alloc: Global) -> Result<Option<Graph>, AllocError> {
    let lists: [&[u32]; 5] = [&[1], &[0, 2], &[3], &[4], &[3]];
    let mut succs = Vec::new(alloc);
    for list in lists {
        succs.push(list.to_vec(alloc)?)?;
    }
    let roots: &[u32] = &[0];
    Ok(Graph::new(succs, roots.to_vec(alloc)?))
}

/// Writes the groups, and returns whether each line was written.
fn write_groups<R: Threads + Wait + Sync>(
    rt: &R,
    alloc: Global,
    out: Stdout,
) -> Result<bool, AllocError> {
    let Some(graph) = rings(alloc)? else {
        return Ok(false);
    };
    let mut lines = Lines {
        graph: &graph,
        trail: Trail::new(),
        out,
        written: true,
    };
    drive_feed(rt, alloc, &graph, graph.roots(), 4, &OpenGate, &mut lines)?;
    Ok(lines.written)
}

fn main(rt: HostRuntime) -> ExitCode {
    match write_groups(&rt, rt.alloc(), rt.stdout()) {
        Ok(true) => ExitCode::SUCCESS,
        _ => ExitCode::FAILURE,
    }
}
