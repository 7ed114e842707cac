//! Compares witnesses of effects, least paths and cycles of random graphs of one to eight nodes
//! with tables of all walks. It prints for each of these whether all were equal. It also compares
//! the kinds of effects with the table of their names.
#![tactic(auto)]

mod carriers;
mod draws;
mod graphs;
mod kinds;
mod paths;
mod walks;

use crate::carriers::carriers_agree;
use crate::draws::Draws;
use crate::graphs::{graph_of, random_rows};
use crate::kinds::kinds_agree;
use crate::paths::{circuits_agree, paths_agree};
use std::io;

/// How many graphs there are of each number of nodes.
const GRAPHS: u32 = 60;

/// The greatest number of nodes.
const MOST_NODES: u32 = 8;

/// What was equal each time.
#[derive(Drop)]
struct Agreed {
    carriers: bool,
    paths: bool,
    circuits: bool,
}

fn main(rt: HostRuntime) -> io::Result<()> {
    let alloc = rt.alloc();
    let mut draws = Draws::new(1);
    let mut agreed = Agreed {
        carriers: true,
        paths: true,
        circuits: true,
    };
    for number in 0..MOST_NODES * GRAPHS {
        let rows = random_rows(alloc, number % MOST_NODES, &mut draws)?;
        let graph = graph_of(alloc, &rows)?;
        agreed.carriers &= carriers_agree(&rt, alloc, &rows, &graph, &mut draws)?;
        agreed.paths &= paths_agree(alloc, &rows, &graph)?;
        agreed.circuits &= circuits_agree(alloc, &rows, &graph)?;
    }
    println!(rt; "carriers {}", agreed.carriers)?;
    println!(rt; "paths {}", agreed.paths)?;
    println!(rt; "circuits {}", agreed.circuits)?;
    println!(rt; "kinds {}", kinds_agree())
}
