//! Reads graphs, one a line, and prints the groups of each. A line has the callees of node 0, of
//! node 1 and so on, with `;` between them, then `|` and the roots. After a further `|` there may
//! be a number of searches, 1 to 64, and a seed. Then the groups are printed in the order in which
//! that schedule releases them.
#![tactic(auto)]

mod answers;
mod graphs;

use crate::graphs::Row;
use std::io;

fn main(rt: HostRuntime) -> io::Result<()> {
    let alloc = rt.alloc();
    for line in rt.lines(alloc) {
        let text = match Row::read(alloc, line?.as_str())? {
            None => format!(in alloc; "no graph")?,
            Some(row) => answers::line_of(alloc, &row)?,
        };
        println!(rt; "{text}")?;
    }
    Ok(())
}
