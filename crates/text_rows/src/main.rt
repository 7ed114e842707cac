//! Reads rows, one a line, and prints what the functions that read texts return for each.
//!
//! A line that begins with `#` and a blank says what is asked of the rows after it. Its second word
//! says what they are for. It is printed unchanged. Each other line is a row. It is printed with
//! ` => ` and the result after it.
//!
//! In a row `¶` is a newline. Between `«` and `»` is one of these:
//!
//! - a character by its number in base 16;
//! - a byte by its number, if an `x` is before it;
//! - text that is repeated as often as the number before its `*` says.
#![tactic(auto)]

mod ask;
mod file_facts;
mod operators;
mod pieces;
mod places;
mod row;
mod terms;
mod texts;
mod tokens;
mod words;

use crate::ask::{Ask, told};
use crate::row::shown;
use std::alloc::{AllocError, Global};
use std::io;
use std::thread::Threads;

/// What is printed after a row.
fn answer_to<R: Threads + Sync>(
    rt: &R,
    alloc: Global,
    ask: Ask,
    row: &str,
) -> Result<String, AllocError> {
    let answer = told(rt, alloc, ask, row)?;
    shown(alloc, answer.as_str())
}

fn main(rt: HostRuntime) -> io::Result<()> {
    let alloc = rt.alloc();
    let mut ask = Ask::Tokens;
    for line in rt.lines(alloc) {
        let line = line?;
        if let Some(heading) = line.strip_prefix("# ") {
            ask = Ask::of(heading);
            println!(rt; "{line}")?;
            continue;
        }
        let answer = answer_to(&rt, alloc, ask, line.as_str())?;
        println!(rt; "{line} => {answer}")?;
    }
    Ok(())
}
