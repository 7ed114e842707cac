//! Lines of groups, which are written in parallel.

ghost use Rattle.std.specs.Prelude.{◌≡◌, ◌<◌, IfOk, All, length};
ghost use Rattle.std.specs.List.{flat_map};
ghost use Rattle.graph_law.specs.Graph.{lists_of};
ghost use Rattle.loop_report.specs.Report.{place_line};
ghost use Rattle.report_lines.specs.Reportable.{ArePrintable};
ghost use Rattle.loop_report.specs.Texts.{concatenated};

use crate::group_lines::push_groups;
use group_release::Level;
use import_rules::Program;
use rayon::prelude::*;
use std::alloc::{AllocError, Global};
use std::thread::Threads;

/// How many lines are written in sequence. Only the last text has fewer.
pub(crate) const SIZE: usize = 2_048;

/// How few texts are worth a thread of their own.
const FEWEST: usize = 1;

/// No list is as long, so one thread writes all texts.
const BY_ONE: usize = usize::MAX;

/// The initial capacity of a text in bytes: 32 for each line, as a whole report has.
const ROOM: usize = 65_536;

/// The lines of the groups at these indices.
fn group_text(
    alloc: Global,
    program: &Program,
    groups: &[Vec<u32>],
    levels: &[Level],
    order: &[u32],
) -> Result<Vec<u8>, AllocError>
    requires printable { ArePrintable (length program.now.predicates) (lists_of groups.now) levels.now }
    requires places { All (λ place. place < length groups.now) order.now }
    ensures { IfOk result (λ text. text.items
        ≡ flat_map (place_line program.now.predicates (lists_of groups.now) levels.now) order.now) }
{
    let mut text = String::with_capacity(alloc, ROOM)?;
    push_groups(alloc, &mut text, program, groups, levels, order)?;
    Ok(text.into_bytes())
}

/// The lines of the groups at these indices in texts one after another. A thread of its own writes
/// at least `fewest` texts.
fn group_pieces<R: Threads + Sync>(
    rt: &R,
    alloc: Global,
    program: &Program,
    groups: &[Vec<u32>],
    levels: &[Level],
    order: &[u32],
    fewest: usize,
) -> Result<Vec<Vec<u8>>, AllocError>
    requires printable { ArePrintable (length program.now.predicates) (lists_of groups.now) levels.now }
    requires places { All (λ place. place < length groups.now) order.now }
    ensures { IfOk result (λ texts. concatenated texts.items
        ≡ flat_map (place_line program.now.predicates (lists_of groups.now) levels.now) order.now) }
{
    order
        .par_chunks(SIZE)
        .with_min_len(fewest)
        .map(
            |part: &[u32]| -> Result<Vec<u8>, AllocError>
                requires printable { ArePrintable (length program.now.predicates) (lists_of groups.now) levels.now }
                requires places { All (λ place. place < length groups.now) part.now }
                ensures { IfOk result (λ text. text.items
                    ≡ flat_map (place_line program.entry.now.predicates (lists_of groups.entry.now) levels.entry.now) part.now) }
            { group_text(alloc, program, groups, levels, part) },
        )
        .collect::<Result<Vec<Vec<u8>>, AllocError>>(rt, alloc)?
}

/// The lines of the groups at these indices in texts one after another, written in parallel. If
/// memory runs out, one thread writes them once more, since each further one takes address space.
pub(crate) fn group_texts<R: Threads + Sync>(
    rt: &R,
    alloc: Global,
    program: &Program,
    groups: &[Vec<u32>],
    levels: &[Level],
    order: &[u32],
) -> Result<Vec<Vec<u8>>, AllocError>
    requires printable { ArePrintable (length program.now.predicates) (lists_of groups.now) levels.now }
    requires places { All (λ place. place < length groups.now) order.now }
    ensures { IfOk result (λ texts. concatenated texts.items
        ≡ flat_map (place_line program.now.predicates (lists_of groups.now) levels.now) order.now) }
{
    match group_pieces(rt, alloc, program, groups, levels, order, FEWEST) {
        Ok(texts) => Ok(texts),
        Err(_) => group_pieces(rt, alloc, program, groups, levels, order, BY_ONE),
    }
}
