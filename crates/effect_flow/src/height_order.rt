ghost use Rattle.std.specs.Prelude.{◌≡◌, ℕ, ◌<◌, ◌≤◌, length, map, All, IfOk};
ghost use Rattle.effect_flow.specs.Heights.{AreByHeight, height_at};

use group_release::Level;
use rayon::prelude::*;
use std::alloc::{AllocError, Global};
use std::thread::Threads;

/// A group's index, and its height, by which it is sorted.
#[derive(Clone, Copy, PartialEq, Eq, PartialOrd, Ord)]
struct Stand {
    height: u32,
    place: usize,
}

/// The indices of the groups, lower ones first. They are sorted in parallel.
pub fn height_order<R: Threads + Sync>(
    rt: &R,
    alloc: Global,
    levels: &[Level],
) -> Result<Vec<usize>, AllocError>
    ensures { IfOk result (λ order. AreByHeight levels.now order.items) }
{
    let mut stands = Vec::with_capacity(alloc, levels.len())?;
    for (place, level) in levels.iter().enumerate() {
        stands.push(Stand {
            height: level.height,
            place,
        })?;
    }
    par_sort_unstable(rt, &mut stands);
    places_in(alloc, &stands)
}

fn places_in(alloc: Global, stands: &[Stand]) -> Result<Vec<usize>, AllocError>
    ensures { IfOk result (λ places. places.items ≡ map (λ each. each.place) stands.now) }
{
    stands.iter().map(|each| each.place).collect(alloc)
}

/// The end of the groups with the same height as the one at `from`.
pub fn height_end(levels: &[Level], order: &[usize], from: usize) -> usize
    requires within { All (λ place. place < length levels.now) order.now }
    requires from { from < length order.now }
    ensures some { from < result }
    ensures most { result ≤ length order.now }
    ensures level { (k : ℕ) → from ≤ k → k < result → height_at levels.now order.now k ≡ height_at levels.now order.now from }
{
    let height = levels[order[from]].height;
    let mut at = from + 1;
    while at < order.len() {
        if levels[order[at]].height != height {
            break;
        }
        at += 1;
    }
    at
}
