//! What moves if the upper part of one search is moved on top of another.

ghost use Rattle.std.specs.Prelude.{◌≡◌, ◌+◌, ◌<◌, ◌≤◌, ◌-◌, ◌^◌, ℕ, ◌++◌, All, Contains, nat_eq, length, map, take, drop, vec_capacity};
ghost use Rattle.std.specs.List.{IsDistinct};
ghost use Rattle.std.specs.Map.{keys_of};
ghost use Rattle.indexmap.specs.IndexMap.{spare};
ghost use Rattle.search_stack.specs.Fields.{stack_of};
ghost use Rattle.search_stack.specs.Search.{moved, last_begun as last_begun_on};
ghost use Rattle.search_stack.specs.Stack.{IsShaped, top, begun as begun_on, position as position_on};

use crate::cut::Cut;
use crate::frame::{Frame, top_frame};
use crate::node_hasher::NodeHasher;
use crate::search::Opened;
use indexmap::IndexMap;
use std::hash::BuildHasherDefault;

/// Moves the entries from an index on to the end of another map. It takes no memory.
pub(crate) fn move_entries(
    to: &mut IndexMap<u32, Opened, BuildHasherDefault<NodeHasher>>,
    from: &mut IndexMap<u32, Opened, BuildHasherDefault<NodeHasher>>,
    at: usize,
)
    requires within { at ≤ length from.old.entries }
    requires room { length from.old.entries ≤ spare to.old + at }
    requires distinct { IsDistinct nat_eq (keys_of from.old.entries) }
    requires apart { (v : ℕ) → Contains (keys_of to.old.entries) v → Contains (keys_of from.old.entries) v → ⊥ }
    ensures to { to.new.entries ≡ to.old.entries ++ drop at from.old.entries }
    ensures from { from.new.entries ≡ take at from.old.entries }
    ensures to_room { spare to.old + at ≤ spare to.new + length from.old.entries }
    ensures from_room { spare from.old ≤ spare from.new }
{
    let len = from.len();
    'moves: for (node, opened) in from.drain(at..len) {
        to.insert(node, opened).unwrap();
    }
}

/// Moves the frames from a cut on to the end of another list, where the position of the first of
/// them becomes `base`. It takes no memory.
pub(crate) fn move_frames(to: &mut Vec<Frame>, from: &mut Vec<Frame>, cut: Cut, base: u32)
    requires within { cut.frame ≤ length from.old.items }
    requires room { length to.old.items + length from.old.items ≤ vec_capacity to.old + cut.frame }
    requires positions { All (λ frame. cut.position ≤ frame.position) (drop cut.frame from.old.items) }
    requires lows { All (λ frame. cut.position ≤ frame.low) (drop cut.frame from.old.items) }
    requires small_positions { All (λ frame. base + frame.position < 2 ^ 32 + cut.position) (drop cut.frame from.old.items) }
    requires small_lows { All (λ frame. base + frame.low < 2 ^ 32 + cut.position) (drop cut.frame from.old.items) }
    ensures to { to.new.items ≡ to.old.items ++ map (moved base cut.position) (drop cut.frame from.old.items) }
    ensures from { from.new.items ≡ take cut.frame from.old.items }
    ensures to_room { vec_capacity to.old ≤ vec_capacity to.new }
    ensures from_room { vec_capacity from.old ≤ vec_capacity from.new }
{
    for frame in &from[cut.frame as usize..] {
        to.push(Frame {
            position: base + (frame.position - cut.position),
            low: base + (frame.low - cut.position),
        })
        .unwrap();
    }
    from.truncate(cut.frame as usize);
}

/// The last successor that the top frame's entry has begun, or none if there is no frame.
pub(crate) fn last_begun(
    opened: &IndexMap<u32, Opened, BuildHasherDefault<NodeHasher>>,
    frames: &[Frame],
) -> Option<u32>
    requires shaped { IsShaped (stack_of opened.now.entries frames.now) }
    requires begins { 0 < length frames.now → 0 < begun_on (stack_of opened.now.entries frames.now)
        (position_on (stack_of opened.now.entries frames.now) (top (stack_of opened.now.entries frames.now))) }
    ensures { result ≡ last_begun_on (stack_of opened.now.entries frames.now) }
{
    if frames.is_empty() {
        return None;
    }
    let frame = top_frame(frames);
    let opened = &opened[frame.position as usize];
    Some(opened.succs[opened.begun - 1])
}
