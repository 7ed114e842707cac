ghost use Rattle.std.specs.Prelude.{◌≡◌, ◌<◌, length, IfOk, OnOk};
ghost use Rattle.list_laws.specs.Counts.{IsLonger};
ghost use Rattle.graph_law.specs.Classes.{group_at, least_member};
ghost use Rattle.group_feed.specs.Copying.{AreCopiedUpTo, AreWithin};
ghost use Rattle.group_feed.specs.Ordered.{AreOrdered};

use group_release::{Book, Released};
use std::alloc::{AllocError, Global};

/// Copies the groups of the book that aren't copied yet, in their order, and visits only those that
/// were released since. The copies are in reverse topological order at each moment.
pub(crate) fn copy_new(alloc: Global, book: &Book, copies: &mut Released) -> Result<(), AllocError>
    requires count { copies.old.count ≡ length book.now.lists }
    requires ordered { AreOrdered book.now.lists copies.old.groups }
    requires within { AreWithin copies.old.groups book.now.groups }
    ensures count { copies.new.count ≡ copies.old.count }
    ensures ordered { AreOrdered book.now.lists copies.new.groups }
    ensures longer { IsLonger copies.old.groups copies.new.groups }
    ensures within { AreWithin copies.new.groups book.now.groups }
    ensures all { OnOk result (AreWithin book.now.groups copies.new.groups) }
{
    book.keeps();
    let from = first_new(book, copies);
    let released = book.released();
    for at in from..released.groups().len() {
        if copies.holds(first_member(released, at)) {
            continue;
        }
        let copy = copy_at(alloc, released, at)?;
        copies.append(copy);
    }
    Ok(())
}

// An index before which all groups are copied. There are as many copies as groups before it, and if
// no later group is a copy, each of those is one. No contract states that a later one is never a
// copy, so that is checked. Otherwise the result is the very first index.
fn first_new(book: &Book, copies: &Released) -> usize
    requires ordered { AreOrdered book.now.lists copies.now.groups }
    requires within { AreWithin copies.now.groups book.now.groups }
    ensures { AreCopiedUpTo result book.now.groups copies.now.groups }
{
    book.keeps();
    let released = book.released();
    let copied = copies.groups().len();
    for at in copied..released.groups().len() {
        if copies.holds(first_member(released, at)) {
            return 0;
        }
    }
    copied
}

// The first member of the group at the index.
fn first_member(released: &Released, at: usize) -> u32
    requires { at < length released.now.groups }
    ensures { result ≡ least_member (group_at released.now.groups at) }
{
    released.groups()[at][0]
}

/// A copy of the group at the index.
pub(crate) fn copy_at(alloc: Global, released: &Released, at: usize) -> Result<Vec<u32>, AllocError>
    requires { at < length released.now.groups }
    ensures { IfOk result (λ copy. copy.items ≡ group_at released.now.groups at) }
{
    Vec::from_slice(alloc, &released.groups()[at])
}
