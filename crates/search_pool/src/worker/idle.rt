ghost use Rattle.std.specs.Prelude.{◌≡◌, ◌<◌, ◌≤◌, take, slice_index, slice_range, length, All, OnOk, false};
ghost use Rattle.graph_law.specs.Classes.{HasMember};
ghost use Rattle.search_stack.specs.Stack.{size};
ghost use Rattle.search_pool.specs.Working.{GoesWell, IsAtWork};

use super::give::give_back;
use super::outcome::{Outcome, Worker};
use super::roots::open_next;
use super::stop::stop;
use super::stretch::Stretch;
use crate::crew::Crew;
use crate::ended::Ended;
use crate::gate::Gate;
use crate::pausing::pause;
use graph_law::Opener;
use group_release::Book;
use node_claims::Claims;
use std::alloc::{AllocError, Global};
use std::sync::Wait;

// Into how many stretches the roots are handed out, if there are enough: four for each of 64
// workers.
const STRETCHES: usize = 256;

// How many searches in a row may have to wait after few nodes before the worker waits too, if
// expanding nodes is cheap.
const MOST_VAIN: u32 = 4;

// The most roots of a stretch. One lock for this many costs next to nothing, and no worker is left
// with much.
const MOST_ROOTS: usize = 256;

/// Begins at the next root that was handed out to the worker. If it has claimed all of these, it
/// takes a ready search, or otherwise is handed more roots. If there is neither, the worker has
/// finished if each root is released, and otherwise it backs off.
pub(crate) fn take_up<O: Opener, G: Gate>(
    rt: &impl Wait,
    alloc: Global,
    claims: &Claims,
    worker: Worker,
    opener: &O,
    gate: &G,
    crew: &Crew,
) -> Outcome
    requires made { claims.now.lists ≡ O.lists opener.now }
    requires at_work { IsAtWork claims.now worker false }
    requires idle { size worker.search.stack ≡ 0 }
    ensures { GoesWell claims.now result }
{
    if are_too_many(worker.vain, crew) {
        return hold_back(rt, claims, worker);
    }
    if worker.stretch.next < worker.stretch.roots.len() {
        return open_next(rt, alloc, claims, worker, opener, gate, crew);
    }
    let Worker {
        pass,
        search,
        mut stretch,
        seen_roots,
        waits,
        vain: _,
        awaited: _,
    } = worker;
    let mut turn = claims.turn(rt, pass);
    let book = turn.book();
    if book.has_failed() {
        return Outcome::Ended(stop(turn, search, None));
    }
    if let Some(ready) = book.take_ready() {
        return Outcome::On(give_back(turn, ready, stretch, seen_roots));
    }
    book.keeps();
    let Ok(()) = hand_out(book, &mut stretch) else {
        return Outcome::Ended(stop(turn, search, None));
    };
    if !stretch.roots.is_empty() {
        return Outcome::On(give_back(turn, search, stretch, seen_roots));
    }
    let seen_roots = released_roots(book, seen_roots);
    let all = seen_roots == book.roots().len();
    let mut worker = give_back(turn, search, stretch, seen_roots);
    if all {
        return Outcome::Ended(Ended::Finished { pass: worker.pass });
    }
    pause(rt, waits);
    worker.waits = waits.saturating_add(1);
    Outcome::On(worker)
}

// Whether the worker should start no new search, because its last `vain` ones had to wait at once.
// Never if expanding is dear: the nodes that it expanded are moved on top of the search that it
// waits for, which need not expand them.
fn are_too_many(vain: u32, crew: &Crew) -> bool {
    vain >= MOST_VAIN && !crew.finds_expansions_dear()
}

// Backs off if the worker's last searches all had to wait at once. It starts no other until the
// node is released that the last of them waits for. That node is on a search that runs, or on one
// that waits for such a search or for a ready one. A ready one is taken.
fn hold_back(rt: &impl Wait, claims: &Claims, worker: Worker) -> Outcome
    requires at_work { IsAtWork claims.now worker false }
    requires idle { size worker.search.stack ≡ 0 }
    ensures { GoesWell claims.now result }
{
    let Worker {
        pass,
        search,
        stretch,
        seen_roots,
        waits,
        vain,
        awaited,
    } = worker;
    let mut turn = claims.turn(rt, pass);
    let book = turn.book();
    if book.has_failed() {
        return Outcome::Ended(stop(turn, search, None));
    }
    if let Some(ready) = book.take_ready() {
        return Outcome::On(give_back(turn, ready, stretch, seen_roots));
    }
    let released = book.released().holds(awaited);
    let mut worker = give_back(turn, search, stretch, seen_roots);
    if released {
        return Outcome::On(worker);
    }
    pause(rt, waits);
    worker.waits = waits.saturating_add(1);
    worker.vain = vain;
    worker.awaited = awaited;
    Outcome::On(worker)
}

// How many roots are handed out at once: few enough that each of the workers gets several
// stretches. Few roots are handed out one by one.
fn stretch_len(roots: usize) -> usize
    ensures { 0 < result }
{
    (roots / STRETCHES).clamp(1, MOST_ROOTS)
}

// Hands out the next roots, if some are left, to a worker that has claimed all its earlier ones.
fn hand_out(book: &mut Book, stretch: &mut Stretch) -> Result<(), AllocError>
    requires used { length stretch.old.roots.items ≤ stretch.old.next }
    ensures only { book.new ≡ record book.old { given = book.new.given } }
    ensures handed { OnOk result (stretch.new.roots.items ≡ slice_range book.old.roots book.old.given book.new.given) }
    ensures unclaimed { stretch.new.next ≡ 0 }
    ensures all { OnOk result (length stretch.new.roots.items ≡ 0 → book.new.given ≡ length book.old.roots) }
{
    let most = stretch_len(book.roots().len());
    stretch.roots.clear();
    stretch.next = 0;
    for _turn in 0..most {
        let Some(root) = book.next_root() else {
            return Ok(());
        };
        stretch.roots.push(root)?;
    }
    Ok(())
}

// How many roots, from the first on, are released, if `from` of them are.
fn released_roots(book: &Book, from: usize) -> usize
    requires within { from ≤ length book.now.roots }
    requires before { All (λ root. HasMember book.now.groups root) (take from book.now.roots) }
    ensures within { result ≤ length book.now.roots }
    ensures released { All (λ root. HasMember book.now.groups root) (take result book.now.roots) }
    ensures all { result < length book.now.roots → HasMember book.now.groups (slice_index book.now.roots result) → ⊥ }
{
    let roots = book.roots();
    for index in from..roots.len() {
        if !book.released().holds(roots[index]) {
            return index;
        }
    }
    roots.len()
}
