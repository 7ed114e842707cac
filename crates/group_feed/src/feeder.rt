ghost use Rattle.std.specs.Prelude.{◌≡◌, ◌<◌, ◌≤◌, ◌+◌, ℕ, true, false, not, [], length, take, get_or, All, MatchResult, OnOk};
ghost use Rattle.crossbeam_queue.specs.Passes.{view, IsPassOf as is_line_pass, ruled_capacity};
ghost use Rattle.list_laws.specs.Counts.{IsLonger};
ghost use Rattle.graph_law.specs.Classes.{HasMember};
ghost use Rattle.graph_law.specs.Graph.{Calls, lists_of};
ghost use Rattle.graph_law.specs.Reach.{IsReached};
ghost use Rattle.search_pool.specs.Driving.{IsIdlePass};
ghost use Rattle.group_feed.specs.Copying.{AreCopied, AreNodesSeen, AreWithin};
ghost use Rattle.group_feed.specs.Driving.{AreFound};
ghost use Rattle.group_feed.specs.Feeder.{AreFed, HasToldFailure};
ghost use Rattle.group_feed.specs.Line.{feeding, newcomer};
ghost use Rattle.group_feed.specs.Ordered.{AreOrdered};

use crate::copy::{copy_at, copy_new};
use crate::ends::push;
use crate::line::{Graph, Line, LinePass, Parcel};
use group_release::{Book, Released};
use node_claims::{Claims, Pass};
use search_pool::pause;
use search_stack::Search;
use std::alloc::{AllocError, Global};
use std::sync::Wait;

/// Pushes the released groups on the line as they come, and at last the end mark. It ends if each
/// root is in one of them, and returns them. It also ends if the book has failed, and returns the
/// pass that knows it.
///
/// If memory runs out here, it marks the book as failed. Between two locks it sleeps longer and
/// longer, so that workers seldom find the lock taken by it. The contract holds if the call
/// returns.
pub(crate) fn feed<N: Graph, R: Wait>(
    rt: &R,
    alloc: Global,
    claims: &Claims,
    pass: Pass,
    roots: &[u32],
    line: &Line<N>,
    hand: LinePass,
    copies: Released,
) -> (LinePass, Result<Vec<Vec<u32>>, Pass>)
    requires made { claims.now.lists ≡ N.lists }
    requires roots { claims.now.roots ≡ roots.now }
    requires idle { IsIdlePass claims.now pass }
    requires line { is_line_pass line.now hand }
    requires room { ruled_capacity line.now ≡ length N.lists + 1 }
    requires new { view hand ≡ feeding newcomer }
    requires none { copies ≡ record { count = length N.lists; groups = [] } }
    ensures ended { (view result.0).ended ≡ true }
    ensures found { MatchResult result.1
        (λ groups. AreFound claims.now line.now result.0 (lists_of groups.items))
        (λ pass. HasToldFailure claims.now pass) }
{
    let mut pass = pass;
    let mut hand = hand;
    let mut copies = copies;
    let mut fed_roots = 0;
    let mut waits = 0;
    'turns: for _ in rt.forever() {
        let sent = copies.groups().len();
        let (after, goes_on) = copy_turn(rt, alloc, claims, pass, &mut copies);
        pass = after;
        if !goes_on {
            push(rt, line, &mut hand, None);
            return (hand, Err(pass));
        }
        if push_from(rt, alloc, line, &mut hand, &copies, sent).is_err() {
            let failed = fail_book(rt, alloc, claims, pass);
            push(rt, line, &mut hand, None);
            return (hand, Err(failed));
        }
        fed_roots = copied_roots(&copies, roots, fed_roots);
        if fed_roots == roots.len() {
            push(rt, line, &mut hand, None);
            return (hand, Ok(copies.into_groups()));
        }
        pause(rt, waits);
        waits = waits.saturating_add(1);
    }
    unreachable!()
}

// Copies under the lock what was released and isn't copied yet. Returns whether the book hasn't
// failed. If so, all that the returned pass has seen is copied, and otherwise that pass knows of
// the failure.
fn copy_turn(
    rt: &impl Wait,
    alloc: Global,
    claims: &Claims,
    pass: Pass,
    copies: &mut Released,
) -> (Pass, bool)
    requires idle { IsIdlePass claims.now pass }
    requires count { copies.old.count ≡ length claims.now.lists }
    requires ordered { AreOrdered claims.now.lists copies.old.groups }
    requires seen { AreNodesSeen copies.old.groups pass.view.seen }
    ensures idle { IsIdlePass claims.now result.0 }
    ensures count { copies.new.count ≡ copies.old.count }
    ensures are { AreFed claims.now copies.new.groups }
    ensures seen { AreNodesSeen copies.new.groups result.0.view.seen }
    ensures told { result.0.view.told ≡ not result.1 }
    ensures longer { IsLonger copies.old.groups copies.new.groups }
    ensures all { result.1 ≡ true → AreCopied result.0.view.seen copies.new.groups }
{
    let mut turn = claims.turn(rt, pass);
    let goes_on = copy_or_fail(alloc, turn.book(), copies);
    (turn.give(&Search::empty(alloc), None), goes_on)
}

// Copies what was released, or marks the book as failed. Returns whether the book hasn't failed.
fn copy_or_fail(alloc: Global, book: &mut Book, copies: &mut Released) -> bool
    requires count { copies.old.count ≡ length book.old.lists }
    requires ordered { AreOrdered book.old.lists copies.old.groups }
    requires within { AreWithin copies.old.groups book.old.groups }
    ensures book { book.new ≡ record book.old { failed = book.new.failed } }
    ensures failed { book.old.failed ≡ true → book.new.failed ≡ true }
    ensures told { book.new.failed ≡ not result }
    ensures count { copies.new.count ≡ copies.old.count }
    ensures ordered { AreOrdered book.old.lists copies.new.groups }
    ensures within { AreWithin copies.new.groups book.old.groups }
    ensures reached { (v : ℕ) → HasMember book.old.groups v → IsReached (Calls book.old.lists) book.old.roots v }
    ensures longer { IsLonger copies.old.groups copies.new.groups }
    ensures all { result ≡ true → AreWithin book.old.groups copies.new.groups }
{
    book.keeps();
    if book.has_failed() {
        return false;
    }
    if copy_new(alloc, book, copies).is_err() {
        book.fail();
        return false;
    }
    true
}

/// Marks the book as failed under the lock, so that the workers end too. The returned pass knows of
/// it.
pub(crate) fn fail_book(rt: &impl Wait, alloc: Global, claims: &Claims, pass: Pass) -> Pass
    requires { IsIdlePass claims.now pass }
    ensures { HasToldFailure claims.now result }
{
    let mut turn = claims.turn(rt, pass);
    turn.book().fail();
    turn.give(&Search::empty(alloc), None)
}

// Pushes the groups from an index on.
fn push_from<N: Graph, R: Wait>(
    rt: &R,
    alloc: Global,
    line: &Line<N>,
    hand: &mut LinePass,
    copies: &Released,
    from: usize,
) -> Result<(), AllocError>
    requires line { is_line_pass line.now hand.old }
    requires room { ruled_capacity line.now ≡ length N.lists + 1 }
    requires feeds { (view hand.old).feeds ≡ true }
    requires open_yet { (view hand.old).ended ≡ false }
    requires ordered { AreOrdered N.lists copies.now.groups }
    requires from { from ≤ length copies.now.groups }
    requires pushed { (view hand.old).pushed ≡ take from copies.now.groups }
    ensures line { is_line_pass line.now hand.new }
    ensures feeds { (view hand.new).feeds ≡ true }
    ensures open_yet { (view hand.new).ended ≡ false }
    ensures all { OnOk result ((view hand.new).pushed ≡ copies.now.groups) }
{
    for at in from..copies.groups().len() {
        let nodes = copy_at(alloc, copies, at)?;
        push(rt, line, hand, Some(Parcel { nodes }));
    }
    Ok(())
}

// How many roots, from the first on, are in one of the groups, if `from` of them are.
fn copied_roots(copies: &Released, roots: &[u32], from: usize) -> usize
    requires within { from ≤ length roots.now }
    requires before { All (HasMember copies.now.groups) (take from roots.now) }
    ensures within { result ≤ length roots.now }
    ensures copied { All (HasMember copies.now.groups) (take result roots.now) }
    ensures next { result < length roots.now → HasMember copies.now.groups (get_or roots.now result 0) → ⊥ }
{
    for index in from..roots.len() {
        if !copies.holds(roots[index]) {
            return index;
        }
    }
    roots.len()
}
