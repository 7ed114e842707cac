ghost use Rattle.std.specs.Prelude.{◌≡◌, ◌+◌, true, false, [], length, IfOk};
ghost use Rattle.crossbeam_queue.specs.Passes.{view, IsPassOf, ruled_capacity};
ghost use Rattle.group_feed.specs.Line.{MayPush, Takes, after_push, feeding, newcomer, taking};

use crate::line::{Ends, Graph, Line, LinePass, Parcel, Pop, Push, Total};
use search_pool::pause;
use std::alloc::{AllocError, Global};
use std::sync::Wait;

/// An empty line with its two passes: the one that may push, and the one that may pop. It has
/// capacity for one group for each node and for the end mark.
pub(crate) fn open_line<N: Graph>(
    alloc: Global,
    count: u32,
) -> Result<(Line<N>, LinePass, LinePass), AllocError>
    requires { count ≡ length N.lists }
    ensures room { IfOk result (λ made. ruled_capacity made.0 ≡ length N.lists + 1) }
    ensures first { IfOk result (λ made. IsPassOf made.0 made.1 × (view made.1 ≡ feeding newcomer)) }
    ensures second { IfOk result (λ made. IsPassOf made.0 made.2 × (view made.2 ≡ taking newcomer)) }
{
    let (line, mut feeder) = Line::<N>::ruled(alloc, count as usize + 1)?;
    let taker = line.another::<Ends>(&mut feeder);
    Ok((line, feeder, taker))
}

/// Pushes one item more on the line. There is always capacity.
pub(crate) fn push<N: Graph, R: Wait>(
    rt: &R,
    line: &Line<N>,
    pass: &mut LinePass,
    parcel: Option<Parcel>,
)
    requires queue { IsPassOf line.now pass.old }
    requires room { ruled_capacity line.now ≡ length N.lists + 1 }
    requires feeds { (view pass.old).feeds ≡ true }
    requires open_yet { (view pass.old).ended ≡ false }
    requires may { MayPush N.lists (view pass.old) parcel }
    ensures queue { IsPassOf line.now pass.new }
    ensures pushed { view pass.new ≡ after_push (view pass.old) parcel }
{
    match line.push_as::<Push<N>, R>(rt, pass, parcel) {
        Ok(()) => {}
        Err(_) => unreachable!(),
    }
}

/// Waits for the next item, if the end mark wasn't popped yet. The contract holds if the call
/// returns.
pub(crate) fn next<N: Graph, R: Wait>(rt: &R, line: &Line<N>, pass: &mut LinePass) -> Option<Parcel>
    requires queue { IsPassOf line.now pass.old }
    requires takes { (view pass.old).takes ≡ true }
    requires open_yet { (view pass.old).through ≡ false }
    ensures queue { IsPassOf line.now pass.new }
    ensures took { Takes N.lists (view pass.old) result (view pass.new) }
{
    let mut waits = 0;
    for _ in rt.forever() {
        match line.pop_as::<Pop<N>, R>(rt, pass) {
            Some(parcel) => return parcel,
            None => pause(rt, waits),
        }
        waits = waits.saturating_add(1);
    }
    unreachable!()
}

/// Joins the two passes: what one pushed is what the other popped.
pub(crate) fn meet<N: Graph>(line: &Line<N>, mut feeder: LinePass, taker: LinePass)
    requires feeder { IsPassOf line.now feeder }
    requires taker { IsPassOf line.now taker }
    requires feeds { (view feeder).feeds ≡ true }
    requires takes { (view taker).takes ≡ true }
    requires through { (view taker).through ≡ true }
    ensures { (view feeder).pushed ≡ (view taker).taken }
{
    line.absorb::<Ends>(&mut feeder, taker);
    line.learn_as::<Total>(&mut feeder);
}
