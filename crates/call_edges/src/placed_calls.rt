//! All calls of predicates, each with the position of its goal.

ghost use Rattle.std.specs.Prelude.{◌≡◌, ◌<◌, ◌↔◌, ◌++◌, true, All, Contains, length, map, option_map, IfOk, OnOk};
ghost use Rattle.std.specs.Option.{option_to_list};
ghost use Rattle.file_library.specs.Spots.{StandsInText};
ghost use Rattle.call_edges.specs.CallPlaces.{AreCallsOf, CallAt, IsCallOf};
ghost use Rattle.call_edges.specs.Calls.{IsAmong};
ghost use Rattle.call_edges.specs.PlacedSeen.{call_to, see_call, see_calls};
ghost use Rattle.call_edges.specs.Seen.{see_met};

use crate::graph::placed_call_lists::PlacedCallLists;
use crate::role::Met;
use std::alloc::{AllocError, Global};

/// A name that is called in a module, by a goal of a clause. `file` is the index of the clause's
/// file among the files, and `offset` the byte offset at which the goal starts. `caller` is the
/// number of the calling predicate. `added` of the arguments aren't written in the goal, and
/// `negated` says whether a `\+` is around it. Such names are ordered by their fields in this order.
#[derive(Clone, Copy, Debug, PartialEq, Eq, PartialOrd, Ord)]
pub struct NamedCall<'a> {
    pub file: u32,
    pub offset: u32,
    pub caller: u32,
    pub module: &'a str,
    pub name: &'a str,
    pub arity: u32,
    pub added: u32,
    pub negated: bool,
}

/// A call in a clause, and the number of the predicate that its name means in the module; `None` if
/// it means none.
#[derive(Clone, Copy, Debug, PartialEq, Eq, PartialOrd, Ord)]
pub struct PlacedCall<'a> {
    pub named: NamedCall<'a>,
    pub callee: Option<u32>,
}

/// The call in that file and by that predicate to what its name means, if the goal is a call.
fn call_to<'a>(callee: Option<u32>, file: u32, caller: u32, met: Met<'a>) -> Option<PlacedCall<'a>>
    ensures { option_map see_call result ≡ call_to callee file caller (see_met met.entry) }
{
    let Met::Call {
        at,
        module,
        name,
        arity,
        added,
        negated,
        ..
    } = met
    else {
        return None;
    };
    Some(PlacedCall {
        named: NamedCall {
            file,
            offset: at,
            caller,
            module,
            name,
            arity,
            added,
            negated,
        },
        callee,
    })
}

/// Adds the call in that file and by that predicate to what its name means, if the goal is a call
/// and calls are recorded.
pub(crate) fn push_call<'a>(
    keep: bool,
    callee: Option<u32>,
    file: u32,
    caller: u32,
    met: Met<'a>,
    calls: &mut Vec<PlacedCall<'a>>,
) -> Result<(), AllocError>
    ensures { OnOk result (keep ≡ true → see_calls calls.new.items
        ≡ see_calls calls.old.items ++ option_to_list (call_to callee file caller (see_met met.entry))) }
{
    if !keep {
        return Ok(());
    }
    match call_to(callee, file, caller, met) {
        None => Ok(()),
        Some(call) => {
            calls.push(call)?;
            Ok(())
        }
    }
}

/// The calls of these predicates, one predicate after another.
fn gather_calls<'a>(
    alloc: Global,
    lists: &PlacedCallLists<'a>,
    callers: &[u32],
) -> Result<Vec<PlacedCall<'a>>, AllocError>
    requires { All (λ p. p < length lists.now.predicates) callers.now }
    ensures { IfOk result (λ calls. (c : CallAt) → Contains (see_calls calls.items) c ↔ IsAmong (IsCallOf lists.now) callers.now c) }
{
    let mut calls = Vec::new(alloc);
    for caller in callers {
        calls.extend_from_slice(lists.calls_by(*caller))?;
    }
    Ok(calls)
}

/// All calls of these predicates, by file and offset and each once.
///
/// A call has the offset of its goal, its caller, and the name that is called in a module. It also
/// has the predicate that the name means there, if any. Files are indices among those of the
/// program, and offsets are in their bytes. Nothing is walked or looked up.
pub fn calls_of<'a>(
    alloc: Global,
    lists: &PlacedCallLists<'a>,
    callers: &[u32],
) -> Result<Vec<PlacedCall<'a>>, AllocError>
    requires { All (λ p. p < length lists.now.predicates) callers.now }
    ensures calls { IfOk result (λ calls. AreCallsOf lists.now callers.now (see_calls calls.items)) }
    ensures stand { IfOk result (λ calls. All (λ (c : CallAt). StandsInText lists.now.loaded.texts c.file c.offset)
        (see_calls calls.items)) }
{
    lists.is_known();
    let mut calls = gather_calls(alloc, lists, callers)?;
    // Mostly they are in order already, which takes one comparison for each.
    calls.sort_unstable();
    calls.dedup();
    Ok(calls)
}
