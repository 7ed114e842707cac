//! Theorems about every table that keeps the rule: functions that do nothing, and are called for
//! what they ensure.

ghost use Rattle.node_claims.specs.Laws.{AreClaimedOnce, ClaimedStandOnce, ClosedStandOnce, FailureStays, StandSomewhere};

/// No node is with two passes. A node whose word is 1 is once with a pass or on a suspended search.
/// So is each node that was claimed, until it is released. It was claimed if its word says so, or
/// if it was closed under the current lock.
pub fn nodes_are_claimed_once()
    ensures once { AreClaimedOnce }
    ensures somewhere { StandSomewhere }
    ensures claimed { ClaimedStandOnce }
    ensures closed { ClosedStandOnce }
{}

/// If a pass gave back a failed book, the book in the slot has failed. So each pass that takes it
/// from then on finds the mark.
pub fn failure_stays()
    ensures { FailureStays }
{}
