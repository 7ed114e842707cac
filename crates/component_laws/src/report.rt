//! Theorems about reports: functions that do nothing, and are called for what they ensure.

ghost use Rattle.std.specs.Prelude.{◌<◌, ◌≤◌, ◌^◌, ℕ, List, length, All};
ghost use Rattle.edge_text.specs.declared.limits.TheConstants.{MOST_NAME, MOST_NODES};
ghost use Rattle.graph_law.specs.Graph.{IsClosed};
ghost use Rattle.component_answer.specs.Answers.{IsReachReport};
ghost use Rattle.component_answer.specs.declared.answer.Wanted.{Wanted};

use laws::{levels_exist, order_exists};
use loop_paths::laws::some_shortest;

/// What some nodes of a graph reach has a report.
pub fn reports_exist()
    ensures { (names lists : List (List ℕ)) (starts : List ℕ) (wanted : Wanted) → IsClosed lists → All (λ start. start < length lists) starts
        → (bytes : List ℕ) × IsReachReport names lists starts wanted bytes }
{
    order_exists();
    levels_exist();
    some_shortest();
}

/// A report on a graph with at most 8,388,608 nodes, whose names have at most 65,536 bytes, isn't
/// too long for a `Vec`.
pub fn reports_are_short()
    ensures { (names lists : List (List ℕ)) (starts : List ℕ) (wanted : Wanted) (bytes : List ℕ) → All (λ name. length name ≤ MOST_NAME) names
        → IsClosed lists → length lists ≤ MOST_NODES → All (λ start. start < length lists) starts → IsReachReport names lists starts wanted bytes
        → length bytes < 2 ^ 63 }
{}
