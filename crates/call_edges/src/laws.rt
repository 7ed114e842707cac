//! Theorems about the goals of each program: functions that do nothing, and are called for what
//! they ensure.

ghost use Rattle.std.specs.Prelude.{◌≡◌, ◌↔◌, ◌<◌, ℕ, List, length};
ghost use Rattle.file_library.specs.declared.fault.Fault.{Fault};
ghost use Rattle.graph_law.specs.Graph.{Calls as Listed};
ghost use Rattle.import_rules.specs.Program.{Seen};
ghost use Rattle.call_edges.specs.Calls.{NodeCalls};
ghost use Rattle.call_edges.specs.Successors.{successor_lists};
ghost use Rattle.call_edges.specs.GoalFaults.{AreGoalFaults};
ghost use Rattle.call_edges.specs.Roots.{IsRoot};

/// The successor lists of a program are exactly what its predicates call.
pub fn calls_told()
    ensures { (seen : Seen) (p q : ℕ) → p < length seen.predicates → Listed (successor_lists seen) p q ↔ NodeCalls seen p q }
{}

/// Each root is below the number of predicates.
pub fn roots_below()
    ensures { (seen : Seen) (q : ℕ) → IsRoot seen q → q < length seen.predicates }
{}

/// A program has at most one list of goal errors.
pub fn one_list_of_faults()
    ensures { (seen : Seen) (faults others : List Fault) → AreGoalFaults seen faults → AreGoalFaults seen others → faults ≡ others }
{}
