//! Theorems that each graph has an answer: functions that do nothing, and are called for what they
//! ensure.

ghost use Rattle.std.specs.Prelude.{ℕ, ◌<◌, List, length, All};
ghost use Rattle.graph_law.specs.Classes.{HasMember};
ghost use Rattle.graph_law.specs.Graph.{Calls, IsClosed};
ghost use Rattle.graph_law.specs.LegalOrder.{IsComplete, IsLegalOrder};
ghost use Rattle.graph_law.specs.Reach.{IsReached};
ghost use Rattle.group_release.specs.Level.{AreLevels};
ghost use Rattle.group_release.specs.declared.level.Level.{Level};
ghost use Rattle.search_machine.specs.Schedule.{IsScheduled};

use search_machine::laws::schedules_answer;

/// Each schedule comes to an end, and releases groups.
pub fn schedule_ends()
    ensures { (lists : List (List ℕ)) (roots : List ℕ) (searches seed : ℕ) → IsClosed lists → All (λ root. root < length lists) roots
        → (groups : List (List ℕ)) × IsScheduled lists roots searches seed groups }
{}

/// What the roots reach has a reverse topological order of its SCCs.
pub fn order_exists()
    ensures { (lists : List (List ℕ)) (roots : List ℕ) → IsClosed lists → All (λ root. root < length lists) roots
        → (groups : List (List ℕ)) × (IsLegalOrder (Calls lists) groups × IsComplete roots groups
        × ((v : ℕ) → HasMember groups v → IsReached (Calls lists) roots v)) }
{
    schedule_ends();
    schedules_answer();
}

/// The groups of a reverse topological order have levels.
pub fn levels_exist()
    ensures { (lists : List (List ℕ)) (groups : List (List ℕ)) → IsLegalOrder (Calls lists) groups
        → (levels : List Level) × AreLevels (Calls lists) groups levels }
{}
