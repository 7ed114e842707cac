//! Theorems about the runs of each graph: functions that do nothing, and are called for what they
//! ensure.

ghost use Rattle.std.specs.Prelude.{◌≡◌, ◌+◌, ◌<◌, ◌≤◌, ℕ, false, List, length, All};
ghost use Rattle.list_laws.specs.Counts.{total};
ghost use Rattle.graph_law.specs.Classes.{HasMember};
ghost use Rattle.graph_law.specs.Graph.{Calls, IsClosed};
ghost use Rattle.graph_law.specs.LegalOrder.{IsComplete, IsLegalOrder};
ghost use Rattle.graph_law.specs.Reach.{IsReached};
ghost use Rattle.search_machine.specs.Events.{IsEvent};
ghost use Rattle.search_machine.specs.Runs.{IsRun, opening_state};
ghost use Rattle.search_machine.specs.State.{State, IsGoodState};
ghost use Rattle.search_machine.specs.Schedule.{IsScheduled};
ghost use Rattle.search_machine.specs.Work.{opening_work, work};

use super::{good_states, nothing_left, runs_keep};

/// Each event leaves less work, so a run has no more events than there was work. From the opening
/// state these are three for each edge, two for each node, and one for each root.
pub fn runs_end()
    ensures falls { (lists : List (List ℕ)) (roots : List ℕ) (place : ℕ) (s t : State) → IsGoodState lists roots false s
        → IsEvent lists place s t → work lists t < work lists s }
    ensures turns { (lists : List (List ℕ)) (roots : List ℕ) (x : ℕ) (s : State) (states : List State) (end : State)
        → IsGoodState lists roots false s → IsRun lists x s states end → length states + work lists end ≤ work lists s }
    ensures opening { (lists : List (List ℕ)) (roots : List ℕ) (places : ℕ)
        → work lists (opening_state (length lists) roots places) ≡ total opening_work lists + length roots }
{}

/// The groups of a schedule are the SCCs of exactly what the roots reach, in reverse topological
/// order.
pub fn schedules_answer()
    ensures legal { (lists : List (List ℕ)) (roots : List ℕ) (searches seed : ℕ) (groups : List (List ℕ)) → IsClosed lists
        → All (λ root. root < length lists) roots → IsScheduled lists roots searches seed groups → IsLegalOrder (Calls lists) groups }
    ensures complete { (lists : List (List ℕ)) (roots : List ℕ) (searches seed : ℕ) (groups : List (List ℕ)) → IsClosed lists
        → All (λ root. root < length lists) roots → 0 < searches → IsScheduled lists roots searches seed groups
        → IsComplete roots groups }
    ensures reached { (lists : List (List ℕ)) (roots : List ℕ) (searches seed : ℕ) (groups : List (List ℕ)) → IsClosed lists
        → All (λ root. root < length lists) roots → IsScheduled lists roots searches seed groups
        → (v : ℕ) → HasMember groups v → IsReached (Calls lists) roots v }
{
    runs_keep();
    good_states();
    nothing_left();
}
