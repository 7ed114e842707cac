//! Theorems about the searches of each graph: functions that do nothing, and are called for what
//! they ensure.

ghost use Rattle.std.specs.Prelude.{◌≡◌, ◌<◌, ℕ, Bool, false, List, ◌∷◌, length, None, Some, All};
ghost use Rattle.graph_law.specs.Classes.{HasMember};
ghost use Rattle.graph_law.specs.Graph.{Calls, IsClosed};
ghost use Rattle.graph_law.specs.LegalOrder.{IsComplete, IsLegalOrder};
ghost use Rattle.graph_law.specs.Reach.{IsReached};
ghost use Rattle.blocked_table.specs.Kept.{kept_at, IsChain};
ghost use Rattle.search_machine.specs.Events.{Asks, IsEvent, IsPlainEvent, Opens};
ghost use Rattle.search_machine.specs.Runs.{AreEvents, CanAct, IsRun, opening_state};
ghost use Rattle.search_machine.specs.State.{State, IsGoodState, waiting_at};

mod schedule;

pub use schedule::{runs_end, schedules_answer};

/// Each event keeps the invariant of a state, and so does each half of a claim.
pub fn events_keep()
    ensures plain { (lists : List (List ℕ)) (roots : List ℕ) (place : ℕ) (s t : State) → IsGoodState lists roots false s
        → IsPlainEvent place s t → IsGoodState lists roots false t }
    ensures asks { (lists : List (List ℕ)) (roots : List ℕ) (place v : ℕ) (s t : State) → IsGoodState lists roots false s
        → Asks s place v t → IsGoodState lists roots false t }
    ensures opens { (lists : List (List ℕ)) (roots : List ℕ) (failed : Bool) (place v : ℕ) (s t : State)
        → IsGoodState lists roots failed s → Opens lists s place v t → IsGoodState lists roots failed t }
    ensures events { (lists : List (List ℕ)) (roots : List ℕ) (place : ℕ) (s t : State) → IsGoodState lists roots false s
        → IsEvent lists place s t → IsGoodState lists roots false t }
{}

/// The opening state satisfies the invariant, and so does each state of a run.
pub fn runs_keep()
    ensures opening { (lists : List (List ℕ)) (roots : List ℕ) (places : ℕ) → IsClosed lists → All (λ root. root < length lists) roots
        → IsGoodState lists roots false (opening_state (length lists) roots places) }
    ensures runs { (lists : List (List ℕ)) (roots : List ℕ) (x : ℕ) (s : State) (states : List State) (end : State)
        → IsGoodState lists roots false s → IsRun lists x s states end → IsGoodState lists roots false end }
{}

/// States keep the invariant through events, whichever places made them. So from the opening state
/// on, the released groups are SCCs in reverse topological order, and the roots reach their nodes.
pub fn any_events_keep()
    ensures keep { (lists : List (List ℕ)) (roots : List ℕ) (s : State) (states : List State) (end : State)
        → IsGoodState lists roots false s → AreEvents lists s states end → IsGoodState lists roots false end }
    ensures legal { (lists : List (List ℕ)) (roots : List ℕ) (places : ℕ) (states : List State) (end : State) → IsClosed lists
        → All (λ root. root < length lists) roots → AreEvents lists (opening_state (length lists) roots places) states end
        → IsLegalOrder (Calls lists) end.groups }
    ensures reached { (lists : List (List ℕ)) (roots : List ℕ) (places : ℕ) (states : List State) (end : State) → IsClosed lists
        → All (λ root. root < length lists) roots → AreEvents lists (opening_state (length lists) roots places) states end
        → (v : ℕ) → HasMember end.groups v → IsReached (Calls lists) roots v }
{}

/// In a state with the invariant, the released groups are SCCs in reverse topological order, and
/// the roots reach their nodes. No suspended searches wait for each other in a cycle.
pub fn good_states()
    ensures legal { (lists : List (List ℕ)) (roots : List ℕ) (failed : Bool) (s : State) → IsGoodState lists roots failed s
        → IsLegalOrder (Calls lists) s.groups }
    ensures reached { (lists : List (List ℕ)) (roots : List ℕ) (failed : Bool) (s : State) → IsGoodState lists roots failed s
        → (v : ℕ) → HasMember s.groups v → IsReached (Calls lists) roots v }
    ensures no_ring { (lists : List (List ℕ)) (roots : List ℕ) (failed : Bool) (s : State) → IsGoodState lists roots failed s
        → (v x : ℕ) (steps : List ℕ) → IsChain s.kept v (x ∷ steps) v → ⊥ }
{}

/// If no place can act, no search is suspended, and every root is released. So it is where a run
/// from the opening state stops.
pub fn nothing_left()
    ensures none_kept { (lists : List (List ℕ)) (roots : List ℕ) (failed : Bool) (s : State) → IsGoodState lists roots failed s
        → 0 < length s.running → ((place : ℕ) → waiting_at s place ≡ None) → ((place : ℕ) → CanAct s place → ⊥)
        → (place : ℕ) → kept_at s.kept place ≡ None }
    ensures complete { (lists : List (List ℕ)) (roots : List ℕ) (failed : Bool) (s : State) → IsGoodState lists roots failed s
        → 0 < length s.running → ((place : ℕ) → waiting_at s place ≡ None) → ((place : ℕ) → CanAct s place → ⊥)
        → IsComplete roots s.groups }
    ensures runs { (lists : List (List ℕ)) (roots : List ℕ) (places x : ℕ) (states : List State) (end : State) → IsClosed lists
        → All (λ root. root < length lists) roots → 0 < places
        → IsRun lists x (opening_state (length lists) roots places) states end → ((place : ℕ) → CanAct end place → ⊥)
        → IsComplete roots end.groups }
{}
