//! Theorems about least paths and cycles in each graph: functions that do nothing, and are called
//! for what they ensure.

ghost use Rattle.std.specs.Prelude.{◌≡◌, ◌<◌, ◌↔◌, ℕ, List, Option, length, is_some, true};
ghost use Rattle.graph_law.specs.Classes.{HasMember, IsClass, IsRecursive, least_member};
ghost use Rattle.graph_law.specs.Graph.{Calls, IsClosed};
ghost use Rattle.graph_law.specs.LegalOrder.{IsLegalOrder};
ghost use Rattle.loop_paths.specs.Circuits.{AreCircuits, IsCircuit, IsShortest};

/// There is at most one least path, and one list of cycles.
pub fn one_shortest()
    ensures path { (lists : List (List ℕ)) (p q : ℕ) (found other : Option (List ℕ))
        → IsShortest (Calls lists) p q found → IsShortest (Calls lists) p q other → found ≡ other }
    ensures circuits { (lists groups : List (List ℕ)) (circuits others : List (Option (List ℕ)))
        → AreCircuits (Calls lists) groups circuits → AreCircuits (Calls lists) groups others → circuits ≡ others }
{}

/// There is either a least path or no path, and there are cycles.
pub fn some_shortest()
    ensures path { (lists : List (List ℕ)) (p q : ℕ) → IsClosed lists → p < length lists
        → (found : Option (List ℕ)) × IsShortest (Calls lists) p q found }
    ensures circuits { (lists groups : List (List ℕ)) → IsClosed lists → IsLegalOrder (Calls lists) groups
        → ((p : ℕ) → HasMember groups p → p < length lists) → (circuits : List (Option (List ℕ))) × AreCircuits (Calls lists) groups circuits }
{}

/// Exactly the recursive SCCs have a cycle.
pub fn recursive_goes_round()
    ensures { (lists : List (List ℕ)) (class : List ℕ) (found : Option (List ℕ)) → IsClass (Calls lists) class
        → IsCircuit (Calls lists) (least_member class) found → (is_some found ≡ true) ↔ IsRecursive (Calls lists) class }
{}
