//! Theorems about the calls of each graph: functions that do nothing, and are called for what they
//! ensure.

ghost use Rattle.std.specs.Prelude.{◌≡◌, ℕ, List};
ghost use Rattle.graph_law.specs.Graph.{Calls};
ghost use Rattle.graph_law.specs.Classes.{AreClasses};
ghost use Rattle.graph_law.specs.Heights.{HaveHeights};

/// What the starts reach has at most one list of SCCs.
pub fn one_list_of_classes()
    ensures { (lists : List (List ℕ)) (starts : List ℕ) (classes others : List (List ℕ))
        → AreClasses (Calls lists) starts classes → AreClasses (Calls lists) starts others → classes ≡ others }
{}

/// Groups have at most one list of heights.
pub fn one_list_of_heights()
    ensures { (lists : List (List ℕ)) (groups : List (List ℕ)) (heights others : List ℕ)
        → HaveHeights (Calls lists) groups heights → HaveHeights (Calls lists) groups others → heights ≡ others }
{}
