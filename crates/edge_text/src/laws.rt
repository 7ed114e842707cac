//! Theorems about texts of edges: functions that do nothing, and are called for what they ensure.

ghost use Rattle.std.specs.Prelude.{◌≡◌, ◌↔◌, ℕ, List, Contains, slice_range};
ghost use Rattle.edge_text.specs.EdgeGraph.{IsEdgeGraph, Said};
ghost use Rattle.edge_text.specs.Faults.{IsFirstFault};
ghost use Rattle.edge_text.specs.Lines.{words_of};
ghost use Rattle.edge_text.specs.Words.{IsWordAt};
ghost use Rattle.edge_text.specs.declared.fault.Fault.{Fault as FaultOf};

/// The words of a line are what is at the places of words in it.
pub fn words_have_places()
    ensures { (line word : List ℕ)
        → Contains (words_of line) word ↔ ((start : ℕ) × (end : ℕ) × IsWordAt line start end × (slice_range line start end ≡ word)) }
{}

/// What is said has at most one graph.
pub fn one_edge_graph()
    ensures { (said : Said) (names others lists more : List (List ℕ)) → IsEdgeGraph said names lists → IsEdgeGraph said others more
        → (names ≡ others) × (lists ≡ more) }
{}

/// What is said has a graph.
pub fn some_edge_graph()
    ensures { (said : Said) → (names : List (List ℕ)) × (lists : List (List ℕ)) × IsEdgeGraph said names lists }
{}

/// A text has at most one first fault.
pub fn one_first_fault()
    ensures { (text : List ℕ) (fault other : FaultOf) → IsFirstFault text fault → IsFirstFault text other → fault ≡ other }
{}
