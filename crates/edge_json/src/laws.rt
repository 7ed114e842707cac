//! A theorem about each text: a function that does nothing, and is called for what it ensures.

ghost use Rattle.std.specs.Prelude.{◌≡◌, ℕ, List};
ghost use Rattle.edge_json.specs.Faults.{IsFirstFault};
ghost use Rattle.edge_json.specs.declared.cause.LineFault.{LineFault as FaultOf};

/// A text has at most one first line that is no edge.
pub fn one_line_fault()
    ensures { (text : List ℕ) (fault other : FaultOf) → IsFirstFault text fault → IsFirstFault text other → fault ≡ other }
{}
