//! A theorem about each text: a function that does nothing, and is called for what it ensures.

ghost use Rattle.std.specs.Prelude.{ℕ, ◌⊎◌, Bool, List};
ghost use Rattle.component_answer.specs.Inputs.{IsFaultless, IsFirstFaultIn};
ghost use Rattle.component_answer.specs.declared.answer.TextFault.{TextFault as FaultOf};

/// A text of words or of JSON Lines has a first fault, or none.
pub fn fault_or_none()
    ensures { (from_json : Bool) (text : List ℕ) → ((fault : FaultOf) × IsFirstFaultIn from_json text fault) ⊎ IsFaultless from_json text }
{}
