//! What the clauses of a file say, one by one.

ghost use Rattle.std.specs.Prelude.{◌≡◌, ◌↔◌, ℕ, List, [], ◌∷◌, Some, Ok, Err, Bool, Contains, codes, true, false};
ghost use Rattle.prolog_terms.specs.Tree.{Tree};
ghost use Rattle.prolog_terms.specs.Views.{inside, sides_of, joined};
ghost use Rattle.clause_text.specs.declared.cause.Cause.{Cause};
ghost use Rattle.clause_text.specs.declared.fault.TextFault.{TextFault};
ghost use Rattle.clause_text.specs.declared.fault.TextFault.TheVariants.{At};
ghost use Rattle.clause_text.specs.TextFault.{HasTextFault};
ghost use Rattle.module_table.specs.Said.{Part, Declares, declares, Refusal, in_turn, each_said};
ghost use Rattle.module_table.specs.Kinds.{IsModule};
ghost use Rattle.module_table.specs.Directives.{Home, home, directive_said};
ghost use Rattle.module_table.specs.Facts.{Facts, AreFacts, module_by, module_of, clause_said, trees_said, file_said};
ghost use Rattle.laws.specs.Turns.{AreTold, all_of, IsFirstRefusal, AreFactsOfEach, first_module};
ghost use Rattle.laws.specs.Causes.{is_fact_cause, is_text_cause};

/// A file has an error exactly if one of its clauses has one, and all clauses before say their
/// parts. The error is that of this clause.
pub fn first_refusal()
    ensures { (user : Home) (trees : List Tree) (refusal : Refusal) → (trees_said user trees ≡ Err refusal) ↔ IsFirstRefusal user trees refusal }
{}

/// If no clause has an error, a file says what each of its clauses says, in order, and nothing
/// else. So its facts are the loads, the definitions, the declarations of goal arguments and the
/// goals of the single clauses.
pub fn parts_kept()
    ensures parts { (user : Home) (trees : List Tree) (parts : List Part)
        → (trees_said user trees ≡ Ok parts) ↔ ((lists : List (List Part)) × AreTold user trees lists × (parts ≡ all_of lists)) }
    ensures facts { (user : List ℕ) (trees : List Tree) (facts : Facts) → AreFacts user trees facts → AreFactsOfEach user trees facts }
{}

/// A directive in brackets says the same as without them. Terms that commas join say, in order,
/// what each of them says.
pub fn directives_joined()
    ensures brackets { (user : Home) (first : Bool) (tree : Tree) → directive_said user first tree ≡ directive_said user first (inside tree) }
    ensures comma { (user : Home) (first : Bool) (tree left right : Tree) → sides_of (codes ",") tree ≡ Some (left, right)
        → directive_said user first tree ≡ in_turn (directive_said user false left) (directive_said user false right) }
    ensures all { (user : Home) (tree : Tree) → directive_said user false tree ≡ each_said (directive_said user false) (joined tree) }
{}

/// Only the first clause may declare a module, and then it says nothing else. The module of a file
/// and its exports are those that its first clause declares. Heads and directives that name no
/// module are read in this module.
pub fn module_first()
    ensures others { (user : Home) (tree : Tree) (parts : List Part) (own : Declares) → clause_said user false tree ≡ Ok parts
        → Contains parts (declares own) → ⊥ }
    ensures first { (user : List ℕ) (tree : Tree) (trees : List Tree) (parts : List Part) (own : Declares) → file_said user (tree ∷ trees) ≡ Ok parts
        → Contains parts (declares own) → clause_said (home user (module_by tree)) true tree ≡ Ok (declares own ∷ []) }
    ensures exports { (user : List ℕ) (trees : List Tree) (facts : Facts) → AreFacts user trees facts
        → IsModule (first_module user trees) facts.module_ facts.is_module facts.module_from facts.exports }
    ensures heads { (user : List ℕ) (trees : List Tree) (facts : Facts) → AreFacts user trees facts → facts.module_ ≡ module_of trees }
{}

/// If what the clauses of a file say has an error, its cause is one of those of directives and
/// heads. Each of these occurs with some clauses. A text has an error of one of the other causes.
pub fn fact_causes()
    ensures facts { (user : List ℕ) (trees : List Tree) (refusal : Refusal) → file_said user trees ≡ Err refusal → is_fact_cause refusal.cause ≡ true }
    ensures each { (user : List ℕ) (cause : Cause) → is_fact_cause cause ≡ true
        → (trees : List Tree) × (refusal : Refusal) × (file_said user trees ≡ Err refusal) × (refusal.cause ≡ cause) }
    ensures texts { (text : List ℕ) (fault : TextFault) → HasTextFault text fault
        → (cause : Cause) × (at : ℕ) × (fault ≡ At cause at) × (is_text_cause cause ≡ true) }
    ensures apart { (cause : Cause) → is_fact_cause cause ≡ true → is_text_cause cause ≡ true → ⊥ }
{}
