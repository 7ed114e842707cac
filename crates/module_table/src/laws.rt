//! Theorems about the facts of each file, and about file names: functions that do nothing, and are
//! called for what they ensure.

ghost use Rattle.std.specs.Prelude.{◌≡◌, ◌≤◌, ◌↔◌, length, ℕ, List, [], Some, None, Err, All, Contains, filter, true};
ghost use Rattle.prolog_tokens.specs.Places.{IsOffset};
ghost use Rattle.prolog_terms.specs.Tree.{Tree};
ghost use Rattle.prolog_terms.specs.Weight.{weight};
ghost use Rattle.clause_text.specs.Clauses.{total_weight};
ghost use Rattle.clause_text.specs.Items.{directive_of};
ghost use Rattle.clause_text.specs.Offsets.{HasOffsets};
ghost use Rattle.module_table.specs.FileName.{begins_with_slash, folder, resolved};
ghost use Rattle.module_table.specs.Paths.{IsFolder, IsFileName, led, as_prolog};
ghost use Rattle.module_table.specs.Defined.{Predicate};
ghost use Rattle.module_table.specs.Metas.{Declaration, IsSmall};
ghost use Rattle.module_table.specs.Said.{Refusal, Loads};
ghost use Rattle.module_table.specs.Facts.{Facts, AreFacts, file_said, module_of, is_clause_of};
ghost use Rattle.module_table.specs.Placed.{ArePlacedIn};
ghost use Rattle.module_table.specs.FileText.{HasFacts, HasFault};

/// The clauses of a file have at most one record of facts.
pub fn one_facts()
    ensures { (user : List ℕ) (trees : List Tree) (facts other : Facts) → AreFacts user trees facts → AreFacts user trees other → facts ≡ other }
{}

/// The error of the facts is at an offset of the text, if the terms of the clauses are.
pub fn refusals_placed()
    ensures { (text user : List ℕ) (trees : List Tree) (refusal : Refusal) → All (HasOffsets text) trees
        → file_said user trees ≡ Err refusal → IsOffset text refusal.offset }
{}

/// All offsets in the facts of a file are offsets of the text, if those of the terms of the clauses
/// are.
pub fn facts_placed()
    ensures { (text user : List ℕ) (trees : List Tree) (facts : Facts) → All (HasOffsets text) trees → AreFacts user trees facts → ArePlacedIn text facts }
{}

/// Each clause and each goal in the facts of a file weighs no more than its heaviest clause. No
/// declaration has more arguments than that.
pub fn facts_light()
    ensures clauses { (n : ℕ) (user : List ℕ) (trees : List Tree) (facts : Facts) → All (λ tree. weight tree ≤ n) trees → AreFacts user trees facts
        → All (λ (p : Predicate). All (λ tree. weight tree ≤ n) p.clauses) facts.defined }
    ensures goals { (n : ℕ) (user : List ℕ) (trees : List Tree) (facts : Facts) → All (λ tree. weight tree ≤ n) trees → AreFacts user trees facts
        → All (λ tree. weight tree ≤ n) facts.goals }
    ensures metas { (n : ℕ) (user : List ℕ) (trees : List Tree) (facts : Facts) → All (λ tree. weight tree ≤ n) trees → AreFacts user trees facts
        → All (λ (d : Declaration). length d.args ≤ n) facts.metas }
{}

/// A file has no more predicates than its clauses weigh, and so no more than its text has bytes.
/// The same holds for declarations of goal arguments.
pub fn few_defined()
    ensures defined { (user : List ℕ) (trees : List Tree) (facts : Facts) → AreFacts user trees facts → length facts.defined ≤ total_weight trees }
    ensures metas { (user : List ℕ) (trees : List Tree) (facts : Facts) → AreFacts user trees facts → length facts.metas ≤ total_weight trees }
{}

/// No declaration adds more than nine arguments to a goal.
pub fn few_added()
    ensures { (user : List ℕ) (trees : List Tree) (facts : Facts) → AreFacts user trees facts → All (λ (d : Declaration). All IsSmall d.args) facts.metas }
{}

/// A text in a file of a name has either at most one record of facts, or at most one error, and
/// never both.
pub fn one_of_text()
    ensures facts { (name text : List ℕ) (facts other : Facts) → HasFacts name text facts → HasFacts name text other → facts ≡ other }
    ensures fault { (name text : List ℕ) (fault other : Refusal) → HasFault name text fault → HasFault name text other → fault ≡ other }
    ensures never_both { (name text : List ℕ) (fault : Refusal) (facts : Facts) → HasFault name text fault → HasFacts name text facts → ⊥ }
{}

/// The clauses of a predicate are those of the file with its module, name and arity, in order. Each
/// clause of the file that is no directive is in one predicate.
pub fn clauses_kept()
    ensures are { (user : List ℕ) (trees : List Tree) (facts : Facts) → AreFacts user trees facts → (p : Predicate) → Contains facts.defined p
        → p.clauses ≡ filter (is_clause_of (module_of trees) p.module_ p.name p.arity) trees }
    ensures all { (user : List ℕ) (trees : List Tree) (facts : Facts) → AreFacts user trees facts → (tree : Tree) → Contains trees tree
        → directive_of tree ≡ None → (p : Predicate) × Contains facts.defined p × Contains p.clauses tree }
{}

/// Each file that is loaded has a file name.
pub fn loads_named()
    ensures { (user : List ℕ) (trees : List Tree) (facts : Facts) → AreFacts user trees facts → All (λ (load : Loads). IsFileName load.file) facts.loads }
{}

/// The folder of a name is the name up to its last slash.
pub fn folders_cut()
    ensures { (name : List ℕ) → IsFolder name (folder name) }
{}

/// What a specification means is a file name.
pub fn names_resolved()
    ensures { (user spec name : List ℕ) → resolved user spec ≡ Some name → IsFileName name }
{}

/// Each file name means itself. One that begins with a slash does so in every file.
pub fn names_kept()
    ensures alone { (name : List ℕ) → IsFileName name → resolved [] name ≡ Some name }
    ensures from_the_root { (user name : List ℕ) → IsFileName name → begins_with_slash name ≡ true → resolved user name ≡ Some name }
{}

/// From any folder, the name leads to where the specification leads from the folder of the file,
/// except for the ending.
pub fn names_lead()
    ensures { (user spec name : List ℕ) → resolved user spec ≡ Some name
        → (place : List (List ℕ)) → led place name ≡ as_prolog (led (led place (folder user)) spec) }
{}

/// A specification means no file exactly if it leads from the root to the root.
pub fn none_named()
    ensures { (user spec : List ℕ) → (resolved user spec ≡ None) ↔ (led (led [] (folder user)) spec ≡ []) }
{}

/// Two file names that lead to one place from any folder are the same name.
pub fn one_name()
    ensures { (name other : List ℕ) → IsFileName name → IsFileName other → ((place : List (List ℕ)) → led place name ≡ led place other) → name ≡ other }
{}
