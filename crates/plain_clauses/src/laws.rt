//! Theorems about plain trees: functions that do nothing, and are called for what they ensure.

ghost use Rattle.std.specs.Prelude.{◌≡◌, ◌≤◌, ◌↔◌, ℕ, List, Some, None, Ok, Err, true, map};
ghost use Rattle.std.specs.List.{AllZip};
ghost use Rattle.prolog_terms.specs.Tree.{Tree};
ghost use Rattle.prolog_terms.specs.Views.{start_of};
ghost use Rattle.prolog_terms.specs.Weight.{weight};
ghost use Rattle.kept_clauses.specs.Plain.{silent, PlainClause, body_goals, clause_span, plain, plain_clause};
ghost use Rattle.clause_text.specs.Items.{directive_of};
ghost use Rattle.clause_text.specs.Offsets.{HasOffsets};
ghost use Rattle.module_table.specs.Said.{Refusal};
ghost use Rattle.module_table.specs.FileText.{HasFacts};
ghost use Rattle.module_table.specs.Facts.{Facts, AreFacts, clause_head, file_said};
ghost use Rattle.file_library.specs.declared.fault.Fault.{Fault};
ghost use Rattle.file_library.specs.Loaded.{LoadedFiles, NamedText};
ghost use Rattle.import_rules.specs.declared.names.PredName.{PredName};
ghost use Rattle.import_rules.specs.declared.import_stop.ImportStop.{ImportStop};
ghost use Rattle.import_rules.specs.Program.{Seen, IsProgram, IsImportStop, IsKnown};
ghost use Rattle.call_edges.specs.Calls.{IsMetInClause, IsAmong, NodeCalls};
ghost use Rattle.call_edges.specs.CallPlaces.{CallAt, IsCallOf};
ghost use Rattle.call_edges.specs.FileOrder.{start_in};
ghost use Rattle.call_edges.specs.declared.role.Role.{Role};
ghost use Rattle.call_edges.specs.Goals.{Met, Rows, goal_role, place, IsMet};
ghost use Rattle.call_edges.specs.GoalFaults.{IsGoalFault};
ghost use Rattle.call_edges.specs.KeptGoals.{IsMetInGoal, IsMetInForm};
ghost use Rattle.call_edges.specs.Roots.{IsRoot};
ghost use Rattle.call_edges.specs.Successors.{successor_lists};
ghost use Rattle.call_edges.specs.Unresolved.{IsUnresolved};
ghost use Rattle.plain_clauses.specs.PlainFacts.{plain_facts, HasWholeFacts};
ghost use Rattle.plain_clauses.specs.PlainProgram.{plain_loaded, plain_seen};

/// A clause with a plain form is no directive. Inside its brackets it has the span of the form, and
/// it defines what the form says in the module of its file. In its body exactly the calls of the form occur, and what
/// occurs in its whole goals, whatever a program declares (`met`). The same holds for each body
/// and the goals in it (`body`), and a silent term has nothing in it, whatever its role (`silent`).
pub fn plain_forms()
    ensures directive { (tree : Tree) (clause : PlainClause) → plain_clause tree ≡ Some clause → directive_of tree ≡ None }
    ensures head { (owner : List ℕ) (tree : Tree) (clause : PlainClause) → plain_clause tree ≡ Some clause
        → clause_head owner tree ≡ Ok (record { module_ = owner; name = clause.name; arity = clause.arity }) }
    ensures span { (tree : Tree) (clause : PlainClause) → plain_clause tree ≡ Some clause → clause_span tree ≡ clause.span }
    ensures met { (T : Rows) (owner : List ℕ) (tree : Tree) (clause : PlainClause) (m : Met) → plain_clause tree ≡ Some clause
        → IsMetInClause T owner tree m ↔ IsMetInForm T owner clause.body m }
    ensures body { (T : Rows) (owner : List ℕ) (body : Tree) (m : Met)
        → IsMet T (place owner goal_role body) m ↔ IsAmong (IsMetInGoal T owner) (body_goals body) m }
    ensures silent { (T : Rows) (owner : List ℕ) (role : Role) (tree : Tree) (m : Met) → silent tree ≡ true → IsMet T (place owner role tree) m → ⊥ }
{}

/// A plain tree is a directive exactly if its clause is, and then the same one. It defines the same
/// predicate, has the same span and starts at the same offset. The same goals occur in its body, each at its offset,
/// whatever a program declares (`met`). It weighs no more, and has terms only at offsets of the
/// text. It is its own plain tree.
pub fn plain_law()
    ensures directive { (tree : Tree) → directive_of (plain tree) ≡ directive_of tree }
    ensures head { (owner : List ℕ) (tree : Tree) → clause_head owner (plain tree) ≡ clause_head owner tree }
    ensures span { (tree : Tree) → clause_span (plain tree) ≡ clause_span tree }
    ensures start { (tree : Tree) → start_of (plain tree) ≡ start_of tree }
    ensures met { (T : Rows) (owner : List ℕ) (tree : Tree) (m : Met) → IsMetInClause T owner (plain tree) m ↔ IsMetInClause T owner tree m }
    ensures light { (tree : Tree) → weight (plain tree) ≤ weight tree }
    ensures placed { (text : List ℕ) (tree : Tree) → HasOffsets text tree → HasOffsets text (plain tree) }
    ensures form { (tree : Tree) → plain_clause (plain tree) ≡ plain_clause tree }
    ensures once { (tree : Tree) → plain (plain tree) ≡ plain tree }
{}

/// A file of plain trees has the facts of the file, with plain trees as clauses, and no others
/// (`whole`). So texts whose facts are those of plain trees have facts, and these are their plain
/// facts (`text`, `texts`). A file of plain trees is refused exactly if the file is, for the same
/// reason.
pub fn same_facts()
    ensures facts { (user : List ℕ) (trees : List Tree) (facts : Facts) → AreFacts user trees facts → AreFacts user (map plain trees) (plain_facts facts) }
    ensures whole { (user : List ℕ) (trees : List Tree) (facts : Facts) → AreFacts user (map plain trees) facts
        → (whole : Facts) × AreFacts user trees whole × (facts ≡ plain_facts whole) }
    ensures text { (name text : List ℕ) (facts : Facts) → HasFacts name text facts
        ↔ ((whole : Facts) × HasWholeFacts name text whole × (facts ≡ plain_facts whole)) }
    ensures texts { (texts : List NamedText) (files : List Facts)
        → AllZip (λ (text : NamedText) (facts : Facts). HasFacts text.0 text.1 facts) texts files
        → (whole : List Facts) × AllZip (λ (text : NamedText) (facts : Facts). HasWholeFacts text.0 text.1 facts) texts whole
        × (files ≡ map plain_facts whole) }
    ensures refusal { (user : List ℕ) (trees : List Tree) (refusal : Refusal)
        → (file_said user (map plain trees) ≡ Err refusal) ↔ (file_said user trees ≡ Err refusal) }
{}

/// Files of plain trees are the program of the files with plain trees, and no other one (`whole`),
/// or have the same import errors. All that is known of a program is known of that of its plain
/// trees.
pub fn same_imports()
    ensures program { (loaded : LoadedFiles) (seen : Seen) → IsProgram loaded seen → IsProgram (plain_loaded loaded) (plain_seen seen) }
    ensures whole { (loaded : LoadedFiles) (seen : Seen) → IsProgram (plain_loaded loaded) seen
        → (whole : Seen) × IsProgram loaded whole × (seen ≡ plain_seen whole) }
    ensures stop { (loaded : LoadedFiles) (stop : ImportStop) → IsImportStop (plain_loaded loaded) stop ↔ IsImportStop loaded stop }
    ensures known { (seen : Seen) → IsKnown seen → IsKnown (plain_seen seen) }
{}

/// In a program of plain trees predicates call the same ones, at the same offsets, by the same
/// names, of which the same ones mean nothing. So the lists of successors are the same (`lists`).
/// The same goals aren't callable, the same predicates are roots, and each starts where it did.
pub fn same_program()
    ensures calls { (seen : Seen) (p q : ℕ) → NodeCalls (plain_seen seen) p q ↔ NodeCalls seen p q }
    ensures lists { (seen : Seen) → successor_lists (plain_seen seen) ≡ successor_lists seen }
    ensures places { (seen : Seen) (caller : ℕ) (c : CallAt) → IsCallOf (plain_seen seen) caller c ↔ IsCallOf seen caller c }
    ensures faults { (seen : Seen) (one : Fault) → IsGoalFault (plain_seen seen) one ↔ IsGoalFault seen one }
    ensures roots { (seen : Seen) (q : ℕ) → IsRoot (plain_seen seen) q ↔ IsRoot seen q }
    ensures unresolved { (seen : Seen) (node : ℕ) (name : PredName) → IsUnresolved (plain_seen seen) node name ↔ IsUnresolved seen node name }
    ensures starts { (seen : Seen) (node : ℕ) → start_in (plain_seen seen) node ≡ start_in seen node }
{}
