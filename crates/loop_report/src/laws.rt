//! Theorems about each report: functions that do nothing, and are called for what they ensure.

ghost use Rattle.std.specs.Prelude.{◌≡◌, ℕ, Bool, List, false, IsUtf8};
ghost use Rattle.graph_law.specs.Graph.{Calls};
ghost use Rattle.group_release.specs.declared.level.Level.{Level};
ghost use Rattle.module_table.specs.Facts.{Facts};
ghost use Rattle.import_rules.specs.declared.names.PredName.{PredName};
ghost use Rattle.loop_report.specs.ImportLoops.{AreImportLoops};
ghost use Rattle.loop_report.specs.ReadBack.{ReadsBack, is_pair};
ghost use Rattle.loop_report.specs.Report.{IsReport};
ghost use Rattle.report_lines.specs.Reportable.{AreLeveled};
ghost use Rattle.loop_report.specs.Spelled.{spelled_name};

/// A name of the report reads back: what is printed is one token, whose name it is. Only `[]` and
/// `{}` are two tokens each.
pub fn names_read_back()
    ensures { (name : List ℕ) → IsUtf8 name → is_pair name ≡ false → ReadsBack name }
{}

/// No two names are printed alike.
pub fn names_differ()
    ensures { (name other : List ℕ) → IsUtf8 name → IsUtf8 other → spelled_name name ≡ spelled_name other → name ≡ other }
{}

/// Files have at most one list of import cycles.
pub fn one_list_of_loops()
    ensures { (files : List Facts) (loops others : List (List (List ℕ))) → AreImportLoops files loops → AreImportLoops files others → loops ≡ others }
{}

/// Groups have at most one report, in whatever reverse topological order they are given.
pub fn one_report()
    ensures { (predicates : List PredName) (files : List Facts) (lists : List (List ℕ)) (roots : List ℕ) (groups others : List (List ℕ))
        (levels marks : List Level) (unreached : Bool) (bytes other : List ℕ)
        → AreLeveled (Calls lists) roots groups levels → AreLeveled (Calls lists) roots others marks
        → IsReport predicates files groups levels unreached bytes → IsReport predicates files others marks unreached other → bytes ≡ other }
{}
