//! A theorem about each report: a function that does nothing, and is called for what it ensures.

ghost use Rattle.std.specs.Prelude.{◌≡◌, ℕ, List};
ghost use Rattle.graph_law.specs.Graph.{Calls};
ghost use Rattle.group_release.specs.declared.level.Level.{Level};
ghost use Rattle.component_report.specs.Report.{IsReport};
ghost use Rattle.component_report.specs.declared.form.Form.{Form};
ghost use Rattle.report_lines.specs.Reportable.{AreLeveled};

/// Groups have at most one report of each form, in whatever reverse topological order they are given.
pub fn one_report()
    ensures { (form : Form) (names : List (List ℕ)) (lists : List (List ℕ)) (roots : List ℕ) (groups others : List (List ℕ)) (levels marks : List Level)
        (bytes other : List ℕ) → AreLeveled (Calls lists) roots groups levels → AreLeveled (Calls lists) roots others marks
        → IsReport form names groups levels bytes → IsReport form names others marks other → bytes ≡ other }
{}
