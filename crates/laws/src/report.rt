//! Theorems that there is something to report: functions that do nothing, and are called for what
//! they ensure.

ghost use Rattle.std.specs.Prelude.{ℕ, Bool, List, length};
ghost use Rattle.group_release.specs.declared.level.Level.{Level};
ghost use Rattle.import_rules.specs.declared.names.PredName.{PredName};
ghost use Rattle.loop_report.specs.ImportLoops.{AreImportLoops};
ghost use Rattle.loop_report.specs.Report.{IsOrderReport, IsReport};
ghost use Rattle.report_lines.specs.Reportable.{AreReportable};
ghost use Rattle.module_table.specs.Facts.{Facts};

use crate::schedule::order_exists;

/// Files have a list of import cycles.
pub fn loops_exist()
    ensures { (files : List Facts) → (loops : List (List (List ℕ))) × AreImportLoops files loops }
{
    order_exists();
}

/// Groups in reverse topological order with their levels have a report, in order of height and in
/// their own order.
pub fn reports_exist()
    ensures lines { (predicates : List PredName) (files : List Facts) (groups : List (List ℕ)) (levels : List Level) (unreached : Bool)
        → AreReportable (length predicates) groups levels → (bytes : List ℕ) × IsReport predicates files groups levels unreached bytes }
    ensures order { (predicates : List PredName) (files : List Facts) (groups : List (List ℕ)) (levels : List Level) (unreached : Bool)
        → (bytes : List ℕ) × IsOrderReport predicates files groups levels unreached bytes }
{
    loops_exist();
}
