//! Theorems about the arguments of `calls` over each map of files: functions that do nothing, and
//! are called for what they ensure.

ghost use Rattle.std.specs.Prelude.{◌≡◌, ◌≢◌, ◌⊎◌, ◌<◌, ◌≤◌, ℕ, List, length, All, IsUtf8};
ghost use Rattle.file_library.specs.Library.{Files};
ghost use Rattle.file_library.specs.Loaded.{LoadedFiles, WasLoaded};
ghost use Rattle.import_rules.specs.Program.{Seen, IsProgram};
ghost use Rattle.call_table.specs.Memberships.{AreGroupsOf};
ghost use Rattle.call_table.specs.Table.{IsTable};
ghost use Rattle.call_table.specs.declared.table.CallTable.{CallTable};
ghost use Rattle.call_told.specs.declared.wanted.Form.TheVariants.{Dot};
ghost use Rattle.call_told.specs.Told.{TellsFrom};
ghost use Rattle.call_told.specs.Wanted.{Asked, AreAsked, IsNothingAsked};
ghost use Rattle.calls_tool.specs.Calls.{calls_tool};
ghost use Rattle.tool_run.specs.Answer.{IsAnswer};
ghost use Rattle.tool_run.specs.End.{End};

use crate::load::load_or_faults;
use crate::program::{goal_faults_exist, program_or_faults, roots_exist};
use crate::schedule::{levels_exist, order_exists};
use crate::word::lawful_or_not;
use call_edges::roots_below;

/// Arguments of `calls` ask for one thing, or for nothing.
pub fn asked_or_nothing()
    ensures { (words : List (List ℕ)) → All IsUtf8 words → ((asked : Asked) × AreAsked words asked) ⊎ IsNothingAsked (AreAsked words) }
{
    lawful_or_not();
}

/// Each node has the index of a group that it is in, or is in none of the groups.
pub fn memberships_exist()
    ensures { (count : ℕ) (groups : List (List ℕ)) → (places : List ℕ) × AreGroupsOf count groups places }
{}

/// Predicates of a program, no more than it has, have a table of their clauses and their calls. It
/// is a value of the code, whose lists have fewer than 2^63 items. No program has so many clauses
/// or calls.
pub fn tables_exist()
    ensures { (loaded : LoadedFiles) (seen : Seen) → WasLoaded loaded → IsProgram loaded seen → (nodes : List ℕ) (groups : List (List ℕ))
        → length nodes ≤ length seen.predicates → (table : CallTable) × IsTable seen nodes groups table }
{
    memberships_exist();
}

/// There are bytes that answer what is asked for of a program, if reachability begins at some of
/// its predicates.
pub fn told_exists()
    ensures { (loaded : LoadedFiles) (seen : Seen) → WasLoaded loaded → IsProgram loaded seen → (asked : Asked) (roots : List ℕ)
        → All (λ q. q < length seen.predicates) roots → (bytes : List ℕ) × TellsFrom asked seen roots bytes }
{
    order_exists();
    levels_exist();
    memberships_exist();
    tables_exist();
}

/// Arguments of `calls` over files have an answer.
pub fn some_told_answer()
    ensures { (words : List (List ℕ)) (files : Files) → All IsUtf8 words → (end : End) × IsAnswer calls_tool (AreAsked words) files end }
{
    asked_or_nothing();
    load_or_faults();
    program_or_faults();
    goal_faults_exist();
    roots_exist();
    roots_below();
    told_exists();
}

/// Arguments of `calls` over files have at most one answer, if they ask for no graph that isn't
/// condensed.
pub fn one_told_answer()
    ensures { (words : List (List ℕ)) (files : Files) (answer other : End) → ((asked : Asked) → AreAsked words asked → asked.form ≢ Dot)
        → IsAnswer calls_tool (AreAsked words) files answer → IsAnswer calls_tool (AreAsked words) files other → answer ≡ other }
{}
