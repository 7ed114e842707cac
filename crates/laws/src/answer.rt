//! A theorem about each command line over each map of files: a function that does nothing, and is
//! called for what it ensures.

ghost use Rattle.std.specs.Prelude.{ℕ, List, All, IsUtf8};
ghost use Rattle.file_library.specs.Library.{Files};
ghost use Rattle.group_words.specs.Settings.{AreLawful};
ghost use Rattle.group_tool.specs.Groups.{groups_tool};
ghost use Rattle.tool_run.specs.Answer.{IsAnswer};
ghost use Rattle.tool_run.specs.End.{End};

use crate::load::load_or_faults;
use crate::program::{goal_faults_exist, program_or_faults, roots_exist};
use crate::report::reports_exist;
use crate::schedule::{levels_exist, order_exists, schedule_ends};
use crate::word::lawful_or_not;
use call_edges::roots_below;
use group_words::settings_within;
use loop_paths::laws::some_shortest;
use search_machine::laws::schedules_answer;

/// Arguments over files have an answer.
pub fn some_answer()
    ensures { (words : List (List ℕ)) (files : Files) → All IsUtf8 words → (end : End) × IsAnswer groups_tool (AreLawful words) files end }
{
    lawful_or_not();
    load_or_faults();
    program_or_faults();
    goal_faults_exist();
    roots_exist();
    roots_below();
    schedule_ends();
    schedules_answer();
    order_exists();
    levels_exist();
    reports_exist();
    some_shortest();
    settings_within();
}
