//! Theorems about each command line: functions that do nothing, and are called for what they
//! ensure.

ghost use Rattle.std.specs.Prelude.{◌≡◌, ℕ, List, Bool, false, Option};
ghost use Rattle.file_library.specs.Library.{Files};
ghost use Rattle.group_words.specs.Settings.{Settings, AreLawful};
ghost use Rattle.group_tool.specs.Groups.{groups_tool};
ghost use Rattle.tool_run.specs.Answer.{IsAnswer};
ghost use Rattle.tool_run.specs.End.{End};
ghost use Rattle.tool_run.specs.Wanted.{IsJust};

/// Arguments over a map of files have at most one answer, and so have options. This holds unless
/// the groups are asked for in the order of the search.
pub fn one_answer()
    ensures words { (words : List (List ℕ)) (files : Files) (answer other : End) → ((options : Settings) → AreLawful words options → options.order ≡ false)
        → IsAnswer groups_tool (AreLawful words) files answer → IsAnswer groups_tool (AreLawful words) files other → answer ≡ other }
    ensures options { (options : Settings) (files : Files) (answer other : End) → options.order ≡ false
        → IsAnswer groups_tool (IsJust options) files answer → IsAnswer groups_tool (IsJust options) files other → answer ≡ other }
{}
