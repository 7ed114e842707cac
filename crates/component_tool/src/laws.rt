//! A theorem about each command line: a function that does nothing, and is called for what it
//! ensures.

ghost use Rattle.std.specs.Prelude.{◌≡◌, ℕ, List, false};
ghost use Rattle.file_library.specs.Library.{Files};
ghost use Rattle.component_tool.specs.End.{End};
ghost use Rattle.component_tool.specs.Run.{IsAnswer};
ghost use Rattle.component_words.specs.Settings.{AreLawful, Settings};

use component_answer::one_said_report;
use component_words::one_setting;
use edge_json::one_line_fault;
use edge_text::one_first_fault;

/// Arguments over a map of texts have at most one outcome, unless the groups are asked for in the
/// order of the search.
pub fn one_answer()
    ensures { (words : List (List ℕ)) (files : Files) (answer other : End) → ((settings : Settings) → AreLawful words settings → settings.order ≡ false)
        → IsAnswer words files answer → IsAnswer words files other → answer ≡ other }
{
    one_setting();
    one_said_report();
    one_first_fault();
    one_line_fault();
}
