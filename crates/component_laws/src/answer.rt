//! A theorem about each command line over each map of texts: a function that does nothing, and is
//! called for what it ensures.

ghost use Rattle.std.specs.Prelude.{ℕ, List};
ghost use Rattle.file_library.specs.Library.{Files};
ghost use Rattle.component_tool.specs.End.{End};
ghost use Rattle.component_tool.specs.Run.{IsAnswer};

use crate::text::some_text_answer;
use crate::words::settings_or_none;

/// Arguments over a map of texts have a right outcome.
pub fn some_component_answer()
    ensures { (words : List (List ℕ)) (files : Files) → (answer : End) × IsAnswer words files answer }
{
    settings_or_none();
    some_text_answer();
}
