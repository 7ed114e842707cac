ghost use Rattle.std.specs.Prelude.{◌≡◌, IfOk, MatchOption};
ghost use Rattle.component_words.specs.Settings.{AreLawful, IsUnlawful, see_settings};

use crate::reader::Reader;
use crate::settings::Settings;
use prolog_tokens::Text;
use std::alloc::{AllocError, Global};

/// What the arguments set, or None if they aren't valid. `docs/components.md` lists the valid ones.
pub fn parse_words(alloc: Global, words: &[Text]) -> Result<Option<Settings>, AllocError>
    ensures { IfOk result (λ found. MatchOption found
        (IsUnlawful words.now) (λ settings. AreLawful words.now (see_settings settings))) }
{
    let mut reader = Reader::new(alloc);
    for word in words {
        let fits = reader.take(word.as_str())?;
        if !fits {
            return Ok(None);
        }
    }
    reader.settings()
}
