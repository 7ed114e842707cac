ghost use Rattle.std.specs.Prelude.{◌≡◌, map, All, IfOk, IfErr};
ghost use Rattle.std.specs.Str.{IsUtf8};
ghost use Rattle.group_words.specs.Settings.{Settings, AreLawful, see_options};

use crate::given::read_words;
use crate::options::{Options, WordFault};
use crate::settings::options_of;
use prolog_tokens::Text;
use std::alloc::{AllocError, Global};

/// The arguments as clap takes them.
fn lent_words<'a>(alloc: Global, words: &'a [Text]) -> Result<Vec<&'a str>, AllocError>
    ensures same { IfOk result (λ lent. map (λ word. word.now) lent.items ≡ words.entry.now) }
    ensures text { IfOk result (λ lent. All IsUtf8 (map (λ word. word.now) lent.items)) }
{
    let mut lent = Vec::new(alloc);
    for word in words {
        lent.push(word.as_str())?;
    }
    Ok(lent)
}

/// The options that the arguments set, or `Usage` if they aren't valid. `docs/report.md` lists the
/// valid ones.
pub fn parse_words(alloc: Global, words: &[Text]) -> Result<Options, WordFault>
    ensures ok { IfOk result (λ options. AreLawful words.now (see_options options)) }
    ensures only { IfOk result (λ options. (other : Settings) → AreLawful words.now other → other ≡ see_options options) }
    ensures usage { IfErr result (λ fault. fault ≡ WordFault.Usage → (settings : Settings) → AreLawful words.now settings → ⊥) }
{
    let lent = lent_words(alloc, words)?;
    let Some(given) = read_words(alloc, &lent)? else {
        return Err(WordFault::Usage);
    };
    options_of(alloc, &given)
}
