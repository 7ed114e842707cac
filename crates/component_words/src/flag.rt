//! The options without a value.

ghost use Rattle.std.specs.Prelude.{◌≡◌, ◌≢◌, MatchOption, IsTrue, ◌↔◌};
ghost use Rattle.std.specs.Str.{bytes_eq};
ghost use Rattle.std.specs.List.{list_any};
ghost use Rattle.component_words.specs.Words.{flag_word, is_given};
ghost use Rattle.component_words.specs.declared.flag.Flag.{Flag as FlagOf};

/// An option without a value.
#[derive(Clone, Copy, Drop)]
pub enum Flag {
    /// `--order`: groups in the order in which the search finds them.
    Order,
    /// `--json`: the report as JSON Lines.
    Json,
    /// `--loops`: a shortest cycle of each recursive group too.
    Loops,
    /// `--from-json`: edges are read as JSON Lines.
    FromJson,
}

impl Flag {
    /// The argument that sets it.
    pub fn word(self) -> &'static str
        ensures { result.now ≡ flag_word self }
    {
        match self {
            Flag::Order => "--order",
            Flag::Json => "--json",
            Flag::Loops => "--loops",
            Flag::FromJson => "--from-json",
        }
    }
}

/// The flag that the argument sets.
pub(crate) fn flag_named(word: &str) -> Option<Flag>
    ensures { MatchOption result ((flag : FlagOf) → word.now ≢ flag_word flag) (λ flag. word.now ≡ flag_word flag) }
{
    if word == "--order" {
        return Some(Flag::Order);
    }
    if word == "--json" {
        return Some(Flag::Json);
    }
    if word == "--loops" {
        return Some(Flag::Loops);
    }
    if word == "--from-json" {
        return Some(Flag::FromJson);
    }
    None
}

/// Whether the flag is among these.
pub(crate) fn is_given(flags: &[Flag], flag: Flag) -> bool
    ensures { result ≡ is_given flags.now flag }
{
    flags.iter().any(|other| other.word() == flag.word())
}
