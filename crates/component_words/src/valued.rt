//! The options with a value.

ghost use Rattle.std.specs.Prelude.{◌≡◌, ◌≢◌, ℕ, List, MatchOption};
ghost use Rattle.component_words.specs.Words.{joined_word, valued_word};
ghost use Rattle.component_words.specs.declared.valued.Valued.{Valued as ValuedOf};

/// An option with a value.
#[derive(Clone, Copy, Drop)]
pub enum Valued {
    /// `--roots NAME`: a node whose reach is reported.
    Roots,
    /// `--jobs N`: how many threads search.
    Jobs,
}

impl Valued {
    /// The argument that the value follows.
    pub fn word(self) -> &'static str
        ensures { result.now ≡ valued_word self }
    {
        match self {
            Valued::Roots => "--roots",
            Valued::Jobs => "--jobs",
        }
    }
}

/// The option whose value is the next argument.
pub(crate) fn valued_named(word: &str) -> Option<Valued>
    ensures { MatchOption result ((valued : ValuedOf) → word.now ≢ valued_word valued) (λ valued. word.now ≡ valued_word valued) }
{
    if word == "--roots" {
        return Some(Valued::Roots);
    }
    if word == "--jobs" {
        return Some(Valued::Jobs);
    }
    None
}

/// The option and its value in one argument, as `--roots=NAME`.
pub(crate) fn joined_value(word: &str) -> Option<(Valued, &str)>
    ensures { MatchOption result ((valued : ValuedOf) (value : List ℕ) → word.now ≢ joined_word valued value)
        (λ pair. word.now ≡ joined_word pair.0 pair.1.now) }
{
    if let Some(name) = word.strip_prefix("--roots=") {
        return Some((Valued::Roots, name));
    }
    if let Some(number) = word.strip_prefix("--jobs=") {
        return Some((Valued::Jobs, number));
    }
    None
}
