use import_rules::PredName;
use prolog_tokens::Text;
use std::alloc::AllocError;
use thiserror::Error;

/// What valid arguments ask for.
#[derive(Debug, Drop)]
pub struct Options {
    /// How many threads search, 1 to 64.
    pub jobs: u32,
    /// How many searches one thread runs, 1 to 64, and the seed of their schedule.
    pub searches: Option<(u32, u64)>,
    /// The entry points, in the order of the arguments, as often as they occur there. None if the
    /// files decide.
    pub roots: Option<Vec<PredName>>,
    /// Whether groups are reported in the order in which the search found them.
    pub order: bool,
    /// Whether predicates that aren't reached are reported.
    pub unreached: bool,
    /// Whether the effects that groups may reach are reported.
    pub effects: bool,
    /// Whether a cycle of calls is reported for each recursive group.
    pub loops: bool,
    /// Whether the levels of groups are computed while the search runs. Then `order` is set, and
    /// `searches` isn't.
    pub stream: bool,
    /// The two predicates between which the least path is reported: its start and its end.
    pub path: Option<(PredName, PredName)>,
    /// How many predicates the generated program has, 1 to 100,000. Then no file is read.
    pub make: Option<u32>,
    /// The names of the files in the order of the arguments, each once.
    pub files: Vec<Text>,
}

/// Why arguments set no options.
#[derive(Clone, Copy, Debug, PartialEq, Eq, Drop, Error)]
pub enum WordFault {
    /// The arguments aren't valid.
    #[error("the words are not lawful")]
    Usage,
    #[error("out of memory")]
    NoMemory,
}

impl From<AllocError> for WordFault {
    ghost use Rattle.std.specs.Prelude.{◌≡◌};
    ghost use Rattle.group_words.specs.declared.options.WordFault.TheVariants.{NoMemory};

    ghost from_gives = { λ _ fault. fault ≡ NoMemory };

    fn from(_error: AllocError) -> WordFault {
        WordFault::NoMemory
    }
}
