use crate::roots::RootStop;
use call_edges::GoalStop;
use file_library::{Fault, LoadStop};
use group_words::WordFault;
use import_rules::{ImportStop, PredName};
use prolog_tokens::Text;
use std::alloc::AllocError;

/// Which limit was passed.
#[derive(Drop)]
pub enum Limit {
    /// More than 1,024 files are asked for.
    TooManyFiles,
    /// The file that has more than 8,388,608 bytes.
    FileTooLarge(Text),
    /// The files have more than 33,554,432 bytes together.
    TooMuchText,
    /// The files define more than 1,048,576 predicates.
    TooManyPredicates,
}

/// Why a run has no output.
#[derive(Drop)]
pub enum Stop {
    /// The arguments aren't valid.
    Usage,
    /// The errors in the files, in order.
    Faults(Vec<Fault>),
    /// The first name in the arguments that is no predicate of the program.
    NoPredicate(PredName),
    /// The file that could not be read.
    ReadFault(Text),
    Passed(Limit),
    NoMemory,
}

impl From<AllocError> for Stop {
    ghost use Rattle.std.specs.Prelude.{◌≡◌};
    ghost use Rattle.tool_run.specs.declared.stop.Stop.TheVariants.{NoMemory};

    ghost from_gives = { λ _ stop. stop ≡ NoMemory };

    fn from(_error: AllocError) -> Stop {
        Stop::NoMemory
    }
}

impl From<WordFault> for Stop {
    ghost use Rattle.std.specs.Prelude.{◌≡◌};
    ghost use Rattle.tool_run.specs.Stop.{of_words};

    ghost from_gives = { λ fault found. found ≡ of_words fault };

    fn from(fault: WordFault) -> Stop {
        match fault {
            WordFault::Usage => Stop::Usage,
            WordFault::NoMemory => Stop::NoMemory,
        }
    }
}

impl From<LoadStop> for Stop {
    ghost use Rattle.std.specs.Prelude.{◌≡◌};
    ghost use Rattle.tool_run.specs.Stop.{of_loading};

    ghost from_gives = { λ stop found. found ≡ of_loading stop };

    fn from(stop: LoadStop) -> Stop {
        match stop {
            LoadStop::Faults(faults) => Stop::Faults(faults),
            LoadStop::ReadFault(name) => Stop::ReadFault(name),
            LoadStop::TooManyFiles => Stop::Passed(Limit::TooManyFiles),
            LoadStop::FileTooLarge(name) => Stop::Passed(Limit::FileTooLarge(name)),
            LoadStop::TooMuchText => Stop::Passed(Limit::TooMuchText),
            LoadStop::NoMemory => Stop::NoMemory,
        }
    }
}

impl From<ImportStop> for Stop {
    ghost use Rattle.std.specs.Prelude.{◌≡◌};
    ghost use Rattle.tool_run.specs.Stop.{of_importing};

    ghost from_gives = { λ stop found. found ≡ of_importing stop };

    fn from(stop: ImportStop) -> Stop {
        match stop {
            ImportStop::Faults(faults) => Stop::Faults(faults),
            ImportStop::TooManyPredicates => Stop::Passed(Limit::TooManyPredicates),
            ImportStop::NoMemory => Stop::NoMemory,
        }
    }
}

impl From<GoalStop> for Stop {
    ghost use Rattle.std.specs.Prelude.{◌≡◌};
    ghost use Rattle.tool_run.specs.Stop.{of_checking};

    ghost from_gives = { λ stop found. found ≡ of_checking stop };

    fn from(stop: GoalStop) -> Stop {
        match stop {
            GoalStop::Faults(faults) => Stop::Faults(faults),
            GoalStop::NoMemory => Stop::NoMemory,
        }
    }
}

impl From<RootStop> for Stop {
    ghost use Rattle.std.specs.Prelude.{◌≡◌};
    ghost use Rattle.tool_run.specs.Stop.{of_roots};

    ghost from_gives = { λ stop found. found ≡ of_roots stop };

    fn from(stop: RootStop) -> Stop {
        match stop {
            RootStop::NoPredicate(name) => Stop::NoPredicate(name),
            RootStop::NoMemory => Stop::NoMemory,
        }
    }
}
