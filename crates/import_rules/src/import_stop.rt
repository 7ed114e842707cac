use file_library::Fault;
use std::alloc::AllocError;

/// Why what was loaded makes no program.
#[derive(Drop)]
pub enum ImportStop {
    /// All import errors, in order of file, offset and the number of the cause.
    Faults(Vec<Fault>),
    /// The files define more than 1,048,576 predicates.
    TooManyPredicates,
    NoMemory,
}

impl From<AllocError> for ImportStop {
    ghost use Rattle.import_rules.specs.declared.import_stop.ImportStop.TheVariants.{NoMemory};
    ghost use Rattle.std.specs.Prelude.{◌≡◌};

    ghost from_gives = { λ _ stop. stop ≡ NoMemory };

    fn from(_error: AllocError) -> ImportStop {
        ImportStop::NoMemory
    }
}
