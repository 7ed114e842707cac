ghost use Rattle.std.specs.Prelude.{◌≡◌};
ghost use Rattle.prolog_terms.specs.declared.read_fault.ReadFault.TheVariants.{NoMemory};

use std::alloc::AllocError;
use thiserror::Error;

/// Why tokens aren't a clause, each with its byte offset.
#[derive(Clone, Copy, Debug, PartialEq, Eq, Error)]
pub enum ReadFault {
    /// The first token with which no clause continues.
    #[error("no clause goes on with this token")]
    Stuck(u32),
    /// The first token with which only clauses deeper than 1,000 continue.
    #[error("term is nested deeper than 1000")]
    TooDeep(u32),
    /// The length of the text: the tokens end before the clause does.
    #[error("clause has no end")]
    NoEnd(u32),
    #[error("out of memory")]
    NoMemory,
}

impl From<AllocError> for ReadFault {
    ghost from_gives = { λ _ fault. fault ≡ NoMemory };

    fn from(_error: AllocError) -> ReadFault {
        ReadFault::NoMemory
    }
}
