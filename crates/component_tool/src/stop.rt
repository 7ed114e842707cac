//! Why there is no report.

ghost use Rattle.std.specs.Prelude.{◌≡◌};

use component_answer::TextFault;
use prolog_tokens::Text;
use std::alloc::AllocError;

/// Why a text has no report.
#[derive(Drop)]
pub enum Stop {
    /// It can't be read.
    Unread,
    /// It has more than 1,073,741,824 bytes.
    TooLarge,
    /// Something is wrong with it.
    Fault(TextFault),
    TooManyEdges,
    TooManyNodes,
    /// The root of that name is no node.
    NoNode(Text),
    NoMemory,
}

impl From<AllocError> for Stop {
    ghost use Rattle.component_tool.specs.declared.stop.Stop.TheVariants.{NoMemory};

    ghost from_gives = { λ _ stop. stop ≡ NoMemory };

    fn from(_error: AllocError) -> Stop {
        Stop::NoMemory
    }
}
