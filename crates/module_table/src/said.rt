ghost use Rattle.std.specs.Prelude.{◌≡◌};
ghost use Rattle.prolog_terms.specs.Terms.{tree_of};
ghost use Rattle.module_table.specs.declared.said.FactFault.TheVariants.{NoMemory};
ghost use Rattle.prolog_terms.specs.Views.{start_of};

use crate::indicator::Indicator;
use crate::load::Load;
use clause_text::Cause;
use prolog_terms::{Term, start_of};
use prolog_tokens::Text;
use std::alloc::AllocError;

/// Why there are no facts of a file: the first error, with its byte offset.
#[derive(Clone, Copy, Debug, PartialEq, Eq)]
pub enum FactFault {
    At(Cause, u32),
    NoMemory,
}

impl From<AllocError> for FactFault {
    ghost from_gives = { λ _ fault. fault ≡ NoMemory };

    fn from(_error: AllocError) -> FactFault {
        FactFault::NoMemory
    }
}

/// What `module/2` declares, with the byte offset of its term.
#[derive(Drop)]
pub struct Module {
    pub name: Text,
    pub from: u32,
    pub exports: Vec<Indicator>,
}

/// What a file says of modules: which one it declares, or a file that it loads.
#[derive(Drop)]
pub enum Part {
    Module(Module),
    Load(Load),
}

/// The error at the term, inside the brackets round it.
pub fn refusal(cause: Cause, term: &Term) -> FactFault
    ensures { result ≡ FactFault.At cause (start_of (tree_of term.now)) }
{
    FactFault::At(cause, start_of(term))
}
