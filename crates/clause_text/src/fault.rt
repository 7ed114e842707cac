ghost use Rattle.std.specs.Prelude.{◌≡◌};
ghost use Rattle.prolog_terms.specs.Terms.{tree_of};
ghost use Rattle.prolog_terms.specs.Views.{start_of};
ghost use Rattle.clause_text.specs.Items.{fault_of_ops};

use crate::cause::Cause;
use prolog_ops::OpFault;
use prolog_terms::{ReadFault, Term, start_of};
use prolog_tokens::TokenFault;
use std::alloc::AllocError;

/// Why a text can't be read.
#[derive(Clone, Copy, Debug, PartialEq, Eq)]
pub enum TextFault {
    /// A cause, and the byte offset at which it is reported.
    At(Cause, u32),
    NoMemory,
}

impl From<AllocError> for TextFault {
    ghost use Rattle.clause_text.specs.declared.fault.TextFault.TheVariants.{NoMemory};

    ghost from_gives = { λ _ fault. fault ≡ NoMemory };

    fn from(_error: AllocError) -> TextFault {
        TextFault::NoMemory
    }
}

impl From<TokenFault> for TextFault {
    ghost use Rattle.clause_text.specs.TextFault.{fault_of_tokens};

    ghost from_gives = { λ fault found. found ≡ fault_of_tokens fault };

    fn from(fault: TokenFault) -> TextFault {
        match fault {
            TokenFault::BadChar(at) => TextFault::At(Cause::BadChar, at),
            TokenFault::OpenQuote(at) => TextFault::At(Cause::OpenQuote, at),
            TokenFault::OpenComment(at) => TextFault::At(Cause::OpenComment, at),
            TokenFault::BadEscape(at) => TextFault::At(Cause::BadEscape, at),
            TokenFault::NoMemory => TextFault::NoMemory,
        }
    }
}

impl From<ReadFault> for TextFault {
    ghost use Rattle.clause_text.specs.Clauses.{fault_of_clauses};

    ghost from_gives = { λ fault found. found ≡ fault_of_clauses fault };

    fn from(fault: ReadFault) -> TextFault {
        match fault {
            ReadFault::Stuck(at) => TextFault::At(Cause::Stuck, at),
            ReadFault::TooDeep(at) => TextFault::At(Cause::TooDeep, at),
            ReadFault::NoEnd(at) => TextFault::At(Cause::NoEnd, at),
            ReadFault::NoMemory => TextFault::NoMemory,
        }
    }
}

/// The error of an operator that can't be set, at the offset of its name.
pub fn fault_of_ops(fault: OpFault, at: u32) -> TextFault
    ensures { result ≡ fault_of_ops fault at }
{
    match fault {
        OpFault::BadPriority => TextFault::At(Cause::BadPriority, at),
        OpFault::FixedOp => TextFault::At(Cause::FixedOp, at),
        OpFault::InfixAndPostfix => TextFault::At(Cause::InfixAndPostfix, at),
        OpFault::NoMemory => TextFault::NoMemory,
    }
}

/// The error at the start of the term, inside all brackets round it.
pub fn fault_at(cause: Cause, term: &Term) -> TextFault
    ensures { result ≡ TextFault.At cause (start_of (tree_of term.now)) }
{
    TextFault::At(cause, start_of(term))
}
