ghost use Rattle.std.specs.Prelude.{◌≡◌};
ghost use Rattle.prolog_tokens.specs.Places.{fault_offset as offset_of};

use std::alloc::{AllocError, AllocFailed};
use thiserror::Error;

/// A source position: line and column, both from 1. Columns count characters.
#[derive(Clone, Copy, Debug, PartialEq, Eq)]
pub struct Place {
    pub line: u32,
    pub column: u32,
}

/// The kinds of tokens of ISO/IEC 13211-1, 6.4.
#[derive(Clone, Copy, Debug, PartialEq, Eq)]
pub enum Kind {
    Name,
    Quoted,
    Variable,
    Integer,
    Float,
    Str,
    BackStr,
    OpenRound,
    CloseRound,
    OpenSquare,
    CloseSquare,
    OpenCurly,
    CloseCurly,
    Comma,
    Bar,
    End,
}

/// A token: its kind, whether layout or the beginning of the text is directly before it, and its
/// start and end as byte offsets.
#[derive(Clone, Copy, Debug, PartialEq, Eq)]
pub struct Token {
    pub kind: Kind,
    pub after_layout: bool,
    pub start: u32,
    pub end: u32,
}

/// Why a text has no list of tokens, each with its byte offset.
#[derive(Clone, Copy, Debug, PartialEq, Eq, Error)]
pub enum TokenFault {
    /// A character that begins no token and no layout.
    #[error("character cannot begin a token")]
    BadChar(u32),
    /// A quote that isn't closed.
    #[error("quoted item is not closed")]
    OpenQuote(u32),
    /// A `/*` that isn't closed.
    #[error("comment is not closed")]
    OpenComment(u32),
    /// The backslash of an escape that isn't allowed there.
    #[error("escape is not known")]
    BadEscape(u32),
    #[error("out of memory")]
    NoMemory,
}

impl From<AllocError> for TokenFault {
    ghost use Rattle.prolog_tokens.specs.declared.token.TokenFault.TheVariants.{NoMemory};

    ghost from_gives = { λ _ fault. fault ≡ NoMemory };

    fn from(_error: AllocError) -> TokenFault {
        TokenFault::NoMemory
    }
}

impl<T: Drop> From<AllocFailed<T>> for TokenFault {
    ghost use Rattle.prolog_tokens.specs.declared.token.TokenFault.TheVariants.{NoMemory};

    ghost from_gives = { λ _ fault. fault ≡ NoMemory };

    fn from(_error: AllocFailed<T>) -> TokenFault {
        TokenFault::NoMemory
    }
}
