ghost use Rattle.std.specs.Prelude.{◌≡◌, ◌&&◌, true, false, [], ◌∷◌};
ghost use Rattle.prolog_tokens.specs.Spelling.{IsSpelled};
ghost use Rattle.prolog_names.specs.Numbers.{IsNumberOf};
ghost use Rattle.prolog_terms.specs.Words.{is_name, is_minus, begins_term, opens, number_next, Word as WordSeen};
ghost use Rattle.prolog_terms.specs.Clause.{IsWordOf};
ghost use Rattle.prolog_terms.specs.StackSeen.{Names as NamesSeen, see_word};

use crate::term::{NO_SPAN, Span};
use prolog_names::{MINUS, Names, names_law};
use prolog_tokens::{Kind, Token, integer_value};

/// A word: a token as terms see it. It has its kind, whether layout is directly before it, its
/// position, the value of an Integer that has one, and the number of the name of a Name or Quoted
/// token (0 for any other).
#[derive(Clone, Copy)]
pub struct Word {
    pub kind: Kind,
    pub after_layout: bool,
    pub span: Span,
    pub value: Option<u32>,
    pub name: u32,
}

/// The value of no word.
pub const NO_WORD: Word = Word {
    kind: Kind::End,
    after_layout: false,
    span: NO_SPAN,
    value: None,
    name: 0,
};

/// The word of a token with its number.
#[inline(always)]
pub fn word_of(names: &Names, text: &str, token: Token, number: u32) -> Word
    requires spelled { IsSpelled text.now token.kind token.start token.end }
    requires numbered { IsNumberOf text.now names.now token number }
    ensures is { IsWordOf text.now token (see_word names.now result) }
    ensures only { (other : WordSeen) → IsWordOf text.now token other → other ≡ see_word names.now result }
{
    names_law(names);
    Word {
        kind: token.kind,
        after_layout: token.after_layout,
        span: Span {
            from: token.start,
            to: token.end,
        },
        value: integer_value(text, token),
        name: number,
    }
}

#[inline(always)]
pub fn is_name(kind: Kind) -> bool
    ensures { result ≡ is_name kind }
{
    matches!(kind, Kind::Name | Kind::Quoted)
}

pub fn is_minus(names: &Names, word: Word) -> bool
    ensures { result ≡ is_minus (see_word names.now word) }
{
    names_law(names);
    word.kind == Kind::Name && word.name == MINUS
}

pub fn begins_term(kind: Kind) -> bool
    ensures { result ≡ begins_term kind }
{
    match kind {
        Kind::CloseRound => false,
        Kind::CloseSquare => false,
        Kind::CloseCurly => false,
        Kind::Comma => false,
        Kind::Bar => false,
        Kind::End => false,
        _ => true,
    }
}

/// Whether the word is a `(` with no layout before it.
#[inline(always)]
pub fn is_opening(word: Word) -> bool
    ensures { (names : NamesSeen) → result ≡ opens (see_word names word ∷ []) }
{
    word.kind == Kind::OpenRound && !word.after_layout
}

/// Whether the word is a number with no layout before it.
#[inline(always)]
pub fn is_near_number(word: Word) -> bool
    ensures { (names : NamesSeen) → result ≡ number_next (see_word names word ∷ []) }
{
    match word.kind {
        Kind::Integer => !word.after_layout,
        Kind::Float => !word.after_layout,
        _ => false,
    }
}
