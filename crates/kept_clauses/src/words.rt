//! Words of 64 bits. `specs/Words.antt` says what they are.

ghost use Rattle.std.specs.Prelude.{◌≡◌, ◌<◌, ◌≤◌, ◌/◌, ◌%◌};
ghost use Rattle.kept_clauses.specs.declared.words.Kind.TheVariants as kind;
ghost use Rattle.kept_clauses.specs.Words.{kind_of, arity_in, offset_in, number_in};

/// What a call has in the lowest bits of its word.
pub const CALL: u64 = 0;
/// What the head of a fact has there.
pub const FACT: u64 = 2;
/// What the head of a rule has there.
pub const RULE: u64 = 4;
/// What the end of a clause has there.
const END: u64 = 6;

/// What a word is.
#[derive(Clone, Copy, PartialEq, Eq)]
pub enum Kind {
    Fact,
    Rule,
    Call,
    Term,
    End,
}

/// What the word is.
#[inline(always)]
pub fn kind_of(word: u64) -> Kind
    ensures { result ≡ kind_of word }
{
    if word % 2 == 1 {
        return Kind::Term;
    }
    match word % 8 {
        CALL => Kind::Call,
        FACT => Kind::Fact,
        RULE => Kind::Rule,
        _ => Kind::End,
    }
}

/// The number of the name in a head or a call.
#[inline(always)]
pub fn number_in(word: u64) -> u32
    ensures { result ≡ number_in word }
{
    (word / 8 / 64 / 8_388_608) as u32
}

/// The byte offset in a head or a call.
#[inline(always)]
pub fn offset_in(word: u64) -> u32
    ensures { result ≡ offset_in word }
{
    (word / 8 / 64 % 8_388_608) as u32
}

/// The number of arguments in a head or a call.
#[inline(always)]
pub fn arity_in(word: u64) -> u32
    ensures { result ≡ arity_in word }
{
    (word / 8 % 64) as u32
}

/// The word of a head or a call, by its lowest bits.
pub fn named_word(bits: u64, number: u32, at: u32, arity: u32) -> u64
    requires bits { bits < 8 }
    requires at { at ≤ 8388607 }
    requires arity { arity ≤ 63 }
    ensures bits { result % 8 ≡ bits }
    ensures number { number_in result ≡ number }
    ensures at { offset_in result ≡ at }
    ensures arity { arity_in result ≡ arity }
{
    ((u64::from(number) * 8_388_608 + u64::from(at)) * 64 + u64::from(arity)) * 8 + bits
}

/// The word of a term whose last node is the last of so many.
pub fn term_word(end: usize) -> u64
    requires { end < 9223372036854775808 }
    ensures kind { kind_of result ≡ kind.Term }
    ensures end { result / 2 ≡ end }
{
    end as u64 * 2 + 1
}

/// The word of the end of a clause at a byte offset.
pub fn end_word(to: u32) -> u64
    ensures kind { kind_of result ≡ kind.End }
    ensures to { result / 8 % 4294967296 ≡ to }
{
    u64::from(to) * 8 + END
}
