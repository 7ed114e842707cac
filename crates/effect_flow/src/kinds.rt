//! The kinds of effects, by number: 0 output, 1 input, 2 changes of the database, 3 streams, 4
//! throw, 5 halt and 6 flags.

ghost use Rattle.std.specs.Prelude.{◌≡◌};
ghost use Rattle.std.specs.List.{list_any};
ghost use Rattle.std.specs.Str.{bytes_eq};
ghost use Rattle.effect_flow.specs.Kinds.{kinds};

/// How many kinds of effects there are.
pub const KINDS: usize = 7;

const OUTPUT: u64 = 1;

const INPUT: u64 = 2;

const DATABASE: u64 = 4;

const STREAMS: u64 = 8;

const THROW: u64 = 16;

const HALT: u64 = 32;

const FLAGS: u64 = 64;

/// Whether the name is one of the words. The words are constants at each call, so mostly their
/// lengths decide.
#[inline(always)]
fn is_one_of(words: &[&str], name: &str) -> bool
    ensures { result ≡ list_any (λ word. bytes_eq word.now name.now) words.now }
{
    words.iter().any(|word| *word == name)
}

/// The bit of the kind of a predicate without arguments, or 0.
fn kinds_0(name: &str) -> u64
    ensures { result ≡ kinds name.now 0 }
{
    if is_one_of(&["nl"], name) {
        return OUTPUT;
    }
    if is_one_of(&["halt"], name) {
        return HALT;
    }
    0
}

/// The bit of the kind of a predicate of one argument, or 0.
fn kinds_1(name: &str) -> u64
    ensures { result ≡ kinds name.now 1 }
{
    if is_one_of(
        &[
            "write",
            "writeq",
            "print",
            "write_canonical",
            "nl",
            "put_char",
            "format",
        ],
        name,
    ) {
        return OUTPUT;
    }
    if is_one_of(&["read", "get_char", "peek_char"], name) {
        return INPUT;
    }
    if is_one_of(
        &[
            "assert",
            "asserta",
            "assertz",
            "retract",
            "retractall",
            "abolish",
        ],
        name,
    ) {
        return DATABASE;
    }
    if is_one_of(&["close", "set_input", "set_output"], name) {
        return STREAMS;
    }
    if is_one_of(&["throw"], name) {
        return THROW;
    }
    if is_one_of(&["halt"], name) {
        return HALT;
    }
    0
}

/// The bit of the kind of a predicate of two arguments, or 0.
fn kinds_2(name: &str) -> u64
    ensures { result ≡ kinds name.now 2 }
{
    if is_one_of(
        &[
            "write",
            "writeq",
            "write_canonical",
            "write_term",
            "put_char",
            "format",
        ],
        name,
    ) {
        return OUTPUT;
    }
    if is_one_of(&["read", "read_term", "get_char", "peek_char"], name) {
        return INPUT;
    }
    if is_one_of(&["close"], name) {
        return STREAMS;
    }
    if is_one_of(&["set_prolog_flag"], name) {
        return FLAGS;
    }
    0
}

/// The bit of the kind of a predicate of three arguments, or 0.
fn kinds_3(name: &str) -> u64
    ensures { result ≡ kinds name.now 3 }
{
    if is_one_of(&["write_term", "format"], name) {
        return OUTPUT;
    }
    if is_one_of(&["read_term"], name) {
        return INPUT;
    }
    if is_one_of(&["open"], name) {
        return STREAMS;
    }
    if is_one_of(&["op"], name) {
        return FLAGS;
    }
    0
}

/// The bit of the kind of a predicate of four arguments, or 0.
fn kinds_4(name: &str) -> u64
    ensures { result ≡ kinds name.now 4 }
{
    if is_one_of(&["open"], name) {
        return STREAMS;
    }
    0
}

/// The kind of effect of a predicate with this name and arity: the bit of its number, or 0 if it
/// has none. It takes no memory.
pub fn kinds_of(name: &str, arity: u32) -> u64
    ensures { result ≡ kinds name.now arity }
{
    match arity {
        0 => kinds_0(name),
        1 => kinds_1(name),
        2 => kinds_2(name),
        3 => kinds_3(name),
        4 => kinds_4(name),
        _ => 0,
    }
}
