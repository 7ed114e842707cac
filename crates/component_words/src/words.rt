//! Which argument is what.

ghost use Rattle.std.specs.Prelude.{◌≡◌};
ghost use Rattle.component_words.specs.Words.{is_filled, is_operand, is_plain};

/// Whether the argument isn't empty.
pub(crate) fn is_filled(word: &str) -> bool
    ensures { result ≡ is_filled word.now }
{
    !word.is_empty()
}

/// Whether the argument isn't empty and doesn't begin with `-`.
pub(crate) fn is_plain(word: &str) -> bool
    ensures { result ≡ is_plain word.now }
{
    match word.as_bytes().first() {
        Some(byte) => *byte != b'-',
        None => false,
    }
}

/// Whether the argument is no option: a file, or `-` for standard input.
pub(crate) fn is_operand(word: &str) -> bool
    ensures { result ≡ is_operand word.now }
{
    let bytes = word.as_bytes();
    if bytes.is_empty() {
        return false;
    }
    if bytes.len() == 1 {
        return true;
    }
    bytes[0] != b'-'
}
