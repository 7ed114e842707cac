ghost use Rattle.std.specs.Prelude.{◌≡◌, ◌<◌, ◌++◌, ◌∷◌, ◌/◌, ◌%◌, OnErr, OnOk, chars, codes};
ghost use Rattle.std.specs.List.{flat_map};
ghost use Rattle.std.specs.String.{string_bytes};
ghost use Rattle.loop_report.specs.Spelled.{hex_digit, quoted_char, quoted_name, spelled_name};

use prolog_tokens::is_bare_name;
use std::alloc::{AllocError, Global};

/// The small hexadecimal digit of a number below 16.
fn hex_digit(number: u8) -> u8
    requires { number < 16 }
    ensures { result ≡ hex_digit number }
{
    if number < 10 {
        return b'0' + number;
    }
    b'a' + (number - 10)
}

/// Adds the escape of a control character.
fn push_code(text: &mut String, code: u8) -> Result<(), AllocError>
    requires { code < 128 }
    ensures { OnOk result (string_bytes text.new
        ≡ string_bytes text.old ++ (codes "\\x" ++ hex_digit (code / 16) ∷ hex_digit (code % 16) ∷ codes "\\")) }
{
    text.push_str("\\x")?;
    text.push(hex_digit(code / 16) as char)?;
    text.push(hex_digit(code % 16) as char)?;
    text.push_str("\\")
}

/// Adds a character of a name between quotes.
fn push_quoted_char(text: &mut String, character: char) -> Result<(), AllocError>
    ensures { OnOk result (string_bytes text.new ≡ string_bytes text.old ++ quoted_char character) }
{
    if character == '\'' {
        return text.push_str("\\'");
    }
    if character == '\\' {
        return text.push_str("\\\\");
    }
    if character == '\n' {
        return text.push_str("\\n");
    }
    if character < ' ' {
        return push_code(text, character as u8);
    }
    if character == '\u{7f}' {
        return push_code(text, 0x7f);
    }
    text.push(character)
}

/// Adds the name between quotes.
fn push_quoted(text: &mut String, name: &str) -> Result<(), AllocError>
    ensures { OnOk result (string_bytes text.new ≡ string_bytes text.old ++ quoted_name name.now) }
{
    text.push_str("'")?;
    for character in name.chars() {
        push_quoted_char(text, character)?;
    }
    text.push_str("'")
}

/// Adds the name as it is, or between quotes if it would read otherwise (ISO/IEC 13211-1, 6.4.2).
/// In quotes `'` is `\'`, a backslash `\\`, a newline `\n`, and any other character below U+0020
/// and U+007F is `\xHH\` with two small hexadecimal digits.
pub(crate) fn push_atom(text: &mut String, name: &str) -> Result<(), AllocError>
    ensures { OnOk result (string_bytes text.new ≡ string_bytes text.old ++ spelled_name name.now) }
{
    if is_bare_name(name) {
        return text.push_str(name);
    }
    push_quoted(text, name)
}

/// Appends the spelling of a name in the report to `out`. It is the name as it is if that reads as
/// one name (ISO/IEC 13211-1, 6.4.2), and otherwise the name between quotes. If memory runs out,
/// `out` stays unchanged.
pub fn quote_atom(alloc: Global, name: &str, out: &mut Vec<u8>) -> Result<(), AllocError>
    ensures ok { OnOk result (out.new.items ≡ out.old.items ++ spelled_name name.now) }
    ensures err { OnErr result (out.new.items ≡ out.old.items) }
{
    let mut text = String::new(alloc);
    push_atom(&mut text, name)?;
    out.extend_from_slice(text.as_bytes())
}
