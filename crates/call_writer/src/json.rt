//! Strings and numbers of JSON.

ghost use Rattle.std.specs.Prelude.{◌≡◌, ◌<◌, ◌+◌, ◌++◌, ◌∷◌, ◌/◌, ◌%◌, [], IsTrue, OnOk, chars, codes};
ghost use Rattle.std.specs.Char.{encode_utf8};
ghost use Rattle.std.specs.Fmt.{decimal};
ghost use Rattle.std.specs.List.{flat_map};
ghost use Rattle.std.specs.String.{string_bytes};
ghost use Rattle.call_writer.specs.Json.{hex_digit, json_char, json_string};

use itoa::Buffer;
use std::alloc::AllocError;

/// Adds the number in decimal digits. It allocates only for the text.
pub(crate) fn push_number(text: &mut String, number: u64) -> Result<(), AllocError>
    ensures { OnOk result (string_bytes text.new ≡ string_bytes text.old ++ decimal number) }
{
    let mut digits = Buffer::new();
    text.push_str(digits.format(number))
}

/// The small hexadecimal digit of a number below 16.
fn hex_digit(number: u8) -> u8
    requires { number < 16 }
    ensures { result ≡ hex_digit number }
{
    if number < 10 {
        return b'0' + number;
    }
    b'a' + (number - 10)
}

/// Adds the escape of a control character.
fn push_code(text: &mut String, code: u8) -> Result<(), AllocError>
    requires { code < 128 }
    ensures { OnOk result (string_bytes text.new
        ≡ string_bytes text.old ++ (codes "\\u00" ++ hex_digit (code / 16) ∷ hex_digit (code % 16) ∷ [])) }
{
    text.push_str("\\u00")?;
    text.push(hex_digit(code / 16) as char)?;
    text.push(hex_digit(code % 16) as char)
}

/// Adds a character of a string.
fn push_json_char(text: &mut String, character: char) -> Result<(), AllocError>
    ensures { OnOk result (string_bytes text.new ≡ string_bytes text.old ++ json_char character) }
{
    if character == '"' {
        return text.push_str("\\\"");
    }
    if character == '\\' {
        return text.push_str("\\\\");
    }
    if character < ' ' {
        return push_code(text, character as u8);
    }
    text.push(character)
}

/// Whether the character needs no escape in a string of JSON.
fn is_plain(character: char) -> bool
    ensures { IsTrue result → json_char character ≡ encode_utf8 character }
{
    if character == '"' {
        return false;
    }
    if character == '\\' {
        return false;
    }
    character >= ' '
}

/// Whether a text needs no escapes in a string of JSON, like most names.
fn are_plain(name: &str) -> bool
    ensures { IsTrue result → flat_map json_char (chars name.now) ≡ name.now }
{
    for character in name.chars() {
        if !is_plain(character) {
            return false;
        }
    }
    true
}

/// Adds the characters of a text one by one.
fn push_escaped(text: &mut String, name: &str) -> Result<(), AllocError>
    ensures { OnOk result (string_bytes text.new ≡ string_bytes text.old ++ flat_map json_char (chars name.now)) }
{
    for character in name.chars() {
        push_json_char(text, character)?;
    }
    Ok(())
}

/// Adds what is between the quotes of a string. A text that needs no escapes is added at once.
pub(crate) fn push_inner(text: &mut String, name: &str) -> Result<(), AllocError>
    ensures { OnOk result (string_bytes text.new ≡ string_bytes text.old ++ flat_map json_char (chars name.now)) }
{
    if are_plain(name) {
        return text.push_str(name);
    }
    push_escaped(text, name)
}

/// Adds a text as a string of JSON (RFC 8259, section 7), between quotes. A quote is `\"`, a
/// backslash `\\`, and a character below U+0020 is `\u00HH` with two small hexadecimal digits. Any
/// other character is as it is.
pub fn push_json_string(text: &mut String, name: &str) -> Result<(), AllocError>
    ensures { OnOk result (string_bytes text.new ≡ string_bytes text.old ++ json_string name.now) }
{
    text.push_str("\"")?;
    push_inner(text, name)?;
    text.push_str("\"")
}
