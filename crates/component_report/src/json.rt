//! Names in JSON.

ghost use Rattle.std.specs.Prelude.{◌≡◌, ◌<◌, ◌+◌, ◌++◌, ◌∷◌, ◌/◌, ◌%◌, [], IsTrue, OnOk, codes};
ghost use Rattle.std.specs.Fmt.{decimal};
ghost use Rattle.std.specs.List.{flat_map};
ghost use Rattle.std.specs.Str.{is_utf8};
ghost use Rattle.component_report.specs.Json.{hex_digit, json_byte, json_list, json_name, json_string, with_commas};

use crate::head::push_text;
use crate::number::push_number;
use std::alloc::AllocError;

/// The small hexadecimal digit of a number below 16.
fn hex_digit(number: u8) -> u8
    requires { number < 16 }
    ensures { result ≡ hex_digit number }
{
    if number < 10 {
        return b'0' + number;
    }
    b'a' + (number - 10)
}

/// Adds the escape of a control character.
fn push_code(text: &mut Vec<u8>, code: u8) -> Result<(), AllocError>
    ensures { OnOk result (text.new.items ≡ text.old.items ++ (codes "\\u00" ++ hex_digit (code / 16) ∷ hex_digit (code % 16) ∷ [])) }
{
    push_text(text, "\\u00")?;
    text.push(hex_digit(code / 16))?;
    text.push(hex_digit(code % 16))?;
    Ok(())
}

/// Adds a byte of a string.
fn push_byte(text: &mut Vec<u8>, byte: u8) -> Result<(), AllocError>
    ensures { OnOk result (text.new.items ≡ text.old.items ++ json_byte byte) }
{
    if byte == b'"' {
        return push_text(text, "\\\"");
    }
    if byte == b'\\' {
        return push_text(text, "\\\\");
    }
    if byte < 0x20 {
        return push_code(text, byte);
    }
    text.push(byte)?;
    Ok(())
}

/// Whether the byte needs no escape in a string of JSON.
fn is_plain(byte: u8) -> bool
    ensures { IsTrue result → json_byte byte ≡ byte ∷ [] }
{
    if byte == b'"' {
        return false;
    }
    if byte == b'\\' {
        return false;
    }
    byte >= 0x20
}

/// Whether no byte needs an escape, as in most names.
fn are_plain(bytes: &[u8]) -> bool
    ensures { IsTrue result → flat_map json_byte bytes.now ≡ bytes.now }
{
    for &byte in bytes {
        if !is_plain(byte) {
            return false;
        }
    }
    true
}

/// Adds the bytes of a string one by one.
fn push_escaped(text: &mut Vec<u8>, bytes: &[u8]) -> Result<(), AllocError>
    ensures { OnOk result (text.new.items ≡ text.old.items ++ flat_map json_byte bytes.now) }
{
    for &byte in bytes {
        push_byte(text, byte)?;
    }
    Ok(())
}

/// Adds what is between the quotes of a string. Bytes that need no escapes are added at once.
fn push_inner(text: &mut Vec<u8>, bytes: &[u8]) -> Result<(), AllocError>
    ensures { OnOk result (text.new.items ≡ text.old.items ++ flat_map json_byte bytes.now) }
{
    if are_plain(bytes) {
        return text.extend_from_slice(bytes);
    }
    push_escaped(text, bytes)
}

/// Adds a name as a string between quotes.
fn push_string(text: &mut Vec<u8>, name: &[u8]) -> Result<(), AllocError>
    ensures { OnOk result (text.new.items ≡ text.old.items ++ json_string name.now) }
{
    push_text(text, "\"")?;
    push_inner(text, name)?;
    push_text(text, "\"")
}

/// Adds each number after a comma.
fn push_more_numbers(text: &mut Vec<u8>, bytes: &[u8]) -> Result<(), AllocError>
    ensures { OnOk result (text.new.items ≡ text.old.items ++ flat_map (λ byte. codes "," ++ decimal byte) bytes.now) }
{
    for &byte in bytes {
        push_text(text, ",")?;
        push_number(text, u64::from(byte))?;
    }
    Ok(())
}

/// Adds the numbers with commas between them.
fn push_numbers(text: &mut Vec<u8>, bytes: &[u8]) -> Result<(), AllocError>
    ensures { OnOk result (text.new.items ≡ text.old.items ++ with_commas decimal bytes.now) }
{
    let Some((first, rest)) = bytes.split_first() else {
        return Ok(());
    };
    push_number(text, u64::from(*first))?;
    push_more_numbers(text, rest)
}

/// Adds a name as the list of its bytes.
fn push_list(text: &mut Vec<u8>, name: &[u8]) -> Result<(), AllocError>
    ensures { OnOk result (text.new.items ≡ text.old.items ++ json_list decimal name.now) }
{
    push_text(text, "[")?;
    push_numbers(text, name)?;
    push_text(text, "]")
}

/// Whether the bytes are UTF-8.
fn is_text(bytes: &[u8]) -> bool
    ensures { result ≡ is_utf8 bytes.now }
{
    match str::from_utf8(bytes) {
        Ok(_) => true,
        Err(_) => false,
    }
}

/// Adds a name as a string of JSON, or if it isn't UTF-8 as the list of its bytes.
pub(crate) fn push_json_name(text: &mut Vec<u8>, name: &[u8]) -> Result<(), AllocError>
    ensures { OnOk result (text.new.items ≡ text.old.items ++ json_name name.now) }
{
    if is_text(name) {
        return push_string(text, name);
    }
    push_list(text, name)
}
