use crate::pieces::push_made;
use std::alloc::{AllocError, Global};

/// The bytes that a row means.
pub fn bytes_of(alloc: Global, row: &str) -> Result<Vec<u8>, AllocError> {
    let mut bytes = Vec::new(alloc);
    for part in row.split('«') {
        match part.split_once('»') {
            Some((inside, behind)) => {
                push_meant(alloc, &mut bytes, inside)?;
                push_plain(alloc, &mut bytes, behind)?;
            }
            None => push_plain(alloc, &mut bytes, part)?,
        }
    }
    Ok(bytes)
}

/// Adds the text, with a newline for each `¶`.
fn push_plain(alloc: Global, bytes: &mut Vec<u8>, text: &str) -> Result<(), AllocError> {
    let mut plain = String::new(alloc);
    for c in text.chars() {
        plain.push(if c == '¶' { '\n' } else { c })?;
    }
    bytes.extend_from_slice(plain.as_bytes())
}

/// Adds the meaning of what is between the marks, which is nothing if it has none.
fn push_meant(alloc: Global, bytes: &mut Vec<u8>, inside: &str) -> Result<(), AllocError> {
    if let Some((count, part)) = inside.split_once('*') {
        for _ in 0..count.parse::<u32>().unwrap_or(0) {
            push_plain(alloc, bytes, part)?;
        }
        return Ok(());
    }
    if let Some(byte) = inside.strip_prefix('x') {
        bytes.push(u8::from_str_radix(byte, 16).unwrap_or(0))?;
        return Ok(());
    }
    let code = u32::from_str_radix(inside, 16).unwrap_or(0);
    let mut text = String::new(alloc);
    text.push(char::from_u32(code).unwrap_or(char::REPLACEMENT_CHARACTER))?;
    bytes.extend_from_slice(text.as_bytes())
}

/// Adds `¶` for a newline, the number of another control character, or the character itself.
fn push_shown(alloc: Global, out: &mut String, c: char) -> Result<(), AllocError> {
    if c == '\n' {
        return out.push('¶');
    }
    if c < ' ' {
        let code = u32::from(c);
        return push_made(out, format!(in alloc; "«{code:x}»"));
    }
    out.push(c)
}

/// The output with `¶` for each newline, and each other control character as its number.
pub fn shown(alloc: Global, answer: &str) -> Result<String, AllocError> {
    let mut out = String::new(alloc);
    for c in answer.chars() {
        push_shown(alloc, &mut out, c)?;
    }
    Ok(out)
}
