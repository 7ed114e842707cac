ghost use Rattle.std.specs.Prelude.{◌≡◌, ◌++◌, ◌<◌, ◌≤◌, IfOk, OnOk};
ghost use Rattle.std.specs.String.{string_bytes};
ghost use Rattle.group_words.specs.declared.limits.TheConstants.{MOST_MADE};
ghost use Rattle.group_words.specs.Words.{as_list};
ghost use Rattle.group_words.specs.Made.{name_at, in_block, out_of_block, body, line, made_text};

use std::alloc::{AllocError, Global};

/// The predicate of the same block that the predicate with this number calls.
fn call_in_block(count: u32, number: u32) -> Option<u32>
    requires few { count ≤ MOST_MADE }
    requires within { number < count }
    ensures { as_list result ≡ in_block count number }
{
    if number % 10 == 9 {
        return Some(number - 9);
    }
    if number + 1 < count {
        return Some(number + 1);
    }
    None
}

/// The predicate of an earlier block that the predicate with this number calls.
fn call_out_of_block(number: u32) -> Option<u32>
    requires { number < MOST_MADE }
    ensures { as_list result ≡ out_of_block number }
{
    if number % 10 != 0 {
        return None;
    }
    if number < 10 {
        return None;
    }
    Some(10 * ((number / 10 - 1) / 2))
}

/// Adds the name of the predicate with this number.
fn push_name(alloc: Global, number: u32, text: &mut String) -> Result<(), AllocError>
    ensures { OnOk result (string_bytes text.new ≡ string_bytes text.old ++ name_at number) }
{
    let name = format!(in alloc; "p{number}")?;
    text.push_str(name.as_str())
}

/// Adds what follows the head of a line.
fn push_body(
    alloc: Global,
    first: Option<u32>,
    second: Option<u32>,
    text: &mut String,
) -> Result<(), AllocError>
    ensures { OnOk result (string_bytes text.new ≡ string_bytes text.old ++ body (as_list first ++ as_list second)) }
{
    let Some(called) = first.or(second) else {
        return Ok(());
    };
    text.push_str(" :- ")?;
    push_name(alloc, called, text)?;
    if first.is_none() {
        return Ok(());
    }
    let Some(other) = second else {
        return Ok(());
    };
    text.push_str(", ")?;
    push_name(alloc, other, text)
}

/// Adds the line of the predicate with this number.
fn push_line(alloc: Global, count: u32, number: u32, text: &mut String) -> Result<(), AllocError>
    requires few { count ≤ MOST_MADE }
    requires within { number < count }
    ensures { OnOk result (string_bytes text.new ≡ string_bytes text.old ++ line count number) }
{
    push_name(alloc, number, text)?;
    push_body(
        alloc,
        call_in_block(count, number),
        call_out_of_block(number),
        text,
    )?;
    text.push_str(".\n")
}

/// The generated program of `count` predicates, 1 to 100,000, with a line for each. Blocks of ten
/// predicates call each other in a cycle, and each block except the first calls an earlier one.
pub fn make_text(alloc: Global, count: u32) -> Result<String, AllocError>
    requires { count ≤ MOST_MADE }
    ensures { IfOk result (λ text. string_bytes text ≡ made_text count) }
{
    let mut text = String::new(alloc);
    for number in 0..count {
        push_line(alloc, count, number, &mut text)?;
    }
    Ok(text)
}
