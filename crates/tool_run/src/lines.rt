ghost use Rattle.std.specs.Prelude.{◌≡◌, ◌++◌, IfOk, OnOk};
ghost use Rattle.std.specs.Fmt.{decimal};
ghost use Rattle.std.specs.String.{string_bytes};
ghost use Rattle.tool_run.specs.Lines.{fault_line, fault_lines, limit_line, missing_line, place_text, unread_line};

use crate::stop::Limit;
use clause_text::cause_text;
use file_library::Fault;
use import_rules::PredName;
use loop_report::predicate_name;
use prolog_tokens::{Place, Text};
use std::alloc::{AllocError, Global};

/// The lines of the errors, in their order: `FILE:LINE:COLUMN: TEXT`, or `FILE: TEXT` if the line
/// is 0.
pub fn fault_lines(alloc: Global, faults: &[Fault]) -> Result<String, AllocError>
    ensures { IfOk result (λ text. string_bytes text ≡ fault_lines faults.now) }
{
    let mut text = String::new(alloc);
    for fault in faults {
        push_fault(alloc, &mut text, fault)?;
    }
    Ok(text)
}

fn push_fault(alloc: Global, text: &mut String, fault: &Fault) -> Result<(), AllocError>
    ensures { OnOk result (string_bytes text.new ≡ string_bytes text.old ++ fault_line fault.now) }
{
    text.push_str(fault.file.as_str())?;
    push_place(alloc, text, fault.place)?;
    text.push_str(": ")?;
    text.push_str(cause_text(fault.cause))?;
    text.push_str("\n")
}

/// Adds `:LINE:COLUMN`, or nothing if the line is 0.
fn push_place(alloc: Global, text: &mut String, place: Place) -> Result<(), AllocError>
    ensures { OnOk result (string_bytes text.new ≡ string_bytes text.old ++ place_text place) }
{
    if place.line == 0 {
        return Ok(());
    }
    text.push_str(":")?;
    push_number(alloc, text, place.line)?;
    text.push_str(":")?;
    push_number(alloc, text, place.column)
}

/// Adds the number in decimal digits.
fn push_number(alloc: Global, text: &mut String, number: u32) -> Result<(), AllocError>
    ensures { OnOk result (string_bytes text.new ≡ string_bytes text.old ++ decimal number) }
{
    let digits = number.to_string(alloc)?;
    text.push_str(&digits)
}

/// The line that reports a name in the arguments that is no predicate:
/// `PROGRAM: no predicate NAME`.
pub fn missing_line(alloc: Global, program: &str, root: &PredName) -> Result<String, AllocError>
    ensures { IfOk result (λ text. string_bytes text ≡ missing_line program.now root.now) }
{
    let name = predicate_name(alloc, root)?;
    named_line(alloc, program, ": no predicate ", name.as_str(), "\n")
}

/// The line that reports a file that can't be read: `PROGRAM: cannot read FILE`.
pub fn unread_line(alloc: Global, program: &str, name: &Text) -> Result<String, AllocError>
    ensures { IfOk result (λ text. string_bytes text ≡ unread_line program.now name.now) }
{
    named_line(alloc, program, ": cannot read ", name.as_str(), "\n")
}

/// The line that reports the limit that was passed: `PROGRAM: ` and the limit.
pub fn limit_line(alloc: Global, program: &str, limit: &Limit) -> Result<String, AllocError>
    ensures { IfOk result (λ text. string_bytes text ≡ limit_line program.now limit.now) }
{
    match limit {
        Limit::TooManyFiles => line(alloc, program, ": more than 1024 files\n"),
        Limit::FileTooLarge(name) => named_line(
            alloc,
            program,
            ": ",
            name.as_str(),
            " is larger than 8388608 bytes\n",
        ),
        Limit::TooMuchText => line(alloc, program, ": more than 33554432 bytes of text\n"),
        Limit::TooManyPredicates => line(alloc, program, ": more than 1048576 predicates\n"),
    }
}

/// The program's name, and words after it.
fn line(alloc: Global, program: &str, words: &str) -> Result<String, AllocError>
    ensures { IfOk result (λ text. string_bytes text ≡ program.now ++ words.now) }
{
    let mut text = String::from_str(alloc, program)?;
    text.push_str(words)?;
    Ok(text)
}

/// The program's name, and after it another name with words before and after that.
fn named_line(
    alloc: Global,
    program: &str,
    before: &str,
    name: &str,
    behind: &str,
) -> Result<String, AllocError>
    ensures { IfOk result (λ text. string_bytes text ≡ program.now ++ (before.now ++ (name.now ++ behind.now))) }
{
    let mut text = line(alloc, program, before)?;
    text.push_str(name)?;
    text.push_str(behind)?;
    Ok(text)
}
