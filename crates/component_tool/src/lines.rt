//! The lines that report why there is no report on a text.

ghost use Rattle.std.specs.Prelude.{◌≡◌, ◌++◌, IfOk, OnOk};
ghost use Rattle.std.specs.Fmt.{decimal};
ghost use Rattle.std.specs.String.{string_bytes};
ghost use Rattle.component_tool.specs.Lines.{cause_text, fault_line, large_line, missing_line, place_text};

use component_answer::{Cause, TextFault};
use prolog_tokens::Text;
use std::alloc::{AllocError, Global};

/// The name that lines begin with.
pub const PROGRAM: &str = "components";
/// The line that lists the arguments.
pub const USAGE: &str =
    "usage: components [--jobs N] [--roots NAME].. [--order] [--json] [--loops] [--from-json] [FILE]\n";
/// The line that reports that memory ran out.
pub const MEMORY: &str = "components: out of memory\n";
/// The line that reports too many edges.
pub const EDGES: &str = "components: more than 33554432 edges\n";
/// The line that reports too many nodes.
pub const NODES: &str = "components: more than 8388608 nodes\n";

/// Adds the number in decimal digits.
fn push_number(alloc: Global, text: &mut String, number: u32) -> Result<(), AllocError>
    ensures { OnOk result (string_bytes text.new ≡ string_bytes text.old ++ decimal number) }
{
    let digits = number.to_string(alloc)?;
    text.push_str(&digits)
}

/// Adds `:LINE:COLUMN`.
fn push_place(alloc: Global, text: &mut String, fault: TextFault) -> Result<(), AllocError>
    ensures { OnOk result (string_bytes text.new ≡ string_bytes text.old ++ place_text fault) }
{
    text.push_str(":")?;
    push_number(alloc, text, fault.line)?;
    text.push_str(":")?;
    push_number(alloc, text, fault.column)
}

fn cause_text(cause: Cause) -> &'static str
    ensures { result.now ≡ cause_text cause }
{
    match cause {
        Cause::NotEdge => ": line is not an edge\n",
        Cause::LongName => ": name is longer than 65536 bytes\n",
    }
}

/// The line that reports what is wrong with a text: `FILE:LINE:COLUMN: ` and what is wrong there.
pub fn fault_line(alloc: Global, file: &Text, fault: TextFault) -> Result<String, AllocError>
    ensures { IfOk result (λ text. string_bytes text ≡ fault_line file.now fault) }
{
    let mut text = String::from_str(alloc, file.as_str())?;
    push_place(alloc, &mut text, fault)?;
    text.push_str(cause_text(fault.cause))?;
    Ok(text)
}

/// The line that reports a text that is too large.
pub fn large_line(alloc: Global, file: &Text) -> Result<String, AllocError>
    ensures { IfOk result (λ text. string_bytes text ≡ large_line file.now) }
{
    let mut text = String::from_str(alloc, "components: ")?;
    text.push_str(file.as_str())?;
    text.push_str(" is larger than 1073741824 bytes\n")?;
    Ok(text)
}

/// The line that reports a root that is no node.
pub fn missing_line(alloc: Global, root: &Text) -> Result<String, AllocError>
    ensures { IfOk result (λ text. string_bytes text ≡ missing_line root.now) }
{
    let mut text = String::from_str(alloc, "components: no node ")?;
    text.push_str(root.as_str())?;
    text.push_str("\n")?;
    Ok(text)
}
