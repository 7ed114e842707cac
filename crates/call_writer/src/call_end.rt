//! The ends of the lines of calls, as JSON.

ghost use Rattle.std.specs.Prelude.{◌≡◌, ◌++◌, OnOk, codes};
ghost use Rattle.std.specs.String.{string_bytes};
ghost use Rattle.call_writer.specs.Json.{truth};
ghost use Rattle.call_writer.specs.Lines.{call_end};

use crate::json::push_number;
use std::alloc::AllocError;

/// What follows the number of added arguments.
fn negated_end(negated: bool) -> &'static str
    ensures { result.now ≡ codes ",\"negated\":" ++ (truth negated ++ codes "}\n") }
{
    if negated {
        ",\"negated\":true}\n"
    } else {
        ",\"negated\":false}\n"
    }
}

/// The end of the line of a call to which no arguments are added.
fn written_end(negated: bool) -> &'static str
    ensures { result.now ≡ call_end 0 negated }
{
    if negated {
        ",\"added\":0,\"negated\":true}\n"
    } else {
        ",\"added\":0,\"negated\":false}\n"
    }
}

/// Adds the end of the line of a call: how many arguments are added to its goal, and whether it is
/// negated.
pub(crate) fn push_call_end(text: &mut String, added: u32, negated: bool) -> Result<(), AllocError>
    ensures { OnOk result (string_bytes text.new ≡ string_bytes text.old ++ call_end added negated) }
{
    if added == 0 {
        text.push_str(written_end(negated))?;
        return Ok(());
    }
    text.push_str(",\"added\":")?;
    push_number(text, u64::from(added))?;
    text.push_str(negated_end(negated))?;
    Ok(())
}
