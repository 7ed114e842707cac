//! The lines of calls of directives, as JSON.

ghost use Rattle.std.specs.Prelude.{◌≡◌, ◌++◌, OnOk};
ghost use Rattle.std.specs.List.{flat_map, zip};
ghost use Rattle.std.specs.String.{string_bytes};
ghost use Rattle.call_edges.specs.PlacedSeen.{see_call, see_calls};
ghost use Rattle.call_writer.specs.Lines.{directive_head, directive_line, directive_line_if};

use crate::call_end::push_call_end;
use crate::last::{Last, LastFile, LastModule};
use crate::lines::{is_hidden, push_callee, push_name_after, push_spot};
use call_edges::PlacedCall;
use import_rules::Program;
use prolog_tokens::Place;
use std::alloc::{AllocError, Global};

/// Adds the beginning of the line of a call without a caller, up to what it means.
fn push_directive_head(text: &mut String, callee: Option<u32>) -> Result<(), AllocError>
    ensures { OnOk result (string_bytes text.new ≡ string_bytes text.old ++ directive_head callee) }
{
    text.push_str("{\"is\":\"call\",\"caller\":null,\"callee\":")?;
    push_callee(text, callee)
}

/// Adds the line of a call of a directive.
fn push_directive_line<'a, 'b>(
    text: &mut String,
    last: &mut Last<'a, 'b>,
    call: &PlacedCall<'b>,
    place: Place,
) -> Result<(), AllocError>
    ensures text { OnOk result (string_bytes text.new
        ≡ string_bytes text.old ++ directive_line last.old.file.program.now (see_call call.now) place) }
    ensures program { OnOk result (last.new.file.program.now ≡ last.old.file.program.now) }
{
    let named = call.named;
    push_directive_head(text, call.callee)?;
    push_name_after(
        text,
        &mut last.module,
        named.module,
        named.name,
        named.arity,
    )?;
    push_spot(text, &mut last.file, named.file, place)?;
    text.push_str(",\"directive\":true")?;
    push_call_end(text, named.added, named.negated)
}

/// Adds the line of a call of a directive. If `undefined` is set, there is none for a call that
/// means a predicate.
fn push_directive<'a, 'b>(
    text: &mut String,
    last: &mut Last<'a, 'b>,
    call: &PlacedCall<'b>,
    place: Place,
    undefined: bool,
) -> Result<(), AllocError>
    ensures text { OnOk result (string_bytes text.new
        ≡ string_bytes text.old ++ directive_line_if undefined last.old.file.program.now (see_call call.now) place) }
    ensures program { OnOk result (last.new.file.program.now ≡ last.old.file.program.now) }
{
    if is_hidden(undefined, call.callee) {
        return Ok(());
    }
    push_directive_line(text, last, call, place)
}

/// Adds the lines of calls of directives with their lines and columns, in their order. If
/// `undefined` is set, only those of calls whose name means no predicate.
pub fn push_directive_lines(
    alloc: Global,
    text: &mut String,
    program: &Program,
    calls: &[PlacedCall<'_>],
    places: &[Place],
    undefined: bool,
) -> Result<(), AllocError>
    ensures { OnOk result (string_bytes text.new ≡ string_bytes text.old
        ++ flat_map (λ pair. directive_line_if undefined program.now pair.0 pair.1) (zip (see_calls calls.now) places.now)) }
{
    let mut last = Last {
        file: LastFile::none(alloc, program),
        module: LastModule::none(alloc),
    };
    for (call, place) in calls.iter().zip(places) {
        push_directive(text, &mut last, call, *place, undefined)?;
    }
    Ok(())
}
