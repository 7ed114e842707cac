//! Lines of calls of directives.

ghost use Rattle.std.specs.Prelude.{◌≡◌, ◌++◌, IfOk, OnOk};
ghost use Rattle.std.specs.String.{string_bytes};
ghost use Rattle.call_told.specs.Told.{TellsBoth, TellsDirectives, joined};

use call_table::placed_directives;
use call_writer::push_directive_lines;
use import_rules::Program;
use std::alloc::{AllocError, Global};

/// The lines of the calls of directives. If `undefined` is set, only those of calls whose names mean
/// no predicate.
fn directive_text(alloc: Global, program: &Program, undefined: bool) -> Result<String, AllocError>
    ensures { IfOk result (λ text. TellsDirectives undefined program.now (string_bytes text)) }
{
    let (calls, places) = placed_directives(alloc, program)?;
    let mut text = String::new(alloc);
    push_directive_lines(alloc, &mut text, program, &calls, &places, undefined)?;
    Ok(text)
}

/// Adds the lines of the calls of directives, as a text of their own.
pub(crate) fn push_directives(
    alloc: Global,
    program: &Program,
    undefined: bool,
    texts: &mut Vec<String>,
) -> Result<(), AllocError>
    ensures { OnOk result (TellsBoth (λ front. front ≡ joined texts.old.items) (TellsDirectives undefined program.now) (joined texts.new.items)) }
{
    let text = directive_text(alloc, program, undefined)?;
    texts.push(text)?;
    Ok(())
}
