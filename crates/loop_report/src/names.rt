ghost use Rattle.std.specs.Prelude.{◌≡◌, ◌<◌, ◌++◌, IfOk, OnOk, codes, length};
ghost use Rattle.std.specs.Fmt.{decimal};
ghost use Rattle.std.specs.String.{string_bytes};
ghost use Rattle.import_rules.specs.Parts.{see_name};
ghost use Rattle.loop_report.specs.Names.{member_name, name_text, own_text};

use crate::last_module::LastModule;
use crate::spelled::push_atom;
use import_rules::{NameView, PredName, Program};
use itoa::Buffer;
use std::alloc::{AllocError, Global};

/// Adds the number in decimal digits. It allocates only for the text.
pub(crate) fn push_number(text: &mut String, number: u64) -> Result<(), AllocError>
    ensures { OnOk result (string_bytes text.new ≡ string_bytes text.old ++ decimal number) }
{
    let mut digits = Buffer::new();
    text.push_str(digits.format(number))
}

/// A slash and the arity, which has one digit.
fn short_arity(arity: u32) -> &'static str
    requires { arity < 10 }
    ensures { result.now ≡ codes "/" ++ decimal arity }
{
    match arity {
        0 => "/0",
        1 => "/1",
        2 => "/2",
        3 => "/3",
        4 => "/4",
        5 => "/5",
        6 => "/6",
        7 => "/7",
        8 => "/8",
        _ => "/9",
    }
}

/// Adds the name without its module.
fn push_own(text: &mut String, predicate: NameView<'_>) -> Result<(), AllocError>
    ensures { OnOk result (string_bytes text.new
        ≡ string_bytes text.old ++ own_text (see_name predicate.entry)) }
{
    push_atom(text, predicate.name)?;
    if predicate.arity < 10 {
        return text.push_str(short_arity(predicate.arity));
    }
    text.push_str("/")?;
    push_number(text, u64::from(predicate.arity))
}

fn push_name(text: &mut String, predicate: NameView<'_>) -> Result<(), AllocError>
    ensures { OnOk result (string_bytes text.new
        ≡ string_bytes text.old ++ name_text (see_name predicate.entry)) }
{
    push_atom(text, predicate.module)?;
    text.push_str(":")?;
    push_own(text, predicate)
}

/// The name of a predicate as reports print it: `MODULE:NAME/ARITY`, where `quote_atom` spells
/// module and name.
pub fn predicate_name(alloc: Global, predicate: &PredName) -> Result<String, AllocError>
    ensures { IfOk result (λ text. string_bytes text ≡ name_text predicate.now) }
{
    let mut text = String::new(alloc);
    push_name(&mut text, predicate.view())?;
    Ok(text)
}

/// Adds a space and the name of the predicate with that number. Its module is the last one then.
pub(crate) fn push_member<'a>(
    text: &mut String,
    program: &'a Program,
    last: &mut LastModule<'a>,
    member: u32,
) -> Result<(), AllocError>
    requires { member < length program.now.predicates }
    ensures { OnOk result (string_bytes text.new
        ≡ string_bytes text.old ++ member_name program.now.predicates member) }
{
    let predicate = program.name_of(member);
    last.take(predicate.module)?;
    text.push_str(last.text.as_str())?;
    push_own(text, predicate)
}
