ghost use Rattle.std.specs.Prelude.{◌≡◌};
ghost use Rattle.std.specs.List.{list_any};
ghost use Rattle.std.specs.Str.{bytes_eq};
ghost use Rattle.prolog_tokens.specs.Chars.{continues, is_graphic};
ghost use Rattle.prolog_tokens.specs.BareNames.{all_are, is_letter_name, is_graphic_name, sign_names, is_bare_name};

use crate::chars::{Class, class_at};

/// Whether each character of the text continues a name.
fn all_continue(text: &str) -> bool
    ensures { result ≡ all_are continues text.now }
{
    (0..text.len()).all(|at| class_at(text, at).continues())
}

/// Whether each character of the text is graphic.
fn all_graphic(text: &str) -> bool
    ensures { result ≡ all_are is_graphic text.now }
{
    (0..text.len()).all(|at| class_at(text, at).is_graphic())
}

/// Whether the name is a letter name.
fn is_letter_name(name: &str) -> bool
    ensures { result ≡ is_letter_name name.now }
{
    match class_at(name, 0) {
        Class::Small => all_continue(name),
        _ => false,
    }
}

/// Whether the name is graphic characters that aren't the end token and don't begin a comment.
fn is_graphic_name(name: &str) -> bool
    ensures { result ≡ is_graphic_name name.now }
{
    if name.is_empty() {
        return false;
    }
    if name.as_bytes().starts_with(b"/*") {
        return false;
    }
    if name == "." {
        return false;
    }
    all_graphic(name)
}

/// Whether the name is `!`, `;`, `[]` or `{}`.
fn is_sign_name(name: &str) -> bool
    ensures { result ≡ list_any (λ sign. bytes_eq sign name.now) sign_names }
{
    name == "!" || name == ";" || name == "[]" || name == "{}"
}

/// Whether an atom of this name needs no quotes (ISO/IEC 13211-1, 6.4.2).
///
/// It is then a letter name, graphic characters that don't begin with `/*` and aren't `.` alone,
/// `!`, `;`, `[]` or `{}`.
pub fn is_bare_name(name: &str) -> bool
    ensures { result ≡ is_bare_name name.now }
{
    is_letter_name(name) || is_graphic_name(name) || is_sign_name(name)
}
