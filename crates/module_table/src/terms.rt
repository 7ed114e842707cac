//! Views of terms that look through the brackets round them.

ghost use Rattle.std.specs.Prelude.{◌≡◌, IfOk, IfSome, All, option_map, map};
ghost use Rattle.std.specs.List.{list_any};
ghost use Rattle.std.specs.Str.{bytes_eq};
ghost use Rattle.prolog_terms.specs.Terms.{tree_of, IsOf};
ghost use Rattle.module_table.specs.Indicators.{list_of};

use clause_text::written_items;
use prolog_terms::{Term, atom_name};
use std::alloc::{AllocError, Global};

/// Whether the name is one of the words.
pub fn is_one_of(words: &[&str], name: &str) -> bool
    ensures { result ≡ list_any (λ word. bytes_eq word.now name.now) words.now }
{
    words.iter().any(|word| *word == name)
}

/// The items of a list without a tail, in their order, or None if the term is no such list.
pub fn list_items<'a>(alloc: Global, term: &Term<'a>) -> Result<Option<Vec<Term<'a>>>, AllocError>
    ensures trees { IfOk result (λ found. option_map (λ items. map tree_of items.items) found ≡ list_of (tree_of term.now)) }
    ensures within { IfOk result (λ found. IfSome found (λ items. All (IsOf term.now.names.now term.now.nodes.now) items.items)) }
{
    if let Some(name) = atom_name(term) {
        if name == "[]" {
            return Ok(Some(Vec::new(alloc)));
        }
        return Ok(None);
    }
    let Some(items) = written_items(term) else {
        return Ok(None);
    };
    Ok(Some(items.to_vec(alloc)?))
}
