//! File specifications, and the loads that they make.

ghost use Rattle.std.specs.Prelude.{◌≡◌, ℕ, List, IfOk, IfErr, OnOk, [], map, option_map};
ghost use Rattle.std.specs.String.{string_bytes};
ghost use Rattle.prolog_terms.specs.Terms.{tree_of};
ghost use Rattle.module_table.specs.Said.{IsWhy};
ghost use Rattle.module_table.specs.Kept.{IsAdded};
ghost use Rattle.module_table.specs.Loading.{path_text, file_of, is_system, load_said, loads_said, use_all_said};

use crate::file_name::resolve_name;
use crate::indicator::Indicator;
use crate::kinds::{Kinds, push_part};
use crate::said::{FactFault, Part, refusal};
use clause_text::{Cause, written_items};
use prolog_terms::{Form, Term, TermKind, atom_name, inside, sides, start_of};
use prolog_tokens::Text;
use std::alloc::{AllocError, Global};

/// What a load imports.
#[derive(Clone, Copy, Debug, PartialEq, Eq)]
pub enum LoadKind {
    /// All exports of the file.
    UseAll,
    /// The indicators of a list.
    UseSome,
    /// The file is loaded, and imported if it is a module file.
    Ensure,
}

/// A file to load: its resolved name, what is imported of it (only for `UseSome`), and the byte
/// offset of its specification.
#[derive(Drop)]
pub struct Load {
    pub file: Text,
    pub kind: LoadKind,
    pub items: Vec<Indicator>,
    pub from: u32,
}

/// The text of an atom, or of such texts with `/` between them.
fn path_text(alloc: Global, term: &Term) -> Result<Option<String>, AllocError>
    ensures { IfOk result (λ found. option_map string_bytes found ≡ path_text (tree_of term.now)) }
{
    if let Some(name) = atom_name(term) {
        return Ok(Some(String::from_str(alloc, name)?));
    }
    let Some((left, right)) = sides(term, "/") else {
        return Ok(None);
    };
    let Some(mut path) = path_text(alloc, &left)? else {
        return Ok(None);
    };
    let Some(behind) = path_text(alloc, &right)? else {
        return Ok(None);
    };
    path.push_str("/")?;
    path.push_str(behind.as_str())?;
    Ok(Some(path))
}

/// The file that a specification in a file names, or None if it names none.
fn file_of(alloc: Global, user: &str, spec: &Term) -> Result<Option<Text>, AllocError>
    ensures { IfOk result (λ found. found ≡ file_of user.now (tree_of spec.now)) }
{
    match path_text(alloc, spec)? {
        Some(path) => resolve_name(alloc, user, path.as_str()),
        None => Ok(None),
    }
}

/// Whether the specification is a term of one argument in functional notation, such as
/// `library(lists)`.
fn is_system(spec: &Term) -> bool
    ensures { result ≡ is_system (tree_of spec.now) }
{
    let TermKind::Compound { args, form, .. } = inside(spec).kind() else {
        return false;
    };
    let Some(_inner) = args.only() else {
        return false;
    };
    form == Form::Functional
}

/// Adds the load that the specification makes. A term such as `library(lists)` makes none. Any
/// other term that names no file is an error.
pub fn push_load(
    alloc: Global,
    user: &str,
    kind: LoadKind,
    items: Vec<Indicator>,
    spec: &Term,
    kinds: &mut Kinds,
) -> Result<(), FactFault>
    ensures ok { OnOk result ((names : List (List ℕ)) → IsAdded names kinds.old (load_said user.now kind items.items (tree_of spec.now)) kinds.new) }
    ensures refused { IfErr result (λ fault. IsWhy (load_said user.now kind items.items (tree_of spec.now)) fault) }
{
    if is_system(spec) {
        return Ok(());
    }
    let Some(file) = file_of(alloc, user, spec)? else {
        return Err(refusal(Cause::BadSpec, spec));
    };
    let load = Load {
        file,
        kind,
        items,
        from: start_of(spec),
    };
    push_part(kinds, Part::Load(load))
}

/// Adds one load for each specification, in their order.
pub fn push_loads(
    alloc: Global,
    user: &str,
    kind: LoadKind,
    specs: &[Term],
    kinds: &mut Kinds,
) -> Result<(), FactFault>
    ensures ok { OnOk result ((names : List (List ℕ)) → IsAdded names kinds.old (loads_said user.now kind (map tree_of specs.now)) kinds.new) }
    ensures refused { IfErr result (λ fault. IsWhy (loads_said user.now kind (map tree_of specs.now)) fault) }
{
    for spec in specs {
        push_load(alloc, user, kind, Vec::new(alloc), spec, kinds)?;
    }
    Ok(())
}

/// Adds what `use_module/1` loads.
pub fn push_use_all(
    alloc: Global,
    user: &str,
    spec: &Term,
    kinds: &mut Kinds,
) -> Result<(), FactFault>
    ensures ok { OnOk result ((names : List (List ℕ)) → IsAdded names kinds.old (use_all_said user.now (tree_of spec.now)) kinds.new) }
    ensures refused { IfErr result (λ fault. IsWhy (use_all_said user.now (tree_of spec.now)) fault) }
{
    match written_items(spec) {
        Some(specs) => push_loads(alloc, user, LoadKind::UseAll, &specs.to_vec(alloc)?, kinds),
        None => push_load(alloc, user, LoadKind::UseAll, Vec::new(alloc), spec, kinds),
    }
}
