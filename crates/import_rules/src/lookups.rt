//! The tables that the import rules look names up in.

ghost use Rattle.std.specs.Prelude.{◌≡◌, IfSome, Contains, option_map};
ghost use Rattle.std.specs.List.{list_any};
ghost use Rattle.std.specs.Str.{bytes_eq};
ghost use Rattle.import_rules.specs.Names.{pred_name};
ghost use Rattle.import_rules.specs.Files.{file_named, is_local};
ghost use Rattle.import_rules.specs.KnownFiles.{IsKnownIn, IsReady, absent_of, files_of, see_known, shared_of};
ghost use Rattle.import_rules.specs.Offers.{is_shared};

use crate::item::Item;
use crate::known_file::{KnownFile, file_at};
use crate::names::compare;
use crate::predicates::Predicates;
use module_table::Indicator;
use prolog_tokens::Text;

/// The loaded files in order of name, the names of absent files, the predicates that the files
/// define, and the names that two leading files export. The latter are items for no module, in
/// order and one for each name.
#[derive(Drop)]
pub(crate) struct Lookups<'a, 't> {
    pub known: Vec<KnownFile<'a>>,
    pub absent: &'a [Text],
    pub predicates: &'t Predicates<'a>,
    pub shared: Vec<Item<'a>>,
}

impl<'a> Lookups<'a, '_> {
    /// Whether some file defines the predicate, for its own module or for another one.
    pub(crate) fn is_local(&self, module: &str, name: &str, arity: u32) -> bool
        requires { IsReady self.now }
        ensures { result ≡ is_local (files_of self.now) (pred_name module.now name.now arity) }
    {
        self.predicates.find(module, name, arity).is_some()
    }

    /// Whether the indicator has the name and arity of a shared item. It is a binary search.
    pub(crate) fn is_shared(&self, indicator: &Indicator) -> bool
        requires { IsReady self.now }
        ensures { result ≡ is_shared (shared_of self.now) indicator.now }
    {
        let (name, arity) = (indicator.name.as_str(), indicator.arity);
        self.shared
            .binary_search_by(|item| compare(item.view(), "", name, arity))
            .is_ok()
    }

    /// Whether a file of that name was asked for and isn't there. It is a binary search.
    pub(crate) fn is_absent(&self, name: &Text) -> bool
        requires { IsReady self.now }
        ensures { result ≡ list_any (bytes_eq name.now) (absent_of self.now) }
    {
        self.absent.binary_search(name).is_ok()
    }

    /// The file of that name, or None if it wasn't loaded.
    pub(crate) fn file(&self, name: &Text) -> Option<&KnownFile<'a>>
        requires { IsReady self.now }
        ensures is { option_map (λ file. see_known file.now) result ≡ file_named (files_of self.now) name.now }
        ensures known { IfSome result (λ file. IsKnownIn (files_of self.now) file.now) }
    {
        file_at(&self.known, name.as_str())
    }
}
