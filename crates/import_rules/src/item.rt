//! Import items: predicates that modules import, each with the position of its import.

ghost use Rattle.std.specs.Prelude.{◌≡◌};
ghost use Rattle.import_rules.specs.Names.{pred_cmp, is_same};
ghost use Rattle.import_rules.specs.Clashes.{see_item};
ghost use Rattle.import_rules.specs.Parts.{see_name};

use crate::names::NameView;
use std::cmp::Ordering;

/// A predicate that a module imports from another under the same name and arity. The file and the
/// byte offset are the position of the load or of the indicator in its list.
#[derive(Clone, Copy)]
pub(crate) struct Item<'a> {
    pub module: &'a str,
    pub name: &'a str,
    pub arity: u32,
    pub from_module: &'a str,
    pub file: &'a str,
    pub offset: u32,
}

impl<'a> Item<'a> {
    /// A view of the name that it gives.
    pub(crate) fn view(&self) -> NameView<'a>
        ensures { see_name result ≡ (see_item self.now).into }
    {
        NameView {
            module: self.module,
            name: self.name,
            arity: self.arity,
        }
    }
}

/// The order of items by the name that they give: module, name and arity.
pub(crate) fn compare(a: &Item<'_>, b: &Item<'_>) -> Ordering
    ensures { result ≡ pred_cmp (see_item a.now).into (see_item b.now).into }
{
    let names = a.name.cmp(b.name).then(a.arity.cmp(&b.arity));
    a.module.cmp(b.module).then(names)
}

/// Whether the items give the same name: module, name and arity.
pub(crate) fn is_same(a: &Item<'_>, b: &Item<'_>) -> bool
    ensures { result ≡ is_same (see_item a.now).into (see_item b.now).into }
{
    a.module == b.module && a.name == b.name && a.arity == b.arity
}
