//! The names of predicates.

ghost use Rattle.std.specs.Prelude.{◌≡◌};
ghost use Rattle.import_rules.specs.Names.{pred_cmp, pred_name};
ghost use Rattle.import_rules.specs.Parts.{see_name};

use prolog_tokens::Text;
use std::cmp::Ordering;

/// The name of a predicate: its module, its own name and its number of arguments.
#[derive(Debug, Drop)]
pub struct PredName {
    pub module: Text,
    pub name: Text,
    pub arity: u32,
}

/// A view of the name of a predicate, as in the file that defines it.
#[derive(Clone, Copy)]
pub struct NameView<'a> {
    pub module: &'a str,
    pub name: &'a str,
    pub arity: u32,
}

impl PredName {
    /// A view of the name.
    pub fn view(&self) -> NameView<'_>
        ensures { see_name result ≡ self.now }
    {
        NameView {
            module: self.module.as_str(),
            name: self.name.as_str(),
            arity: self.arity,
        }
    }
}

/// How a name compares with another one: by module, then by name, then by arity.
pub(crate) fn compare(own: NameView<'_>, module: &str, name: &str, arity: u32) -> Ordering
    ensures { result ≡ pred_cmp (see_name own.entry) (pred_name module.now name.now arity) }
{
    let in_module = own.name.cmp(name).then(own.arity.cmp(&arity));
    own.module.cmp(module).then(in_module)
}
