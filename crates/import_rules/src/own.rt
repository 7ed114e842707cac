//! The predicate that has a name itself, whatever its module imports.

ghost use Rattle.std.specs.Prelude.{◌≡◌, ◌↔◌, Contains, IsTrue, MatchOption, Some, slice_get};
ghost use Rattle.import_rules.specs.Parts.{see_name};
ghost use Rattle.import_rules.specs.Program.{see_program};

use crate::laws::found_means;
use crate::names::{NameView, PredName};
use crate::program_tables::ProgramTables;

/// Whether the names are equal. Modules are compared last.
fn is_same(name: NameView<'_>, other: NameView<'_>) -> bool
    ensures { IsTrue result ↔ (see_name name.entry ≡ see_name other.entry) }
{
    if name.arity != other.arity {
        return false;
    }
    if name.name != other.name {
        return false;
    }
    name.module == other.module
}

impl ProgramTables {
    /// The number of the predicate that has exactly this name, or None if no file defines it. A
    /// predicate that the module imports under this name doesn't count.
    pub(crate) fn own(&self, name: &PredName) -> Option<u32>
        ensures { MatchOption result
            (Contains (see_program self.now).predicates name.now → ⊥)
            (λ node. slice_get (see_program self.now).predicates node ≡ Some name.now) }
    {
        self.is_known();
        found_means();
        let wanted = name.view();
        let Some(node) = self.find(wanted.module, wanted.name, wanted.arity) else {
            return None;
        };
        if is_same(self.name_of(node), wanted) {
            return Some(node);
        }
        None
    }
}
