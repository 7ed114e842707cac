//! What a name means in a module that has no predicate of that name: what the module imports.

ghost use Rattle.std.specs.Prelude.{◌≡◌, [], Some, false, MatchOption};
ghost use Rattle.std.specs.List.{list_any};
ghost use Rattle.import_rules.specs.Meanings.{IsNotOffered};
ghost use Rattle.import_rules.specs.Names.{is_same, pred_name};
ghost use Rattle.import_rules.specs.NameTable.{name_hash};
ghost use Rattle.import_rules.specs.Program.{found, see_program};

use crate::name_table::name_hash;
use crate::program_tables::ProgramTables;

impl ProgramTables {
    /// What `find` returns for a name with that hash, if no file defines it in the module. It hashes
    /// texts for at most two more look-ups.
    pub(crate) fn find_imported(
        &self,
        module: &str,
        name: &str,
        arity: u32,
        hash: u32,
    ) -> Option<u32>
        requires absent { list_any (is_same (pred_name module.now name.now arity)) (see_program self.now).predicates ≡ false }
        requires hash { hash ≡ name_hash (pred_name module.now name.now arity) }
        ensures { result ≡ found (see_program self.now) module.now name.now arity }
    {
        if let Some(at) = self.imports.names.find(module, name, arity, hash) {
            return Some(self.imports.targets[at]);
        }
        self.find_offered(module, name, arity)
    }

    /// What `find` returns for a name that has no entry of its own for the module. A module exports
    /// it all of whose exports that one takes, or it isn't imported.
    fn find_offered(&self, module: &str, name: &str, arity: u32) -> Option<u32>
        requires absent { list_any (is_same (pred_name module.now name.now arity)) (see_program self.now).predicates ≡ false }
        requires other { list_any (is_same (pred_name module.now name.now arity)) self.now.imports.names ≡ false }
        ensures { result ≡ found (see_program self.now) module.now name.now arity }
    {
        let bare = name_hash("", name, arity);
        if let Some(source) = self.find_first(module, name, arity, bare) {
            return Some(source);
        }
        self.find_shared(module, name, arity, bare)
    }

    /// The number of the predicate that a name with that hash means in the module, if the module takes
    /// all exports of the first module that exports it.
    fn find_first(&self, module: &str, name: &str, arity: u32, bare: u32) -> Option<u32>
        requires absent { list_any (is_same (pred_name module.now name.now arity)) (see_program self.now).predicates ≡ false }
        requires hash { bare ≡ name_hash (pred_name [] name.now arity) }
        ensures { MatchOption result
            (IsNotOffered (see_program self.now).predicates self.now.imports (pred_name module.now name.now arity))
            (λ node. found (see_program self.now) module.now name.now arity ≡ Some node) }
    {
        let Some(at) = self.imports.offered.find("", name, arity, bare) else {
            return None;
        };
        let source = self.imports.sources[at];
        let offering = self.name_of(source);
        if self.imports.taken.has(module, offering.module) {
            return Some(source);
        }
        None
    }

    /// What `find` returns for a name with that hash that the module doesn't take of the first module
    /// that exports it. It is one step for each other module that does.
    fn find_shared(&self, module: &str, name: &str, arity: u32, bare: u32) -> Option<u32>
        requires absent { list_any (is_same (pred_name module.now name.now arity)) (see_program self.now).predicates ≡ false }
        requires other { list_any (is_same (pred_name module.now name.now arity)) self.now.imports.names ≡ false }
        requires hash { bare ≡ name_hash (pred_name [] name.now arity) }
        requires first { IsNotOffered (see_program self.now).predicates self.now.imports (pred_name module.now name.now arity) }
        ensures { result ≡ found (see_program self.now) module.now name.now arity }
    {
        let imports = &self.imports;
        let Some(at) = imports.shared.names.find("", name, arity, bare) else {
            return None;
        };
        let Some(user) = imports.taken.place(module) else {
            return None;
        };
        imports.shared.taken_at(at, user, &imports.taken)
    }
}
