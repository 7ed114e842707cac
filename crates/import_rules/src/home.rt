//! A file of a program as the home of its names: what a name means in the file's own module is
//! found by its number.

ghost use Rattle.std.specs.Prelude.{◌≡◌, ◌<◌, Some, IfSome, length, slice_get};
ghost use Rattle.std.proofs.Props.{props};
ghost use Rattle.prolog_names.specs.Names.{name_at};
ghost use Rattle.module_table.specs.Facts.{see_facts};
ghost use Rattle.import_rules.specs.Homes.{AreFound};
ghost use Rattle.import_rules.specs.Program.{found, see_program};

use crate::own_names::OwnName;
use crate::program::Program;
use crate::program_tables::ProgramTables;
use module_table::FileFacts;

/// A file of a program, with the predicates of its own module that it defines by the numbers of
/// their names. A clause of the file has its names as numbers, so that no text is compared.
#[derive(Clone, Copy)]
pub struct Home<'a> {
    pub program: &'a Program,
    pub facts: &'a FileFacts,
    kept: &'a [OwnName],
    ghost kept_is: { AreFound program.now facts.now kept.now } by { Prim.hlevel props },
}

impl ProgramTables {
    /// The file at that index, and what is recorded of its names by their numbers: the predicates of
    /// the file's module that it defines.
    pub(crate) fn own_file(&self, file: u32) -> (&FileFacts, &[OwnName])
        requires { file < length (see_program self.now).loaded.files }
        ensures facts { slice_get (see_program self.now).loaded.files file ≡ Some (see_facts result.0.now) }
        ensures kept { AreFound (see_program self.now) result.0.now result.1.now }
    {
        let facts = &self.loaded.files[file as usize];
        (facts, self.own_names.list(file))
    }
}

impl<'a> Home<'a> {
    /// The file at that index among the files of the program. It takes no memory.
    pub fn of(program: &'a Program, file: u32) -> Home<'a>
        requires { file < length program.now.loaded.files }
        ensures program { result.program.now ≡ program.now }
        ensures facts { slice_get program.now.loaded.files file ≡ Some (see_facts result.facts.now) }
    {
        let (facts, kept) = program.own_file(file);
        Home {
            program,
            facts,
            kept,
        }
    }

    /// The number of the predicate that is recorded for the name of that number, if it has so many
    /// arguments.
    fn find_kept(&self, number: u32, arity: u32) -> Option<u32>
        ensures { IfSome result (λ node. found self.now.program.now self.now.facts.now.module
            (name_at self.now.facts.now.names number) arity ≡ Some node) }
    {
        let own = self.kept.get(number as usize)?;
        if own.after == 0 {
            return None;
        }
        if own.arity != arity {
            return None;
        }
        Some(own.after - 1)
    }

    /// The number of the predicate that the name of that number, in the names of the file, means in
    /// the file's module. None if it means none. Only the name of a predicate that the file doesn't
    /// define is hashed.
    pub fn find(&self, number: u32, arity: u32) -> Option<u32>
        ensures { result ≡ found self.now.program.now self.now.facts.now.module (name_at self.now.facts.now.names number) arity }
    {
        if let Some(node) = self.find_kept(number, arity) {
            return Some(node);
        }
        let name = self.facts.names.text(number);
        self.program.find(self.facts.module.as_str(), name, arity)
    }
}
