//! The symbol table of a program, as the layers above see it.

ghost use Rattle.std.specs.Prelude.{◌≡◌, ◌<◌, ℕ, List, [], true, Some, Contains, MatchOption, length, slice_get, IfOk};
ghost use Rattle.std.specs.List.{AllZip};
ghost use Rattle.file_library.specs.SortedOut.{see_loaded};
ghost use Rattle.file_library.specs.Spots.{AreSpots, IsSpotPlace};
ghost use Rattle.import_rules.specs.Program.{see_program};

use crate::names::{NameView, PredName};
use crate::own_names::OwnName;
use crate::program_tables::ProgramTables;
use file_library::Loaded;
use module_table::{FileFacts, GoalArg};
use prolog_tokens::Place;
use std::alloc::{AllocError, Global};
use std::marker::Model;

/// The predicates of all files that were loaded, and what each name means in each module.
/// Predicates are numbered from 0 in order of module, name and arity. Contracts see it as what was
/// loaded, and the names of the predicates by their numbers.
#[derive(Drop)]
pub struct Program {
    tables: ProgramTables,
}

impl Model for Program {
    ghost use Rattle.std.specs.Coded.{codes};
    ghost use Rattle.import_rules.specs.Program.{Seen, see_program};
    ghost use Rattle.prolog_terms.specs.TreeCode.{tree_code};
    ghost use Rattle.import_rules.specs.contracts.names.PredName as pred_name;
    ghost use Rattle.module_table.specs.contracts.goal_arg.GoalArg as goal_arg;
    ghost use Rattle.module_table.specs.contracts.indicator.Indicator as indicator;
    ghost use Rattle.module_table.specs.contracts.load.LoadKind as load_kind;

    ghost Value = { Seen };

    ghost coded = { Prim.hlevel (codes, tree_code, pred_name.the_row.coded, goal_arg.the_row.coded, indicator.the_row.coded, load_kind.the_row.coded) };

    ghost view = { λ p. see_program p.tables };
}

impl Program {
    ghost use Rattle.module_table.specs.Facts.{see_facts};
    ghost use Rattle.import_rules.specs.Homes.{AreFound};
    ghost use Rattle.import_rules.specs.Parts.{see_name};
    ghost use Rattle.import_rules.specs.Program.{places_in, meta_in, meta_meant, found, IsKnown};
    ghost use Rattle.import_rules.specs.ClauseEnds.{AllStandApart};

    /// The program of these tables.
    pub(crate) fn of(tables: ProgramTables) -> Program
        ensures { result ≡ see_program tables }
    {
        Program { tables }
    }

    /// A theorem about each program: it has at most 1,048,576 predicates and 1,024 files, both in
    /// order. Each file was read from its text. The function does nothing, and is called for what
    /// it ensures.
    pub fn is_known(&self)
        ensures { IsKnown self.now }
    {
        self.tables.is_known();
    }

    /// A theorem about each program: no clause of a file ends before it starts, each ends at an
    /// offset of the text, and no two overlap. The function does nothing, and is called for what it
    /// ensures.
    pub fn clauses_apart(&self)
        ensures { AllStandApart self.now }
    {
        self.tables.clauses_apart();
    }

    /// How many predicates there are.
    pub fn count(&self) -> u32
        ensures { result ≡ length self.now.predicates }
    {
        self.tables.count()
    }

    /// The name of the predicate of a number below the count.
    pub fn name_of(&self, node: u32) -> NameView<'_>
        requires { node < length self.now.predicates }
        ensures { slice_get self.now.predicates node ≡ Some (see_name result) }
    {
        self.tables.name_of(node)
    }

    /// What was loaded, as it was passed to `resolve_all`.
    pub fn loaded(&self) -> &Loaded
        ensures { self.now.loaded ≡ see_loaded result.now }
    {
        self.tables.loaded()
    }

    /// The positions at which the predicate of a number below the count is defined, in strictly
    /// ascending order. Each is the index of a file in `files`, and the index in the `defined` of
    /// that file.
    pub fn places_of(&self, node: u32) -> &[(u32, u32)]
        requires { node < length self.now.predicates }
        ensures { result.now ≡ places_in self.now node }
    {
        self.tables.places_of(node)
    }

    /// How the arguments of goals of the predicate of a number below the count are called, by the
    /// first declaration for it. It is empty if there is none.
    pub fn meta_of(&self, node: u32) -> &[GoalArg]
        requires { node < length self.now.predicates }
        ensures { result.now ≡ meta_in self.now node }
    {
        self.tables.meta_of(node)
    }

    /// Whether no predicate has a declaration of goal arguments. If so, no name needs to be looked
    /// up for one.
    pub fn declares_nothing(&self) -> bool
        ensures { result ≡ true → (owner name : List ℕ) (arity : ℕ) → meta_meant self.now owner name arity ≡ [] }
    {
        self.tables.declares_nothing()
    }

    /// What `meta_of` returns for the predicate that a name means in a module. It is empty if the
    /// name means none. If no predicate has a declaration, no name is looked up.
    pub fn meta_meant(&self, module: &str, name: &str, arity: u32) -> &[GoalArg]
        ensures { result.now ≡ meta_meant self.now module.now name.now arity }
    {
        self.tables.meta_meant(module, name, arity)
    }

    /// The number of the predicate that a name means in a module: the module's own predicate, or
    /// else the one that the module imports. None if there is neither. It looks the name up in one
    /// table, and in at most three more if the module has no predicate of that name.
    pub fn find(&self, module: &str, name: &str, arity: u32) -> Option<u32>
        ensures { result ≡ found self.now module.now name.now arity }
    {
        self.tables.find(module, name, arity)
    }

    /// What `find` returns, whatever `file` and `number` are. It mostly needs no hash if `number`
    /// is that of the name in the names of the file at index `file`. For that, the file has to be
    /// of the module and to define the predicate, as for most calls.
    pub fn find_numbered(
        &self,
        file: u32,
        number: u32,
        module: &str,
        name: &str,
        arity: u32,
    ) -> Option<u32>
        ensures { result ≡ found self.now module.now name.now arity }
    {
        self.tables.find_numbered(file, number, module, name, arity)
    }

    /// The file at that index, and what is recorded of its names by their numbers: the predicates of
    /// the file's module that it defines.
    pub(crate) fn own_file(&self, file: u32) -> (&FileFacts, &[OwnName])
        requires { file < length self.now.loaded.files }
        ensures facts { slice_get self.now.loaded.files file ≡ Some (see_facts result.0.now) }
        ensures kept { AreFound self.now result.0.now result.1.now }
    {
        self.tables.own_file(file)
    }

    /// The number of the predicate that has exactly this name, or None if no file defines it. A
    /// predicate that the module imports under this name doesn't count.
    pub fn own(&self, name: &PredName) -> Option<u32>
        ensures { MatchOption result
            (Contains self.now.predicates name.now → ⊥)
            (λ node. slice_get self.now.predicates node ≡ Some name.now) }
    {
        self.tables.own(name)
    }

    /// The line and the column of each spot, in the same order. A spot is the index of a file in
    /// `loaded().texts`, and a byte offset in its text. Spots are in ascending order of file and
    /// offset. It takes one pass over the text of a file.
    pub fn places_of_spots(
        &self,
        alloc: Global,
        spots: &[(u32, u32)],
    ) -> Result<Vec<Place>, AllocError>
        requires { AreSpots self.now.loaded.texts spots.now }
        ensures { IfOk result (λ places. AllZip (IsSpotPlace self.now.loaded.texts) spots.now places.items) }
    {
        self.tables.places_of_spots(alloc, spots)
    }
}
