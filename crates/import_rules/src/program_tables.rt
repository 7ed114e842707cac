ghost use Rattle.std.specs.Prelude.{◌≡◌, ◌<◌, ◌≤◌, ℕ, List, [], true, Some, IfSome, length, map, slice_get};
ghost use Rattle.std.proofs.Props.{props};
ghost use Rattle.file_library.specs.SortedOut.{see_loaded};
ghost use Rattle.import_rules.specs.declared.resolve.TheConstants.{MOST_PREDICATES};
ghost use Rattle.import_rules.specs.Chained.{AreChained};
ghost use Rattle.import_rules.specs.Files.{AreNumbered};
ghost use Rattle.import_rules.specs.Flaws.{AreFlaws};
ghost use Rattle.file_library.specs.Loaded.{WasLoaded};
ghost use Rattle.import_rules.specs.Meanings.{AreTargets};
ghost use Rattle.import_rules.specs.Metas.{AreDeclared, metas_in};
ghost use Rattle.import_rules.specs.Numbers.{lists_of, places_for, parts_in};
ghost use Rattle.import_rules.specs.OwnNames.{AreOwn};
ghost use Rattle.import_rules.specs.Parts.{names_at};

use crate::import_tables::ImportTables;
use crate::name_table::name_hash;
use crate::names::NameView;
use crate::own_names::OwnNames;
use crate::places::Places;
use crate::predicates::{Chains, Predicates};
use file_library::Loaded;
use module_table::GoalArg;

/// The tables of a program, and what holds of them.
#[derive(Drop)]
pub(crate) struct ProgramTables {
    pub(crate) loaded: Loaded,
    /// For each predicate the positions at which it is defined. Names are only in the files.
    pub(crate) places: Vec<Places>,
    pub(crate) chains: Chains,
    /// The predicates by the numbers of their names in their files.
    pub(crate) own_names: OwnNames,
    /// What modules import.
    pub(crate) imports: ImportTables,
    /// For each predicate the position of its first declaration of goal arguments. That is the
    /// index of a file, and one more than the index in its `metas`. The latter is 0 if the
    /// predicate has none. The list is empty if no predicate has one.
    pub(crate) meta_places: Vec<(u32, u32)>,
    pub ghost was_loaded: { ∥ WasLoaded (see_loaded loaded) ∥₁ },
    pub ghost few: { length places.items ≤ MOST_PREDICATES },
    pub ghost numbered: { ∥ AreNumbered (see_loaded loaded).files (names_at loaded.files.items places.items) ∥₁ },
    pub ghost chained: { AreChained (names_at loaded.files.items places.items) chains } by { Prim.hlevel props },
    pub ghost own_kept: { AreOwn loaded.files.items (names_at loaded.files.items places.items) own_names } by { Prim.hlevel props },
    pub ghost faultless: { ∥ AreFlaws (see_loaded loaded).files (see_loaded loaded).absent [] ∥₁ },
    pub ghost meant: { AreTargets (see_loaded loaded).files (names_at loaded.files.items places.items) imports } by { Prim.hlevel props },
    pub ghost placed: { lists_of places.items ≡ map (places_for (parts_in (see_loaded loaded).files)) (names_at loaded.files.items places.items) },
    pub ghost told: { AreDeclared (metas_in (see_loaded loaded).files) (names_at loaded.files.items places.items) meta_places.items } by { Prim.hlevel props },
}

impl ProgramTables {
    ghost use Rattle.import_rules.specs.NameTable.{name_hash};
    ghost use Rattle.import_rules.specs.Names.{pred_name};
    ghost use Rattle.import_rules.specs.Parts.{see_name};
    ghost use Rattle.import_rules.specs.Program.{see_program, places_in, meta_in, meta_meant, found, IsKnown};
    ghost use Rattle.import_rules.specs.ClauseEnds.{AllStandApart};

    /// A theorem about each program: it has at most 1,048,576 predicates and 1,024 files, both in
    /// order. Each file was read from its text. The function does nothing, and is called for what
    /// it ensures.
    pub(crate) fn is_known(&self)
        ensures { IsKnown (see_program self.now) }
    {}

    /// A theorem about each program: no clause of a file ends before it starts, each ends at an
    /// offset of the text, and no two overlap. The function does nothing, and is called for what it
    /// ensures.
    pub(crate) fn clauses_apart(&self)
        ensures { AllStandApart (see_program self.now) }
    {}

    /// How many predicates there are.
    pub(crate) fn count(&self) -> u32
        ensures { result ≡ length (see_program self.now).predicates }
    {
        self.places.len() as u32
    }

    /// The name of the predicate of a number below the count.
    pub(crate) fn name_of(&self, node: u32) -> NameView<'_>
        requires { node < length (see_program self.now).predicates }
        ensures { slice_get (see_program self.now).predicates node ≡ Some (see_name result) }
    {
        self.places[node as usize].name(&self.loaded.files)
    }

    /// The predicates with their hash chains, for look-ups by name.
    fn predicates(&self) -> Predicates<'_>
        ensures { result ≡ (see_program self.now).predicates }
    {
        Predicates {
            files: &self.loaded.files,
            places: &self.places,
            chains: &self.chains,
        }
    }

    /// What was loaded, as it was passed to `resolve_all`.
    pub(crate) fn loaded(&self) -> &Loaded
        ensures { (see_program self.now).loaded ≡ see_loaded result.now }
    {
        &self.loaded
    }

    /// The positions at which the predicate of a number below the count is defined, in strictly
    /// ascending order. Each is the index of a file in `files`, and the index in the `defined` of
    /// that file.
    pub(crate) fn places_of(&self, node: u32) -> &[(u32, u32)]
        requires { node < length (see_program self.now).predicates }
        ensures { result.now ≡ places_in (see_program self.now) node }
    {
        self.places[node as usize].as_slice()
    }

    /// How the arguments of goals of the predicate of a number below the count are called, by the
    /// first declaration for it. It is empty if there is none.
    pub(crate) fn meta_of(&self, node: u32) -> &[GoalArg]
        requires { node < length (see_program self.now).predicates }
        ensures { result.now ≡ meta_in (see_program self.now) node }
    {
        if self.meta_places.is_empty() {
            return &[];
        }
        let (file, place) = self.meta_places[node as usize];
        if place == 0 {
            return &[];
        }
        &self.loaded.files[file as usize].metas[place as usize - 1].args
    }

    /// Whether no predicate has a declaration of goal arguments. If so, no name needs to be looked
    /// up for one.
    pub(crate) fn declares_nothing(&self) -> bool
        ensures { result ≡ true → (owner name : List ℕ) (arity : ℕ) → meta_meant (see_program self.now) owner name arity ≡ [] }
    {
        self.meta_places.is_empty()
    }

    /// What `meta_of` returns for the predicate that a name means in a module. It is empty if the
    /// name means none. If no predicate has a declaration, no name is looked up.
    pub(crate) fn meta_meant(&self, module: &str, name: &str, arity: u32) -> &[GoalArg]
        ensures { result.now ≡ meta_meant (see_program self.now) module.now name.now arity }
    {
        if self.meta_places.is_empty() {
            return &[];
        }
        match self.find(module, name, arity) {
            Some(node) => self.meta_of(node),
            None => &[],
        }
    }

    /// The number of the predicate that a name means in a module: the module's own predicate, or
    /// else the one that the module imports. None if there is neither. It looks the name up in one
    /// table, and in at most three more if the module has no predicate of that name.
    pub(crate) fn find(&self, module: &str, name: &str, arity: u32) -> Option<u32>
        ensures { result ≡ found (see_program self.now) module.now name.now arity }
    {
        self.find_hashed(module, name, arity, name_hash(module, name, arity))
    }

    /// What `find` returns, for a name whose hash is known.
    fn find_hashed(&self, module: &str, name: &str, arity: u32, hash: u32) -> Option<u32>
        requires { hash ≡ name_hash (pred_name module.now name.now arity) }
        ensures { result ≡ found (see_program self.now) module.now name.now arity }
    {
        let predicates = self.predicates();
        if let Some(node) = predicates.find_hashed(module, name, arity, hash) {
            return Some(node);
        }
        self.find_imported(module, name, arity, hash)
    }

    /// The number of the predicate that is recorded for the name of that number in the file. None
    /// if nothing is recorded, or if it is recorded for another name, arity or module.
    fn find_kept(&self, file: u32, number: u32, module: &str, name: &str, arity: u32) -> Option<u32>
        ensures { IfSome result (λ node. found (see_program self.now) module.now name.now arity ≡ Some node) }
    {
        let facts = self.loaded.files.get(file as usize)?;
        let kept = self.own_names.get(file, number);
        if kept.after == 0 {
            return None;
        }
        if kept.arity != arity {
            return None;
        }
        if !facts.names.is(number, name) {
            return None;
        }
        if module != facts.module.as_str() {
            return None;
        }
        Some(kept.after - 1)
    }

    /// What `find` returns, whatever `file` and `number` are. It mostly needs no hash if `number`
    /// is that of the name in the names of the file at index `file`. For that, the file has to be
    /// of the module and to define the predicate, as for most calls.
    pub(crate) fn find_numbered(
        &self,
        file: u32,
        number: u32,
        module: &str,
        name: &str,
        arity: u32,
    ) -> Option<u32>
        ensures { result ≡ found (see_program self.now) module.now name.now arity }
    {
        if let Some(node) = self.find_kept(file, number, module, name, arity) {
            return Some(node);
        }
        self.find(module, name, arity)
    }
}
