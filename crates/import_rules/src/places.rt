//! The positions at which a predicate is defined.

ghost use Rattle.std.specs.Prelude.{◌≡◌, IfOk};
ghost use Rattle.import_rules.specs.Names.{is_same, pred_name};
ghost use Rattle.import_rules.specs.NameTable.{name_hash};
ghost use Rattle.import_rules.specs.Numbers.{see_places};
ghost use Rattle.import_rules.specs.Parts.{name_of_places, places_of_parts, see_name};

use crate::names::NameView;
use crate::part::{Part, no_name, part_hash, part_name};
use module_table::FileFacts;
use std::alloc::{AllocError, Global};

/// The positions at which a predicate is defined: each is the index of a file, and the index in the
/// file's `defined`. Most predicates have one position, which takes no memory of its own. The
/// others have a boxed list, since a program has as many of these values as predicates.
#[derive(Drop)]
pub(crate) enum Places {
    One([(u32, u32); 1]),
    More(Box<Vec<(u32, u32)>>),
}

impl Places {
    pub(crate) fn as_slice(&self) -> &[(u32, u32)]
        ensures { result.now ≡ see_places self.now }
    {
        match self {
            Places::One(one) => one,
            Places::More(more) => more.as_slice(),
        }
    }

    /// The name of the predicate, which is read at its first position.
    pub(crate) fn name<'a>(&self, files: &'a [FileFacts]) -> NameView<'a>
        ensures { see_name result ≡ name_of_places files.now self.now }
    {
        let Some(first) = self.as_slice().first() else {
            return no_name();
        };
        part_name(
            files,
            &Part {
                file: first.0,
                part: first.1,
            },
        )
    }

    /// The hash of the name of the predicate, made of the hashes that the names of its file keep. No
    /// text is read.
    pub(crate) fn hash(&self, files: &[FileFacts]) -> u32
        ensures { result ≡ name_hash (name_of_places files.now self.now) }
    {
        let Some(first) = self.as_slice().first() else {
            return 0;
        };
        part_hash(
            files,
            &Part {
                file: first.0,
                part: first.1,
            },
        )
    }

    /// Whether that is the name of the predicate. Modules are compared last, since most predicates
    /// have the same one.
    pub(crate) fn are_named(
        &self,
        files: &[FileFacts],
        module: &str,
        name: &str,
        arity: u32,
    ) -> bool
        ensures { result ≡ is_same (pred_name module.now name.now arity) (name_of_places files.now self.now) }
    {
        let own = self.name(files);
        if arity != own.arity {
            return false;
        }
        if name != own.name {
            return false;
        }
        module == own.module
    }
}

/// The positions of one predicate, in the same order.
pub(crate) fn places_of(alloc: Global, parts: &[Part]) -> Result<Places, AllocError>
    ensures { IfOk result (λ places. see_places places ≡ places_of_parts parts.now) }
{
    if parts.len() == 1 {
        return Ok(Places::One([(parts[0].file, parts[0].part)]));
    }
    let mut places = Vec::with_capacity(alloc, parts.len())?;
    for part in parts {
        places.push((part.file, part.part))?;
    }
    Ok(Places::More(Box::new(alloc, places)?))
}
