//! The numbering of the predicates of files.

ghost use Rattle.std.specs.Prelude.{◌≡◌, ◌++◌, IfOk, OnOk, map, option_map, option_to_list};
ghost use Rattle.module_table.specs.Kinds.{first_of};
ghost use Rattle.import_rules.specs.Numbers.{AreNumbers, lists_of};
ghost use Rattle.import_rules.specs.Parts.{names_at, see_part, places_of_parts};

use crate::part::{Part, compare, is_same};
use crate::places::{Places, places_of};
use module_table::FileFacts;
use std::alloc::{AllocError, Global};

/// Adds the predicate that is defined at these positions. If there are none, nothing is added.
fn add(alloc: Global, run: &[Part], predicates: &mut Vec<Places>) -> Result<(), AllocError>
    ensures { OnOk result (lists_of predicates.new.items ≡ lists_of predicates.old.items
        ++ option_to_list (option_map (λ first. places_of_parts run.now) (first_of run.now))) }
{
    let Some(_first) = run.first() else {
        return Ok(());
    };
    predicates.push(places_of(alloc, run)?)?;
    Ok(())
}

/// The predicates that are defined at these positions, each once and in order: the positions of
/// each. The index in this list is the predicate's number.
pub(crate) fn number(
    alloc: Global,
    files: &[FileFacts],
    mut parts: Vec<Part>,
) -> Result<Vec<Places>, AllocError>
    ensures { IfOk result (λ made. AreNumbers (map (see_part files.now) parts.items) (names_at files.now made.items) (lists_of made.items)) }
{
    parts.sort_by(|a, b| compare(files, a, b))?;
    let mut predicates = Vec::with_capacity(alloc, parts.len())?;
    for run in parts.chunk_by(|a, b| is_same(files, a, b)) {
        add(alloc, run, &mut predicates)?;
    }
    Ok(predicates)
}
