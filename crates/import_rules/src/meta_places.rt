//! The positions of the declarations of goal arguments.

ghost use Rattle.std.specs.Prelude.{◌≡◌, ◌≢◌, ◌≤◌, ◌<◌, ◌++◌, ℕ, List, [], Some, All, AllPairs, length, map, slice_index_or, IfOk, OnOk};
ghost use Rattle.std.specs.declared.cmp.Ordering.TheVariants.{Less};
ghost use Rattle.module_table.specs.Metas.{Declaration};
ghost use Rattle.module_table.specs.Facts.{Facts, see_facts};
ghost use Rattle.import_rules.specs.Names.{pred_cmp};
ghost use Rattle.import_rules.specs.Metas.{MetaAt, AreDeclared, HasFewMetas, metas_of_file, metas_in, first_kept};

use crate::predicates::Predicates;
use module_table::FileFacts;
use std::alloc::{AllocError, Global};

/// Makes an empty entry for each of `count` predicates, unless there are entries already.
fn make_room(alloc: Global, count: usize, kept: &mut Vec<(u32, u32)>) -> Result<(), AllocError>
    requires { kept.old.items ≢ [] → length kept.old.items ≡ count }
    ensures long { OnOk result (length kept.new.items ≡ count) }
    ensures same { OnOk result ((k : ℕ) → slice_index_or kept.new.items k (0, 0) ≡ slice_index_or kept.old.items k (0, 0)) }
{
    if !kept.is_empty() {
        return Ok(());
    }
    *kept = vec![in alloc; (0u32, 0u32); count]?;
    Ok(())
}

/// Records a position for the predicate of that number, unless it has one.
fn keep(node: usize, place: (u32, u32), kept: &mut Vec<(u32, u32)>)
    requires { node < length kept.old.items }
    ensures long { length kept.new.items ≡ length kept.old.items }
    ensures here { slice_index_or kept.new.items node (0, 0) ≡ first_kept (slice_index_or kept.old.items node (0, 0)) place }
    ensures others { (k : ℕ) → k ≢ node → slice_index_or kept.new.items k (0, 0) ≡ slice_index_or kept.old.items k (0, 0) }
{
    if kept[node].1 > 0 {
        return;
    }
    kept[node] = place;
}

/// Records the positions of the declarations of a file. Those for predicates that no file defines
/// are skipped.
fn keep_file(
    alloc: Global,
    place: u32,
    file: &FileFacts,
    predicates: &Predicates<'_>,
    kept: &mut Vec<(u32, u32)>,
) -> Result<(), AllocError>
    requires few { HasFewMetas (see_facts file.now) }
    requires long { kept.old.items ≢ [] → length kept.old.items ≡ length predicates.now }
    requires in_order { AllPairs (λ p q. pred_cmp p q ≡ Less) predicates.now }
    ensures { OnOk result ((done : List MetaAt) → AreDeclared done predicates.now kept.old.items
        → AreDeclared (done ++ metas_of_file place (see_facts file.now)) predicates.now kept.new.items) }
{
    for (at, meta) in file.metas.iter().enumerate() {
        let Some(node) = predicates.find(
            meta.module.as_str(),
            meta.name.as_str(),
            meta.args.len() as u32,
        ) else {
            continue;
        };
        make_room(alloc, predicates.len(), kept)?;
        keep(node as usize, (place, at as u32 + 1), kept);
    }
    Ok(())
}

/// For each predicate the position of its first declaration: the index of a file, and one more than
/// the index in the file's `metas`. The latter is 0 if the predicate has no declaration. If no
/// predicate has one, the list is empty and takes no memory.
pub(crate) fn meta_places(
    alloc: Global,
    files: &[FileFacts],
    predicates: &Predicates<'_>,
) -> Result<Vec<(u32, u32)>, AllocError>
    requires few { length files.now ≤ 4294967295 }
    requires small { All HasFewMetas (map see_facts files.now) }
    requires in_order { AllPairs (λ p q. pred_cmp p q ≡ Less) predicates.now }
    ensures { IfOk result (λ kept. AreDeclared (metas_in (map see_facts files.now)) predicates.now kept.items) }
{
    let mut kept = Vec::new(alloc);
    for (place, file) in files.iter().enumerate() {
        keep_file(alloc, place as u32, file, predicates, &mut kept)?;
    }
    Ok(kept)
}
