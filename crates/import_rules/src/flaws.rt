//! Errors of modules, exports and loads.

ghost use Rattle.std.specs.Prelude.{◌≡◌, ◌++◌, ◌&&◌, not, map, filter, OnOk};
ghost use Rattle.std.specs.List.{list_any};
ghost use Rattle.std.specs.Str.{bytes_eq};
ghost use Rattle.clause_text.specs.declared.cause.Cause.TheVariants.{NoFile, NotExported, NotModule};
ghost use Rattle.module_table.specs.Facts.{see_facts};
ghost use Rattle.module_table.specs.Said.{see_load};
ghost use Rattle.import_rules.specs.Files.{has_export};
ghost use Rattle.import_rules.specs.Findings.{see_findings};
ghost use Rattle.import_rules.specs.Flaws.{export_flaws, flaw, module_flaws, only_if, unlisted_flaws, use_flaws};
ghost use Rattle.import_rules.specs.KnownFiles.{AreExports, IsKnownIn, IsReady, absent_of, files_of, see_known};

use crate::finding::Finding;
use crate::known_file::KnownFile;
use crate::lookups::Lookups;
use clause_text::Cause;
use module_table::{FileFacts, Load, LoadKind};
use std::alloc::AllocError;

/// Adds an error if the file declares a module that a file of lesser name declares too. Its offset
/// is that of the term `module(M, L)`.
pub(crate) fn push_module_flaws<'a>(
    known: &KnownFile<'a>,
    flaws: &mut Vec<Finding<'a>>,
) -> Result<(), AllocError>
    ensures { OnOk result (see_findings flaws.new.items ≡ see_findings flaws.old.items
        ++ only_if ((see_known known.now).is_module && not known.now.leads) (flaw Cause.TwoModules (see_known known.now) (see_known known.now).module_from)) }
{
    let file = known.facts;
    if !file.is_module {
        return Ok(());
    }
    if known.leads {
        return Ok(());
    }
    flaws.push(Finding {
        file: file.file.as_str(),
        offset: file.module_from,
        cause: Cause::TwoModules,
    })?;
    Ok(())
}

/// Adds an error for each export that no file defines for the module, in the order of the exports.
pub(crate) fn push_export_flaws<'a>(
    lookups: &Lookups<'a, '_>,
    file: &'a FileFacts,
    flaws: &mut Vec<Finding<'a>>,
) -> Result<(), AllocError>
    requires { IsReady lookups.now }
    ensures { OnOk result (see_findings flaws.new.items ≡ see_findings flaws.old.items ++ export_flaws (files_of lookups.now) (see_facts file.now)) }
{
    for export in &file.exports {
        if lookups.is_local(file.module.as_str(), export.name.as_str(), export.arity) {
            continue;
        }
        flaws.push(Finding {
            file: file.file.as_str(),
            offset: export.from,
            cause: Cause::NotDefined,
        })?;
    }
    Ok(())
}

/// Adds an error if the file of the load isn't there.
pub(crate) fn push_absent_flaws<'a>(
    lookups: &Lookups<'a, '_>,
    user: &'a FileFacts,
    load: &Load,
    flaws: &mut Vec<Finding<'a>>,
) -> Result<(), AllocError>
    requires { IsReady lookups.now }
    ensures { OnOk result (see_findings flaws.new.items ≡ see_findings flaws.old.items
        ++ only_if (list_any (bytes_eq load.now.file) (absent_of lookups.now)) (flaw Cause.NoFile (see_facts user.now) load.now.from)) }
{
    if !lookups.is_absent(&load.file) {
        return Ok(());
    }
    flaws.push(Finding {
        file: user.file.as_str(),
        offset: load.from,
        cause: Cause::NoFile,
    })?;
    Ok(())
}

/// Adds the errors of a load of a file that is there. Only `use_module` asks for a module file, so
/// other loads have no errors here.
pub(crate) fn push_use_flaws<'a>(
    user: &'a FileFacts,
    load: &Load,
    file: &KnownFile<'a>,
    flaws: &mut Vec<Finding<'a>>,
) -> Result<(), AllocError>
    requires { AreExports file.now }
    ensures { OnOk result (see_findings flaws.new.items ≡ see_findings flaws.old.items
        ++ use_flaws (see_facts user.now) (see_load load.now) (see_known file.now) load.now.kind) }
{
    if load.kind == LoadKind::Ensure {
        return Ok(());
    }
    if !file.facts.is_module {
        flaws.push(Finding {
            file: user.file.as_str(),
            offset: load.from,
            cause: Cause::NotModule,
        })?;
        return Ok(());
    }
    if load.kind == LoadKind::UseAll {
        return Ok(());
    }
    push_unlisted_flaws(user, load, file, flaws)
}

/// Adds an error for each indicator of the load that the file doesn't export.
fn push_unlisted_flaws<'a>(
    user: &'a FileFacts,
    load: &Load,
    file: &KnownFile<'a>,
    flaws: &mut Vec<Finding<'a>>,
) -> Result<(), AllocError>
    requires { AreExports file.now }
    ensures { OnOk result (see_findings flaws.new.items ≡ see_findings flaws.old.items
        ++ unlisted_flaws (see_facts user.now) (see_load load.now) (see_known file.now)) }
{
    for indicator in &load.items {
        if file.has_export(indicator) {
            continue;
        }
        flaws.push(Finding {
            file: user.file.as_str(),
            offset: indicator.from,
            cause: Cause::NotExported,
        })?;
    }
    Ok(())
}
