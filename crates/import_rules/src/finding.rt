//! Import errors, without line and column.

ghost use Rattle.std.specs.Prelude.{◌≡◌};
ghost use Rattle.import_rules.specs.Flaws.{flaw_cmp};
ghost use Rattle.import_rules.specs.Findings.{see_finding};

use clause_text::Cause;
use std::cmp::Ordering;

/// An error at a byte offset of a file.
#[derive(Clone, Copy)]
pub(crate) struct Finding<'a> {
    pub file: &'a str,
    pub offset: u32,
    pub cause: Cause,
}

/// The order of errors: by file, then by offset, then by the number of the cause.
pub(crate) fn compare(a: &Finding<'_>, b: &Finding<'_>) -> Ordering
    ensures { result ≡ flaw_cmp (see_finding a.now) (see_finding b.now) }
{
    let causes = a.cause.number().cmp(&b.cause.number());
    let in_file = a.offset.cmp(&b.offset).then(causes);
    a.file.cmp(b.file).then(in_file)
}
