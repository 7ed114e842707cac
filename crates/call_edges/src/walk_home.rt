//! Walking a body of a file's own module, by the numbers of names.

ghost use Rattle.std.specs.Prelude.{◌≡◌, ◌≤◌, ◌+◌, ◌*◌, OnOk};
ghost use Rattle.prolog_terms.specs.Terms.{tree_of};
ghost use Rattle.prolog_terms.specs.Weight.{weight};
ghost use Rattle.module_table.specs.Metas.{added};
ghost use Rattle.call_edges.specs.Goals.{place, AddsMet};
ghost use Rattle.call_edges.specs.Meant.{AreMeant};
ghost use Rattle.call_edges.specs.ProgramRows.{rows_of};
ghost use Rattle.call_edges.specs.Seen.{see_mets};

use crate::by_number::{control_sides, home_call};
use crate::role::{Met, Role};
use crate::walk::{push_met, walk};
use import_rules::Home;
use prolog_terms::Term;
use std::alloc::{AllocError, Global};

/// Adds the goals that occur within a term with this role in a body of the file's own module.
///
/// Control constructs and calls of names that aren't among the known ones are found by the numbers
/// of their names. All else is walked by the texts.
pub fn walk_home<'a>(
    alloc: Global,
    home: &Home<'a>,
    term: &Term<'a>,
    role: Role,
    met: &mut Vec<Met<'a>>,
) -> Result<(), AllocError>
    requires small { added role.arg + 10 * weight (tree_of term.now) ≤ 4294967295 }
    requires names { term.now.names.now ≡ home.now.facts.now.names }
    ensures met { OnOk result (AddsMet (rows_of home.now.program.now) (place home.now.facts.now.module role (tree_of term.now))
        (see_mets met.old.items) (see_mets met.new.items)) }
    ensures meant { OnOk result (AreMeant home.now.program.now met.old.items → AreMeant home.now.program.now met.new.items) }
{
    if let Some((left, right)) = control_sides(term, role) {
        walk_home(alloc, home, &left, role, met)?;
        return walk_home(alloc, home, &right, role, met);
    }
    if let Some(call) = home_call(home, term, role) {
        return push_met(met, Some(call));
    }
    walk(
        alloc,
        home.program,
        term,
        home.facts.module.as_str(),
        role,
        met,
    )
}
