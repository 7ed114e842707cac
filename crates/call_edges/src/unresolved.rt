//! Calls that mean no predicate.

ghost use Rattle.std.specs.Prelude.{◌≡◌, ◌<◌, Contains, length, map, option_map, IfOk, OnOk};
ghost use Rattle.call_edges.specs.Goals.{Adds};
ghost use Rattle.call_edges.specs.Seen.{see_met, see_mets};
ghost use Rattle.call_edges.specs.Called.{see_called, unresolved};
ghost use Rattle.call_edges.specs.Unresolved.{AreUnresolved, IsUnresolvedOf};

use crate::goals_met::met_in;
use crate::role::Met;
use import_rules::{PredName, Program};
use prolog_tokens::Text;
use std::alloc::{AllocError, Global};

/// A name that is called in a module, ordered by module, name and arity.
#[derive(Clone, Copy, Debug, PartialEq, Eq, PartialOrd, Ord)]
struct Called<'a> {
    module: &'a str,
    name: &'a str,
    arity: u32,
}

/// The name of a call that means no predicate.
fn unresolved_name<'a>(program: &Program, met: Met<'a>) -> Option<Called<'a>>
    ensures { option_map see_called result ≡ unresolved program.now (see_met met.entry) }
{
    let Met::Call {
        module,
        name,
        arity,
        ..
    } = met
    else {
        return None;
    };
    match program.find(module, name, arity) {
        Some(_) => None,
        None => Some(Called {
            module,
            name,
            arity,
        }),
    }
}

/// Adds the names of calls that mean no predicate.
fn push_unresolved<'a>(
    program: &Program,
    met: &[Met<'a>],
    names: &mut Vec<Called<'a>>,
) -> Result<(), AllocError>
    ensures { OnOk result (Adds (IsUnresolvedOf program.now (Contains (see_mets met.now)))
        (map see_called names.old.items) (map see_called names.new.items)) }
{
    for one in met {
        let Some(called) = unresolved_name(program, *one) else {
            continue;
        };
        names.push(called)?;
    }
    Ok(())
}

/// The names, as texts of their own.
fn own_names(alloc: Global, called: &[Called]) -> Result<Vec<PredName>, AllocError>
    ensures { IfOk result (λ names. names.items ≡ map see_called called.now) }
{
    let mut names = Vec::with_capacity(alloc, called.len())?;
    for one in called {
        names.push(PredName {
            module: Text::new(alloc, one.module)?,
            name: Text::new(alloc, one.name)?,
            arity: one.arity,
        })?;
    }
    Ok(names)
}

/// The names that a predicate calls and that mean no predicate, each with the module of the goal.
/// They are in strictly ascending order of module, name and arity.
pub fn unresolved_of(
    alloc: Global,
    program: &Program,
    node: u32,
) -> Result<Vec<PredName>, AllocError>
    requires { node < length program.now.predicates }
    ensures { IfOk result (λ names. AreUnresolved program.now node names.items) }
{
    let met = met_in(alloc, program, node)?;
    let mut called = Vec::new(alloc);
    push_unresolved(program, &met, &mut called)?;
    called.sort_unstable();
    called.dedup();
    own_names(alloc, &called)
}
