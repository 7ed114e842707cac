//! The directive that declares the module of a file.

ghost use Rattle.std.specs.Prelude.{◌≡◌, ◌∷◌, [], IfOk, IfErr, Ok, option_map};
ghost use Rattle.prolog_terms.specs.Terms.{tree_of};
ghost use Rattle.module_table.specs.Said.{IsWhy, see_module, declares};
ghost use Rattle.module_table.specs.Directives.{is_operator, exports, module_name, module_said};

use crate::indicator::{Indicator, push_indicator};
use crate::said::{FactFault, Module, refusal};
use crate::terms::list_items;
use clause_text::{Cause, operator_item};
use prolog_terms::{Term, atom_name};
use prolog_tokens::Text;
use std::alloc::Global;

/// Whether the item of an export list is an operator.
fn is_operator(item: &Term) -> bool
    ensures { result ≡ is_operator (tree_of item.now) }
{
    operator_item(item).is_some()
}

/// The exports of a list, without the operators in it. Fails if it is no list, and at the first
/// item that is neither an operator nor an indicator.
fn exports(alloc: Global, list: &Term) -> Result<Vec<Indicator>, FactFault>
    ensures ok { IfOk result (λ found. exports (tree_of list.now) ≡ Ok found.items) }
    ensures refused { IfErr result (λ fault. IsWhy (exports (tree_of list.now)) fault) }
{
    let Some(items) = list_items(alloc, list)? else {
        return Err(refusal(Cause::BadIndicator, list));
    };
    let mut found = Vec::new(alloc);
    for item in &items {
        if is_operator(item) {
            continue;
        }
        push_indicator(alloc, item, &mut found)?;
    }
    Ok(found)
}

/// The name of a module: any atom but `user`.
fn module_name<'a>(term: &Term<'a>) -> Option<&'a str>
    ensures { option_map (λ name. name.now) result ≡ module_name (tree_of term.now) }
{
    let name = atom_name(term)?;
    if name == "user" {
        return None;
    }
    Some(name)
}

/// The module that `module/2` declares, whose term starts at `from`.
pub fn module_of(alloc: Global, name: &Term, list: &Term, from: u32) -> Result<Module, FactFault>
    ensures ok { IfOk result (λ own. module_said (tree_of name.now) (tree_of list.now) from ≡ Ok (declares (see_module own) ∷ [])) }
    ensures refused { IfErr result (λ fault. IsWhy (module_said (tree_of name.now) (tree_of list.now) from) fault) }
{
    let Some(own) = module_name(name) else {
        return Err(refusal(Cause::BadIndicator, name));
    };
    let exports = exports(alloc, list)?;
    Ok(Module {
        name: Text::new(alloc, own)?,
        from,
        exports,
    })
}
