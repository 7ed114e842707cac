ghost use Rattle.std.specs.Prelude.{◌≡◌, ◌≢◌, Some, None, Ok, Err, option_map, map, is_some, IfOk, OnOk, IfErr};
ghost use Rattle.std.specs.Option.{option_to_list};
ghost use Rattle.std.specs.List.{filter_map, list_all};
ghost use Rattle.prolog_ops.specs.Table.{ops_of};
ghost use Rattle.prolog_terms.specs.Terms.{tree_of};
ghost use Rattle.clause_text.specs.Items.{Item, priority_of, priority_when, kind_named, kind_of, name_of, is_name, names_of, listed_names, each_on};
ghost use Rattle.clause_text.specs.Items.{name_on, with_names, item_on, item_of, items_on, exported_items, goal_items, directive_items, items_of};
ghost use Rattle.clause_text.specs.Items.{has_some};
ghost use Rattle.clause_text.specs.Clauses.{clause_tree};

use crate::cause::Cause;
use crate::fault::{TextFault, fault_at, fault_of_ops};
use crate::terms::{directive_of, listed_items, operator_item, written_items};
use crate::text_clauses::Clause;
use prolog_names::Names;
use prolog_ops::{OpKind, OpTable};
use prolog_terms::{ConstKind, Term, TermKind, atom_name, inside, sides, start_of};
use std::alloc::{AllocError, Global};

/// The greatest priority of an operator.
const MOST_PRIORITY: u32 = 1200;

/// The value of an integer without minus, if it can be a priority.
fn priority_when(kind: ConstKind, minus: bool, value: Option<u32>) -> Option<u32>
    ensures { result ≡ priority_when kind minus value }
{
    if kind != ConstKind::Integer {
        return None;
    }
    if minus {
        return None;
    }
    value.filter(|priority| *priority <= MOST_PRIORITY)
}

fn priority_of(term: &Term) -> Option<u32>
    ensures { result ≡ priority_of (tree_of term.now) }
{
    match inside(term).kind() {
        TermKind::Const { kind, minus, value } => priority_when(kind, minus, value),
        _ => None,
    }
}

fn kind_named(name: &str) -> Option<OpKind>
    ensures { result ≡ kind_named name.now }
{
    match name {
        "xfx" => Some(OpKind::Xfx),
        "xfy" => Some(OpKind::Xfy),
        "yfx" => Some(OpKind::Yfx),
        "fy" => Some(OpKind::Fy),
        "fx" => Some(OpKind::Fx),
        "xf" => Some(OpKind::Xf),
        "yf" => Some(OpKind::Yf),
        _ => None,
    }
}

fn kind_of(term: &Term) -> Option<OpKind>
    ensures { result ≡ kind_of (tree_of term.now) }
{
    let name = atom_name(term)?;
    kind_named(name)
}

/// The name of an atom, and its byte offset.
fn name_of<'a>(term: &Term<'a>) -> Option<(&'a str, u32)>
    ensures { option_map (λ name. record { text = name.0.now; at = name.1 }) result ≡ name_of (tree_of term.now) }
{
    let name = atom_name(term)?;
    Some((name, start_of(term)))
}

fn is_name(term: &Term) -> bool
    ensures { result ≡ is_name (tree_of term.now) }
{
    atom_name(term).is_some()
}

fn are_names(terms: &[Term]) -> bool
    ensures { result ≡ list_all (λ term. is_name (tree_of term)) terms.now }
{
    terms.iter().all(|term| is_name(term))
}

/// The items of a list without a tail, if all are atoms.
fn listed_names<'a>(alloc: Global, names: &Term<'a>) -> Result<Option<Vec<Term<'a>>>, AllocError>
    ensures { IfOk result (λ list. option_map (λ terms. map tree_of terms.items) list ≡ listed_names (tree_of names.now)) }
{
    let Some(items) = written_items(names) else {
        return Ok(None);
    };
    let list = items.to_vec(alloc)?;
    if !are_names(&list) {
        return Ok(None);
    }
    Ok(Some(list))
}

/// Sets the operator of the name that the term is, if it is an atom.
fn set_name(
    alloc: Global,
    table: &mut OpTable,
    name: &Term,
    kind: OpKind,
    priority: u32,
) -> Result<(), TextFault>
    ensures done { OnOk result (each_on (name_on kind priority) (option_to_list (name_of (tree_of name.now))) (ops_of table.old) ≡ Ok (ops_of table.new)) }
    ensures refused { IfErr result (λ fault. fault ≢ TextFault.NoMemory
        → each_on (name_on kind priority) (option_to_list (name_of (tree_of name.now))) (ops_of table.old) ≡ Err fault) }
{
    let Some((text, at)) = name_of(name) else {
        return Ok(());
    };
    match table.set(alloc, text, kind, priority) {
        Ok(()) => Ok(()),
        Err(fault) => Err(fault_of_ops(fault, at)),
    }
}

/// Sets the operator of each of the terms that is an atom, in order.
fn set_each(
    alloc: Global,
    table: &mut OpTable,
    names: &[Term],
    kind: OpKind,
    priority: u32,
) -> Result<(), TextFault>
    ensures done { OnOk result (each_on (name_on kind priority) (filter_map name_of (map tree_of names.now)) (ops_of table.old) ≡ Ok (ops_of table.new)) }
    ensures refused { IfErr result (λ fault. fault ≢ TextFault.NoMemory
        → each_on (name_on kind priority) (filter_map name_of (map tree_of names.now)) (ops_of table.old) ≡ Err fault) }
{
    for name in names {
        set_name(alloc, table, name, kind, priority)?;
    }
    Ok(())
}

/// Sets the operator of the names: an atom, or a list of atoms.
fn set_names(
    alloc: Global,
    table: &mut OpTable,
    names: &Term,
    kind: OpKind,
    priority: u32,
) -> Result<(), TextFault>
    ensures done { OnOk result (with_names kind priority (tree_of names.now) (names_of (tree_of names.now)) (ops_of table.old) ≡ Ok (ops_of table.new)) }
    ensures refused { IfErr result (λ fault. fault ≢ TextFault.NoMemory
        → with_names kind priority (tree_of names.now) (names_of (tree_of names.now)) (ops_of table.old) ≡ Err fault) }
{
    if is_name(names) {
        return set_name(alloc, table, names, kind, priority);
    }
    match listed_names(alloc, names)? {
        Some(list) => set_each(alloc, table, &list, kind, priority),
        None => Err(fault_at(Cause::BadName, names)),
    }
}

/// Sets the operators of an operator item with these arguments.
fn apply_item(
    alloc: Global,
    table: &mut OpTable,
    priority: &Term,
    kind: &Term,
    names: &Term,
) -> Result<(), TextFault>
    ensures done { OnOk result (item_on (record { priority = tree_of priority.now; kind = tree_of kind.now; names = tree_of names.now })
        (ops_of table.old) ≡ Ok (ops_of table.new)) }
    ensures refused { IfErr result (λ fault. fault ≢ TextFault.NoMemory
        → item_on (record { priority = tree_of priority.now; kind = tree_of kind.now; names = tree_of names.now }) (ops_of table.old) ≡ Err fault) }
{
    let Some(level) = priority_of(priority) else {
        return Err(fault_at(Cause::BadPriority, priority));
    };
    let Some(op_kind) = kind_of(kind) else {
        return Err(fault_at(Cause::BadKind, kind));
    };
    set_names(alloc, table, names, op_kind, level)
}

/// Sets the operators of the term if it is an operator item.
fn apply_operator(alloc: Global, table: &mut OpTable, term: &Term) -> Result<(), TextFault>
    ensures done { OnOk result (items_on (option_to_list (item_of (tree_of term.now))) (ops_of table.old) ≡ Ok (ops_of table.new)) }
    ensures refused { IfErr result (λ fault. fault ≢ TextFault.NoMemory → items_on (option_to_list (item_of (tree_of term.now))) (ops_of table.old)
        ≡ Err fault) }
{
    match operator_item(term) {
        Some((priority, kind, names)) => apply_item(alloc, table, &priority, &kind, &names),
        None => Ok(()),
    }
}

/// Sets the operators of the operator items in a list of exports, in order.
fn apply_exports(alloc: Global, table: &mut OpTable, exports: &Term) -> Result<(), TextFault>
    ensures done { OnOk result (items_on (exported_items (tree_of exports.now)) (ops_of table.old) ≡ Ok (ops_of table.new)) }
    ensures refused { IfErr result (λ fault. fault ≢ TextFault.NoMemory → items_on (exported_items (tree_of exports.now)) (ops_of table.old) ≡ Err fault) }
{
    let list = listed_items(alloc, exports)?;
    for export in &list {
        apply_operator(alloc, table, export)?;
    }
    Ok(())
}

/// Sets the operators of the operator items in a goal of a directive.
fn apply_goal(alloc: Global, table: &mut OpTable, goal: &Term) -> Result<(), TextFault>
    ensures done { OnOk result (items_on (goal_items (tree_of goal.now)) (ops_of table.old) ≡ Ok (ops_of table.new)) }
    ensures refused { IfErr result (λ fault. fault ≢ TextFault.NoMemory → items_on (goal_items (tree_of goal.now)) (ops_of table.old) ≡ Err fault) }
{
    match sides(goal, "module") {
        Some((_, exports)) => apply_exports(alloc, table, &exports),
        None => apply_operator(alloc, table, goal),
    }
}

/// Sets the operators of the operator items in a directive, goal by goal.
fn apply_directive(alloc: Global, table: &mut OpTable, directive: &Term) -> Result<(), TextFault>
    ensures done { OnOk result (items_on (directive_items (tree_of directive.now)) (ops_of table.old) ≡ Ok (ops_of table.new)) }
    ensures refused { IfErr result (λ fault. fault ≢ TextFault.NoMemory → items_on (directive_items (tree_of directive.now)) (ops_of table.old) ≡ Err fault) }
{
    let Some((first, others)) = sides(directive, ",") else {
        return apply_goal(alloc, table, directive);
    };
    apply_directive(alloc, table, &first)?;
    apply_directive(alloc, table, &others)
}

/// Sets the operators of the operator items of a clause, in order. After an error those before it
/// are set.
pub fn apply_items(
    alloc: Global,
    table: &mut OpTable,
    names: &Names,
    clause: &Clause,
) -> Result<(), TextFault>
    ensures done { OnOk result (items_on (items_of (clause_tree names.now clause.now)) (ops_of table.old) ≡ Ok (ops_of table.new)) }
    ensures refused { IfErr result (λ fault. fault ≢ TextFault.NoMemory
        → items_on (items_of (clause_tree names.now clause.now)) (ops_of table.old) ≡ Err fault) }
{
    match clause.directive(names) {
        Some(directive) => apply_directive(alloc, table, &directive),
        None => Ok(()),
    }
}

/// Whether the term is an operator item.
fn is_item(term: &Term) -> bool
    ensures { result ≡ is_some (item_of (tree_of term.now)) }
{
    operator_item(term).is_some()
}

/// Whether a list of exports has operator items.
fn exports_items(alloc: Global, exports: &Term) -> Result<bool, AllocError>
    ensures { IfOk result (λ some. some ≡ has_some (exported_items (tree_of exports.now))) }
{
    let list = listed_items(alloc, exports)?;
    Ok(list.iter().any(|export| is_item(export)))
}

/// Whether a goal of a directive has operator items.
fn goal_has_items(alloc: Global, goal: &Term) -> Result<bool, AllocError>
    ensures { IfOk result (λ some. some ≡ has_some (goal_items (tree_of goal.now))) }
{
    match sides(goal, "module") {
        Some((_, exports)) => exports_items(alloc, &exports),
        None => Ok(is_item(goal)),
    }
}

/// Whether a directive has operator items.
fn directive_has_items(alloc: Global, directive: &Term) -> Result<bool, AllocError>
    ensures { IfOk result (λ some. some ≡ has_some (directive_items (tree_of directive.now))) }
{
    let Some((first, others)) = sides(directive, ",") else {
        return goal_has_items(alloc, directive);
    };
    if directive_has_items(alloc, &first)? {
        return Ok(true);
    }
    directive_has_items(alloc, &others)
}

/// Whether a clause has operator items, so that it may change the table. Memory is needed only for
/// the list that a module exports.
pub fn has_items(alloc: Global, clause: &Term) -> Result<bool, AllocError>
    ensures { IfOk result (λ some. some ≡ has_some (items_of (tree_of clause.now))) }
{
    match directive_of(clause) {
        Some(directive) => directive_has_items(alloc, &directive),
        None => Ok(false),
    }
}
