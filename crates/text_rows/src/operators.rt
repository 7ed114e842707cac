use prolog_ops::{Op, OpFault, OpKind, OpTable};
use std::alloc::{AllocError, Global};

fn opening_table(alloc: Global) -> Result<OpTable, AllocError> {
    OpTable::opening(alloc)
}

fn set(
    alloc: Global,
    table: &mut OpTable,
    name: &str,
    kind: OpKind,
    priority: u32,
) -> Result<(), OpFault> {
    table.set(alloc, name, kind, priority)
}

/// The opening table with these changes, each a name with its kind and its priority. Proofs don't
/// depend on what it has.
pub fn changed_table(alloc: Global, changes: &[(&str, OpKind, u32)]) -> Result<OpTable, OpFault> {
    let mut table = opening_table(alloc)?;
    for (name, kind, priority) in changes {
        set(alloc, &mut table, name, *kind, *priority)?;
    }
    Ok(table)
}

fn operator_at(table: &OpTable, place: &str, name: &str) -> Option<Op> {
    match place {
        "prefix" => table.prefix(name),
        "infix" => table.infix(name),
        "postfix" => table.postfix(name),
        _ => None,
    }
}

/// The operator of a name with the fixity after the name, in a table without `is`, and with
/// `again`.
fn find_operator(alloc: Global, text: &str) -> Result<Option<Op>, OpFault> {
    let changes = [("again", OpKind::Yf, 300), ("is", OpKind::Xfx, 0)];
    let (name, place) = text.split_once(' ').unwrap_or((text, ""));
    let table = changed_table(alloc, &changes)?;
    Ok(operator_at(&table, place, name))
}

/// The operator of a name with the fixity after the name, in words.
pub fn operator_told(alloc: Global, text: &str) -> Result<String, AllocError> {
    match find_operator(alloc, text) {
        Ok(Some(op)) => format!(in alloc; "{} {:?}", op.priority, op.kind),
        Ok(None) => String::from_str(alloc, "none"),
        Err(fault) => format!(in alloc; "{fault}"),
    }
}

/// The message of an error, by its name.
pub fn op_fault_told(alloc: Global, name: &str) -> Result<String, AllocError> {
    let fault = match name {
        "BadPriority" => OpFault::BadPriority,
        "FixedOp" => OpFault::FixedOp,
        "InfixAndPostfix" => OpFault::InfixAndPostfix,
        _ => OpFault::NoMemory,
    };
    format!(in alloc; "{fault}")
}
