//! The operators that each text begins with: those of ISO/IEC 13211-1, 6.3.4.4, and some more.

ghost use Rattle.std.specs.Prelude.{◌≡◌, IfOk};
ghost use Rattle.prolog_ops.specs.ByName.{op_at};
ghost use Rattle.prolog_ops.specs.Table.{Prefix, Infix, opening};

use crate::op::OpKind;
use crate::place_ops::PlaceOps;
use std::alloc::{AllocError, Global};

/// The prefix operators of the opening table.
pub fn opening_prefixes(alloc: Global) -> Result<PlaceOps, AllocError>
    ensures { IfOk result (λ ops. op_at ops ≡ opening Prefix) }
{
    let mut ops = PlaceOps::new(alloc);
    let declarations = [
        "dynamic",
        "discontiguous",
        "multifile",
        "meta_predicate",
        "mode",
        "public",
        "initialization",
        "table",
    ];
    ops.put_each(alloc, &[":-", "?-"], 1200, OpKind::Fx)?;
    ops.put_each(alloc, &declarations, 1150, OpKind::Fx)?;
    ops.put_each(alloc, &["\\+"], 900, OpKind::Fy)?;
    ops.put_each(alloc, &["-", "+", "\\"], 200, OpKind::Fy)?;
    Ok(ops)
}

/// The infix operators of the opening table. No name is a postfix operator in it.
pub fn opening_infixes(alloc: Global) -> Result<PlaceOps, AllocError>
    ensures { IfOk result (λ ops. op_at ops ≡ opening Infix) }
{
    let mut ops = PlaceOps::new(alloc);
    let comparisons = [
        "=", "\\=", "==", "\\==", "@<", "@=<", "@>", "@>=", "=..", "is", "=:=", "=\\=", "<", "=<",
        ">", ">=",
    ];
    let products = ["*", "/", "//", "rem", "mod", "div", "<<", ">>"];
    ops.put_each(alloc, &[":-", "-->"], 1200, OpKind::Xfx)?;
    ops.put_each(alloc, &[";", "|"], 1100, OpKind::Xfy)?;
    ops.put_each(alloc, &["->"], 1050, OpKind::Xfy)?;
    ops.put_each(alloc, &[","], 1000, OpKind::Xfy)?;
    ops.put_each(alloc, &comparisons, 700, OpKind::Xfx)?;
    ops.put_each(alloc, &["+", "-", "/\\", "\\/"], 500, OpKind::Yfx)?;
    ops.put_each(alloc, &products, 400, OpKind::Yfx)?;
    ops.put_each(alloc, &["**"], 200, OpKind::Xfx)?;
    ops.put_each(alloc, &["^", ":"], 200, OpKind::Xfy)?;
    Ok(ops)
}
