ghost use Rattle.std.specs.Prelude.{◌≡◌, ◌≤◌, ◌⊎◌, Some, None, true, false, IsOk, IfOk, IfErr, OnOk, OnErr};
ghost use Rattle.prolog_ops.specs.declared.table.OpFault.TheVariants.{NoMemory};
ghost use Rattle.prolog_ops.specs.Table.{Prefix, Infix, Postfix, IsOps, ops_of, opening, place_of, set_fault, with_set, is_fixed, has_rival};

use crate::op::{Op, OpKind};
use crate::opening_table::{opening_infixes, opening_prefixes};
use crate::place_ops::PlaceOps;
use std::alloc::{AllocError, Global};
use std::marker::Model;
use thiserror::Error;

/// Why `op/3` can't set an operator (ISO/IEC 13211-1, 8.14.3).
#[derive(Debug, PartialEq, Eq, Drop, Error)]
pub enum OpFault {
    /// The priority is over 1200.
    #[error("operator priority is not 0 to 1200")]
    BadPriority,
    /// The name is `,`, `|`, `[]` or `{}`.
    #[error("operator cannot be changed")]
    FixedOp,
    /// The name is already an infix operator and would be postfix too, or the reverse.
    #[error("operator would be infix and postfix")]
    InfixAndPostfix,
    #[error("out of memory")]
    NoMemory,
}

impl From<AllocError> for OpFault {
    ghost from_gives = { λ _ fault. fault ≡ NoMemory };

    fn from(_error: AllocError) -> OpFault {
        OpFault::NoMemory
    }
}

/// The greatest priority of an operator.
const MOST_PRIORITY: u32 = 1200;

/// Which names are operators (ISO/IEC 13211-1, 6.3.4): a map from a name and a fixity to an
/// operator. No name is both infix and postfix.
#[derive(Drop)]
pub struct OpTable {
    prefixes: PlaceOps,
    infixes: PlaceOps,
    postfixes: PlaceOps,
    /// Whether an operator was set since the table was the opening one.
    was_changed: bool,
}

impl Model for OpTable {
    ghost use Rattle.prolog_ops.specs.Table.{Lists, IsKept};

    ghost Value = { Lists };

    ghost view = { λ table. record { prefixes = table.prefixes; infixes = table.infixes; postfixes = table.postfixes } };

    ghost invariant = { λ table. IsKept (record { prefixes = table.prefixes; infixes = table.infixes; postfixes = table.postfixes }) table.was_changed };
}

/// Whether operators of the name can't be changed.
fn is_fixed(name: &str) -> bool
    ensures { result ≡ is_fixed name.now }
{
    name == "," || name == "|" || name == "[]" || name == "{}"
}

impl OpTable {
    /// The table that each text begins with.
    pub fn opening(alloc: Global) -> Result<OpTable, AllocError>
        ensures { IfOk result (λ table. ops_of table ≡ opening) }
    {
        let prefixes = opening_prefixes(alloc)?;
        let infixes = opening_infixes(alloc)?;
        Ok(OpTable {
            prefixes,
            infixes,
            postfixes: PlaceOps::new(alloc),
            was_changed: false,
        })
    }

    /// Whether the table is known to be the one that each text begins with, because no operator was
    /// set in it. If the result is false, the table may still be that one.
    pub fn is_opening(&self) -> bool
        ensures opening { result ≡ true → ops_of self.now ≡ opening }
        ensures table { IsOps (ops_of self.now) }
    {
        !self.was_changed
    }

    /// The prefix operator of the name. A look-up takes no memory.
    pub fn prefix(&self, name: &str) -> Option<Op>
        ensures is { result ≡ ops_of self.now Prefix name.now }
        ensures table { IsOps (ops_of self.now) }
    {
        self.prefixes.get(name)
    }

    /// The infix operator of the name.
    pub fn infix(&self, name: &str) -> Option<Op>
        ensures is { result ≡ ops_of self.now Infix name.now }
        ensures table { IsOps (ops_of self.now) }
    {
        self.infixes.get(name)
    }

    /// The postfix operator of the name.
    pub fn postfix(&self, name: &str) -> Option<Op>
        ensures is { result ≡ ops_of self.now Postfix name.now }
        ensures table { IsOps (ops_of self.now) }
    {
        self.postfixes.get(name)
    }

    /// Makes the name an operator of this kind and priority, and replaces the operator of that
    /// fixity. If the priority is 0 it is removed instead, which takes no memory.
    ///
    /// An operator that can't be set is reported even if memory runs out. After an error the table
    /// is unchanged.
    pub fn set(
        &mut self,
        alloc: Global,
        name: &str,
        kind: OpKind,
        priority: u32,
    ) -> Result<(), OpFault>
        ensures lawful { OnOk result (set_fault (ops_of self.old) name.now kind priority ≡ None) }
        ensures done { OnOk result (ops_of self.new ≡ with_set (ops_of self.old) name.now kind priority) }
        ensures refused { IfErr result (λ fault. (fault ≡ OpFault.NoMemory) ⊎ (set_fault (ops_of self.old) name.now kind priority ≡ Some fault)) }
        ensures told { (fault : OpFault) → set_fault (ops_of self.old) name.now kind priority ≡ Some fault → result ≡ Err fault }
        ensures kept { OnErr result (self.new ≡ self.old) }
        ensures removes { priority ≡ 0 → set_fault (ops_of self.old) name.now kind priority ≡ None → IsOk result }
    {
        if let Some(fault) = self.set_fault(name, kind, priority) {
            return Err(fault);
        }
        let op = Op { priority, kind };
        match kind {
            OpKind::Fy | OpKind::Fx => self.set_prefix(alloc, name, op),
            OpKind::Xf | OpKind::Yf => self.set_postfix(alloc, name, op),
            OpKind::Xfx | OpKind::Xfy | OpKind::Yfx => self.set_infix(alloc, name, op),
        }
    }

    /// Why the operator can't be set: the first reason of several.
    fn set_fault(&self, name: &str, kind: OpKind, priority: u32) -> Option<OpFault>
        ensures { result ≡ set_fault (ops_of self.now) name.now kind priority }
    {
        if priority > MOST_PRIORITY {
            return Some(OpFault::BadPriority);
        }
        if is_fixed(name) {
            return Some(OpFault::FixedOp);
        }
        if priority > 0 && self.has_rival(name, kind) {
            return Some(OpFault::InfixAndPostfix);
        }
        None
    }

    /// Whether the name is an operator of the other fixity of infix and postfix.
    fn has_rival(&self, name: &str, kind: OpKind) -> bool
        ensures { result ≡ has_rival (ops_of self.now) (place_of kind) name.now }
    {
        match kind {
            OpKind::Fy | OpKind::Fx => false,
            OpKind::Xf | OpKind::Yf => self.infixes.get(name).is_some(),
            OpKind::Xfx | OpKind::Xfy | OpKind::Yfx => self.postfixes.get(name).is_some(),
        }
    }

    fn set_prefix(&mut self, alloc: Global, name: &str, op: Op) -> Result<(), OpFault>
        requires place { place_of op.kind ≡ Prefix }
        requires lawful { set_fault (ops_of self.old) name.now op.kind op.priority ≡ None }
        ensures done { OnOk result (ops_of self.new ≡ with_set (ops_of self.old) name.now op.kind op.priority) }
        ensures refused { IfErr result (λ fault. fault ≡ OpFault.NoMemory) }
        ensures kept { OnErr result (self.new ≡ self.old) }
        ensures removes { op.priority ≡ 0 → IsOk result }
    {
        let Ok(()) = self.prefixes.set(alloc, name, op) else {
            return Err(OpFault::NoMemory);
        };
        self.was_changed = true;
        Ok(())
    }

    fn set_infix(&mut self, alloc: Global, name: &str, op: Op) -> Result<(), OpFault>
        requires place { place_of op.kind ≡ Infix }
        requires lawful { set_fault (ops_of self.old) name.now op.kind op.priority ≡ None }
        ensures done { OnOk result (ops_of self.new ≡ with_set (ops_of self.old) name.now op.kind op.priority) }
        ensures refused { IfErr result (λ fault. fault ≡ OpFault.NoMemory) }
        ensures kept { OnErr result (self.new ≡ self.old) }
        ensures removes { op.priority ≡ 0 → IsOk result }
    {
        let Ok(()) = self.infixes.set(alloc, name, op) else {
            return Err(OpFault::NoMemory);
        };
        self.was_changed = true;
        Ok(())
    }

    fn set_postfix(&mut self, alloc: Global, name: &str, op: Op) -> Result<(), OpFault>
        requires place { place_of op.kind ≡ Postfix }
        requires lawful { set_fault (ops_of self.old) name.now op.kind op.priority ≡ None }
        ensures done { OnOk result (ops_of self.new ≡ with_set (ops_of self.old) name.now op.kind op.priority) }
        ensures refused { IfErr result (λ fault. fault ≡ OpFault.NoMemory) }
        ensures kept { OnErr result (self.new ≡ self.old) }
        ensures removes { op.priority ≡ 0 → IsOk result }
    {
        let Ok(()) = self.postfixes.set(alloc, name, op) else {
            return Err(OpFault::NoMemory);
        };
        self.was_changed = true;
        Ok(())
    }
}
