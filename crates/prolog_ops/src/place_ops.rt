ghost use Rattle.std.specs.Prelude.{◌≡◌, ◌==◌, if◌then◌else◌, map, Some, None, IsOk, OnOk, OnErr};
ghost use Rattle.prolog_ops.specs.ByName.{op_at, no_op, with_op, with_each};

use crate::op::{Op, OpKind};
use indexmap::IndexMap;
use std::alloc::{AllocError, Global};
use std::marker::Model;

/// The operators of one fixity, by their names.
#[derive(Drop)]
pub struct PlaceOps {
    ops: IndexMap<String, Op>,
}

impl Model for PlaceOps {
    ghost use Rattle.prolog_ops.specs.ByName.{Entries};

    ghost Value = { Entries };

    ghost use Rattle.prolog_ops.specs.ByName.{entries_of};

    ghost view = { λ place. entries_of place.ops.entries };
}

impl PlaceOps {
    /// No operators.
    pub fn new(alloc: Global) -> PlaceOps
        ensures { op_at result ≡ no_op }
    {
        PlaceOps {
            ops: IndexMap::new(alloc),
        }
    }

    /// The operator of the name, if it is one.
    pub fn get(&self, name: &str) -> Option<Op>
        ensures { result ≡ op_at self.now name.now }
    {
        self.ops.get(name).copied()
    }

    /// Makes the name this operator, and replaces the one that it is.
    fn put(&mut self, alloc: Global, name: &str, op: Op) -> Result<(), AllocError>
        ensures put { OnOk result (op_at self.new ≡ with_op (op_at self.old) name.now (Some op)) }
        ensures kept { OnErr result (self.new ≡ self.old) }
    {
        let key = String::from_str(alloc, name)?;
        self.ops.insert(key, op)?;
        Ok(())
    }

    /// Makes each of the names an operator of this priority and kind.
    pub fn put_each(
        &mut self,
        alloc: Global,
        names: &[&str],
        priority: u32,
        kind: OpKind,
    ) -> Result<(), AllocError>
        ensures { OnOk result (op_at self.new ≡ with_each (op_at self.old) (map (λ name. name.now) names.now) (record { priority = priority; kind = kind })) }
    {
        for name in names {
            self.put(alloc, name, Op { priority, kind })?;
        }
        Ok(())
    }

    fn remove(&mut self, name: &str)
        ensures { op_at self.new ≡ with_op (op_at self.old) name.now None }
    {
        self.ops.swap_remove(name);
    }

    /// Makes the name this operator, or removes it if the priority is 0. Removing takes no memory.
    pub fn set(&mut self, alloc: Global, name: &str, op: Op) -> Result<(), AllocError>
        ensures set { OnOk result (op_at self.new ≡ with_op (op_at self.old) name.now (if op.priority == 0 then None else Some op)) }
        ensures kept { OnErr result (self.new ≡ self.old) }
        ensures removes { op.priority ≡ 0 → IsOk result }
    {
        if op.priority == 0 {
            self.remove(name);
            return Ok(());
        }
        self.put(alloc, name, op)
    }
}
