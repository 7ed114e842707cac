use crate::bound_book::BoundBook;
use crate::view::View;
use atomic_table::Seat;
use std::marker::Model;

/// A worker's handle on the claims, of no bytes: only proofs use what it contains. It has the nodes
/// that the worker claimed, and knows nodes that it saw finished. If a pass is dropped, its nodes
/// are never free again.
#[derive(Drop)]
pub struct Pass {
    pub(crate) seat: Seat<Option<BoundBook>, View>,
}

impl Model for Pass {
    ghost use Rattle.node_claims.specs.Claims.{PassValue};

    ghost Value = { PassValue };

    ghost use Rattle.node_claims.specs.PassFields.{pass_of, IsPass};

    ghost view = { pass_of };

    ghost invariant = { IsPass };
}
