//! The call graph of a program in memory, and all calls with the positions of their goals.

ghost use Rattle.std.specs.Prelude.{◌≡◌};
ghost use Rattle.call_edges.specs.KeptCalls.{AreKept};

use crate::graph::call_lists::CallLists;
use crate::join_lists::between;
use crate::piece::PIECE_SIZE;
use crate::piece_calls::PieceCalls;
use crate::placed_calls::PlacedCall;
use import_rules::Program;
use std::marker::Model;

/// The call graph of a program, as `CallLists`, and all calls, each with the position of its goal
/// and with what its name means. `calls_of` selects those of some predicates. Contracts see it as
/// the program.
#[derive(Drop)]
pub struct PlacedCallLists<'a> {
    lists: CallLists<'a>,
    /// The calls, piece by piece.
    pieces: Vec<PieceCalls<'a>>,
}

impl<'a> Model for PlacedCallLists<'a> {
    ghost use Rattle.import_rules.specs.Program.{Seen};
    ghost use Rattle.import_rules.specs.contracts.program.Program.{the_row};
    ghost use Rattle.call_edges.specs.KeptCalls.{AreKept};

    ghost Value = { Seen };

    ghost coded = { the_row.coded };

    ghost view = { λ calls. calls.lists };

    ghost invariant = { λ calls. AreKept calls.lists calls.pieces.items };
}

impl<'a> PlacedCallLists<'a> {
    ghost use Rattle.std.specs.Prelude.{◌<◌, ◌↔◌, Contains, length};
    ghost use Rattle.call_edges.specs.CallPlaces.{CallAt, IsCallOf};
    ghost use Rattle.call_edges.specs.PlacedSeen.{see_calls};
    ghost use Rattle.import_rules.specs.Program.{IsKnown};

    /// These lists, and the calls of all pieces. It takes no memory.
    pub(crate) fn of_pieces(
        lists: CallLists<'a>,
        pieces: Vec<PieceCalls<'a>>,
    ) -> PlacedCallLists<'a>
        requires { AreKept lists pieces.items }
        ensures { result ≡ lists.entry }
    {
        PlacedCallLists { lists, pieces }
    }

    /// What the predicates call, as a graph.
    pub fn lists(&self) -> &CallLists<'a>
        ensures { result.now ≡ self.now }
    {
        &self.lists
    }

    /// The program whose calls they are.
    pub fn program(&self) -> &'a Program
        ensures { result.now ≡ self.now }
    {
        self.lists.program()
    }

    /// The invariant of the program, as `is_known` states it. The function does nothing, and is
    /// called for what it ensures.
    pub(crate) fn is_known(&self)
        ensures { IsKnown self.now }
    {
        self.program().is_known()
    }

    /// The calls in the clauses of a predicate. Some of them may be there twice.
    pub(crate) fn calls_by(&self, node: u32) -> &[PlacedCall<'a>]
        requires { node < length self.now.predicates }
        ensures { (c : CallAt) → Contains (see_calls result.now) c ↔ IsCallOf self.now node c }
    {
        let piece = &self.pieces[(node / PIECE_SIZE) as usize];
        let span = piece.spans[(node % PIECE_SIZE) as usize];
        between(&piece.calls, span.0, span.1)
    }
}
