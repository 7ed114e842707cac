//! The call graph of a program in memory.

ghost use Rattle.std.specs.Prelude.{◌≡◌, ◌<◌, [], length, slice_index_or};
ghost use Rattle.call_edges.specs.CallLists.{ArePieces};
ghost use Rattle.call_edges.specs.Successors.{successor_lists};

use crate::join_lists::between;
use crate::piece::{PIECE_SIZE, Piece};
use graph_law::Opener;
use import_rules::Program;
use std::alloc::AllocError;
use std::marker::Model;

/// The call graph of a program in memory: its nodes are the numbers of the predicates. Expanding a
/// node costs a copy of its list. Contracts see it as the program.
#[derive(Drop)]
pub struct CallLists<'a> {
    program: &'a Program,
    /// The lists, piece by piece.
    pieces: Vec<Piece>,
}

impl<'a> Model for CallLists<'a> {
    ghost use Rattle.import_rules.specs.Program.{Seen};
    ghost use Rattle.import_rules.specs.contracts.program.Program.{the_row};
    ghost use Rattle.call_edges.specs.CallLists.{AreListed};
    ghost use Rattle.call_edges.specs.Successors.{successor_lists};

    ghost Value = { Seen };

    ghost coded = { the_row.coded };

    ghost view = { λ calls. calls.program.now };

    ghost invariant = { λ calls. AreListed (successor_lists calls.program.now) calls.pieces.items };
}

impl<'a> CallLists<'a> {
    /// The lists of all predicates, which were computed piece by piece. It takes no memory.
    pub(crate) fn of_pieces(program: &'a Program, pieces: Vec<Piece>) -> CallLists<'a>
        requires { ArePieces program.now pieces.items }
        ensures { result ≡ program.now }
    {
        CallLists { program, pieces }
    }

    /// The program whose calls they are.
    pub(crate) fn program(&self) -> &'a Program
        ensures { result.now ≡ self.now }
    {
        self.program
    }

    /// What a predicate calls, strictly ascending.
    fn list(&self, node: u32) -> &[u32]
        requires { node < length (successor_lists self.now) }
        ensures { result.now ≡ slice_index_or (successor_lists self.now) node [] }
    {
        let piece = &self.pieces[(node / PIECE_SIZE) as usize];
        let at = (node % PIECE_SIZE) as usize;
        between(&piece.callees, piece.starts[at], piece.starts[at + 1])
    }
}

impl Opener for CallLists<'_> {
    ghost lists = { successor_lists };

    fn count(&self) -> u32 {
        self.program.count()
    }

    fn expand(&self, node: u32, out: &mut Vec<u32>) -> Result<(), AllocError> {
        out.extend_from_slice(self.list(node))
    }
}
