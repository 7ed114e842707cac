//! What predicates with adjacent numbers call.

ghost use Rattle.std.specs.Prelude.{◌≡◌, ◌∷◌, ◌++◌, ◌+◌, ◌*◌, ◌<◌, ◌↔◌, ℕ, [], length, IfOk, OnOk};
ghost use Rattle.call_edges.specs.declared.piece.TheConstants.{PIECE_SIZE};
ghost use Rattle.call_edges.specs.OpenedPieces.{IsOpenedPiece};

use crate::buffers::{Buffers, open};
use crate::found::{Found, Opening};
use crate::piece_calls::PieceCalls;
use import_rules::Program;
use std::alloc::{AllocError, Global};

/// How many predicates are expanded in sequence. Only the last piece has fewer.
pub const PIECE_SIZE: u32 = 512;

/// What predicates with adjacent numbers call, and the spots of goals of theirs that aren't
/// callable.
#[derive(Drop)]
pub struct Piece {
    /// For each predicate where its list begins in `callees`, and at last where all lists end.
    pub starts: Vec<usize>,
    /// The lists, one after the other.
    pub callees: Vec<u32>,
    /// Pairs of the index of a file and a byte offset.
    pub faults: Vec<(u32, u32)>,
}

impl Piece {
    /// No predicate, with capacity for a whole piece.
    fn none(alloc: Global) -> Result<Piece, AllocError>
        ensures starts { IfOk result (λ piece. piece.starts.items ≡ 0 ∷ []) }
        ensures callees { IfOk result (λ piece. piece.callees.items ≡ []) }
        ensures faults { IfOk result (λ piece. piece.faults.items ≡ []) }
    {
        let mut starts = Vec::with_capacity(alloc, PIECE_SIZE as usize + 1)?;
        starts.push(0usize)?;
        Ok(Piece {
            starts,
            callees: Vec::new(alloc),
            faults: Vec::new(alloc),
        })
    }

    /// Adds the list of one more predicate.
    fn push(&mut self, list: &[u32]) -> Result<(), AllocError>
        ensures callees { OnOk result (self.new.callees.items ≡ self.old.callees.items ++ list.now) }
        ensures starts { OnOk result (self.new.starts.items ≡ self.old.starts.items ++ (length (self.old.callees.items ++ list.now) ∷ [])) }
        ensures faults { OnOk result (self.new.faults.items ≡ self.old.faults.items) }
    {
        self.callees.extend_from_slice(list)?;
        self.starts.push(self.callees.len())?;
        Ok(())
    }
}

/// How many pieces `count` predicates make.
pub fn piece_count(count: u32) -> u32
    ensures { (number : ℕ) → number < result ↔ number * PIECE_SIZE < count }
{
    if count % PIECE_SIZE == 0 {
        return count / PIECE_SIZE;
    }
    count / PIECE_SIZE + 1
}

/// What is found in the predicates of a piece.
#[derive(Drop)]
pub struct OpenedPiece<'a> {
    pub piece: Piece,
    /// Their calls, if they are recorded.
    pub kept: PieceCalls<'a>,
}

/// What is found in the predicates of the piece with that number. Their calls are recorded if
/// `keep` is set.
pub fn open_piece<'a>(
    alloc: Global,
    program: &'a Program,
    keep: bool,
    number: u32,
) -> Result<OpenedPiece<'a>, AllocError>
    requires { number * PIECE_SIZE < length program.now.predicates }
    ensures { IfOk result (IsOpenedPiece keep program.now number) }
{
    let count = program.count();
    let from = number * PIECE_SIZE;
    let to = from + (count - from).min(PIECE_SIZE);
    let mut piece = Piece::none(alloc)?;
    let mut kept = PieceCalls::none(alloc);
    let mut buffers = Buffers::new(alloc);
    let mut found = Found::new(alloc);
    for node in from..to {
        open(
            alloc,
            program,
            Opening { node, keep },
            &mut buffers,
            &mut found,
            &mut piece.faults,
        )?;
        piece.push(&found.callees)?;
        kept.push(keep, &found.calls)?;
    }
    Ok(OpenedPiece { piece, kept })
}
