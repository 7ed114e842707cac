ghost use Rattle.std.specs.Prelude.{◌≡◌};

use std::marker::Model;
use std::sync::atomic::{AtomicU64, Ordering};
use std::{hint, thread};

// The states of a `MeetGate`.
const UNUSED: u64 = 0;

const HOLDING: u64 = 1;

const PASSED: u64 = 2;

const MET: u64 = 3;

// How many iterations a held expansion makes before it yields.
const SPINS: u32 = 1024;

/// A callback, which is called before each node is expanded. Tests steer the interleaving by it.
pub trait Gate: Sync {
    fn opened(&self, node: u32);
}

/// A gate that does nothing.
#[derive(Clone, Copy, Debug)]
pub struct OpenGate;

impl Gate for OpenGate {
    fn opened(&self, _node: u32) {}
}

/// A gate that holds the first expansion until a second one has begun, or for a number of
/// iterations. Contracts see it as this number.
#[derive(Drop)]
pub struct MeetGate {
    turns: u32,
    state: AtomicU64,
}

impl Model for MeetGate {
    ghost use Rattle.std.specs.Prelude.{ℕ};

    ghost Value = { ℕ };

    ghost view = { λ gate. gate.turns };
}

impl MeetGate {
    /// A gate that nothing has entered, which holds for `turns` iterations. It takes no memory.
    pub fn new(turns: u32) -> MeetGate
        ensures { result ≡ turns }
    {
        MeetGate {
            turns,
            state: AtomicU64::new(UNUSED),
        }
    }

    /// Whether a second expansion began while the first was held. No contract states what other
    /// threads do.
    pub fn met(&self) -> bool {
        self.state.load(Ordering::SeqCst) == MET
    }

    // Moves from one state to another, if the gate is in the first. Returns whether it was.
    fn moves(&self, from: u64, to: u64) -> bool {
        self.state
            .compare_exchange(from, to, Ordering::SeqCst, Ordering::SeqCst)
            .is_ok()
    }
}

impl Gate for MeetGate {
    fn opened(&self, _node: u32) {
        if !self.moves(UNUSED, HOLDING) {
            self.moves(HOLDING, MET);
            return;
        }
        for turn in 0..self.turns {
            if self.met() {
                return;
            }
            if turn % SPINS == 0 {
                thread::yield_now();
            }
            hint::spin_loop();
        }
        self.moves(HOLDING, PASSED);
    }
}
