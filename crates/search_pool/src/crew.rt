use std::sync::Wait;
use std::sync::atomic::{AtomicU64, Ordering};
use std::time::Duration;

// The states of a crew. At first the others hold back. Once all search, it is also known what it
// costs to expand a node: little (or it is unknown), or much.
const HOLDING_BACK: u64 = 0;

const CHEAP: u64 = 1;

const DEAR: u64 = 2;

// How many microseconds the shortest and the longest nap between two samples take, and what the
// system adds to each.
const SHORTEST_NAP: u64 = 50;

const LONGEST_NAP: u64 = 1_000;

const NAP_ADDS: u64 = 50;

// In each round, samples that find a new expansion and samples that find none are counted. If the
// first number is reached before the second, more than three quarters of the time go into
// expansions.
const MANY_EXPANDING: u32 = 12;

const MANY_BETWEEN: u32 = 5;

// For how many microseconds samples have to find the same expansion for it to be a long one. The
// system may suspend a thread during a short one, but seldom for longer.
const LONG: u64 = 5_000;

// From how many microseconds a node on it is dear to expand. Then a node that a worker expands
// while another one searches a giant group saves more than it costs. Moving it on top of that
// group's search takes some two microseconds.
const DEAR_MICROS: u64 = 5;

/// The workers of one run. The first that comes begins, and the others hold back until more of them
/// would gain. This is when expanding nodes takes most of the first one's time, when one expansion
/// lasts long, or when it has ended. One of them samples it now and then, and the rest sleep.
#[derive(Drop)]
pub(crate) struct Crew {
    came: AtomicU64,
    /// How many expansions the first one has begun and ended: an odd number during one.
    steps: AtomicU64,
    state: AtomicU64,
}

impl Crew {
    /// A crew of which no worker has come yet.
    pub(crate) fn new() -> Crew {
        Crew::with_state(HOLDING_BACK)
    }

    /// A crew of which nobody holds back. It isn't known what it costs to expand a node.
    pub(crate) fn at_work() -> Crew {
        Crew::with_state(CHEAP)
    }

    fn with_state(state: u64) -> Crew {
        Crew {
            came: AtomicU64::new(0),
            steps: AtomicU64::new(0),
            state: AtomicU64::new(state),
        }
    }

    /// Lets a worker come. The first begins at once, and the others wait until they should search
    /// too. Returns whether it is the first of a crew whose others hold back.
    pub(crate) fn come(&self, rt: &impl Wait) -> bool {
        if !self.holds_back() {
            return false;
        }
        match self.came.fetch_add(1, Ordering::SeqCst) {
            0 => return true,
            1 => self.watch(rt),
            _ => self.sleep(rt),
        }
        false
    }

    /// Reports that a worker has ended, so nobody holds back any longer.
    pub(crate) fn leave(&self) {
        self.start_all(CHEAP);
    }

    /// Whether expanding nodes is dear, as far as the first worker has shown it.
    pub(crate) fn finds_expansions_dear(&self) -> bool {
        self.state.load(Ordering::Relaxed) == DEAR
    }

    /// Reports that an expansion begins or ends. As long as the others hold back, only the first
    /// worker calls this.
    pub(crate) fn step(&self) {
        if self.state.load(Ordering::Relaxed) == HOLDING_BACK {
            let steps = self.steps.load(Ordering::Relaxed);
            self.steps.store(steps.wrapping_add(1), Ordering::Relaxed);
        }
    }

    fn holds_back(&self) -> bool {
        self.state.load(Ordering::SeqCst) == HOLDING_BACK
    }

    fn sleep(&self, rt: &impl Wait) {
        for _ in rt.forever() {
            if !self.holds_back() {
                return;
            }
            self.state.park(rt, HOLDING_BACK as u32);
        }
    }

    // Samples the first worker until all search, in rounds. After a round without a gain the naps
    // are longer, so that a worker whose expansions stay cheap is hardly disturbed.
    fn watch(&self, rt: &impl Wait) {
        let mut nap = SHORTEST_NAP;
        for _ in rt.forever() {
            if self.watch_round(rt, nap) {
                return;
            }
            nap = longer(nap);
        }
    }

    // One round of samples. Returns whether all search.
    fn watch_round(&self, rt: &impl Wait, shortest: u64) -> bool {
        let mut round = Round::new(self.steps.load(Ordering::Relaxed), shortest);
        for _ in rt.forever() {
            let nap = Duration::from_micros(round.nap);
            self.state.park_timeout(rt, HOLDING_BACK as u32, nap);
            if !self.holds_back() {
                return true;
            }
            round.look(self.steps.load(Ordering::Relaxed));
            if round.shows_a_gain() {
                self.start_all(round.cost());
                return true;
            }
            if round.between >= MANY_BETWEEN {
                return false;
            }
        }
        unreachable!()
    }

    // Lets all search from now on, if they don't yet.
    fn start_all(&self, state: u64) {
        let starts = self
            .state
            .compare_exchange(HOLDING_BACK, state, Ordering::SeqCst, Ordering::SeqCst)
            .is_ok();
        if starts {
            self.state.wake_all();
        }
    }
}

/// What a round of samples of the first worker has found.
#[derive(Clone, Copy)]
struct Round {
    /// The first worker's steps at the beginning of the round, and at the last sample.
    begun: u64,
    last: u64,
    /// How many microseconds the naps of the round last, at least and now.
    shortest: u64,
    nap: u64,
    /// How many samples have found a new expansion, and how many none.
    expanding: u32,
    between: u32,
    /// How many microseconds the round has taken, and for how many the same expansion was found.
    took: u64,
    same: u64,
}

impl Round {
    fn new(steps: u64, nap: u64) -> Round {
        Round {
            begun: steps,
            last: steps,
            shortest: nap,
            nap,
            expanding: 0,
            between: 0,
            took: 0,
            same: 0,
        }
    }

    // Takes a sample after a nap: `steps` are the steps of the first worker. If the same expansion
    // goes on, the next nap is longer.
    fn look(&mut self, steps: u64) {
        let passed = self.nap.saturating_add(NAP_ADDS);
        self.took = self.took.saturating_add(passed);
        if steps % 2 == 1 && steps == self.last {
            self.same = self.same.saturating_add(passed);
            self.nap = longer(self.nap);
            return;
        }
        if steps % 2 == 1 {
            self.expanding = self.expanding.saturating_add(1);
        } else {
            self.between = self.between.saturating_add(1);
        }
        self.same = 0;
        self.nap = self.shortest;
        self.last = steps;
    }

    // Whether more workers would gain: expansions take most of the time, or one lasts long.
    fn shows_a_gain(&self) -> bool {
        self.expanding >= MANY_EXPANDING || self.same >= LONG
    }

    // What it costs to expand a node, by the number of those that were expanded in the round.
    fn cost(&self) -> u64 {
        let expanded = self.last.wrapping_sub(self.begun) / 2;
        if expanded.saturating_mul(DEAR_MICROS) <= self.took {
            return DEAR;
        }
        CHEAP
    }
}

// The nap after one that showed no gain.
fn longer(nap: u64) -> u64 {
    nap.saturating_mul(2).min(LONGEST_NAP)
}
