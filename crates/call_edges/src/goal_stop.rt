use file_library::Fault;
use std::alloc::AllocError;

/// Why not every goal of a program is known to be callable.
#[derive(Drop)]
pub enum GoalStop {
    /// The goals that aren't callable, in order of file and offset, each once.
    Faults(Vec<Fault>),
    NoMemory,
}

impl From<AllocError> for GoalStop {
    ghost use Rattle.call_edges.specs.declared.goal_stop.GoalStop.TheVariants.{NoMemory};
    ghost use Rattle.std.specs.Prelude.{◌≡◌};

    ghost from_gives = { λ _ stop. stop ≡ NoMemory };

    fn from(_error: AllocError) -> GoalStop {
        GoalStop::NoMemory
    }
}
