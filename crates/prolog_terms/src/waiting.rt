//! Names that wait for the next token.

ghost use Rattle.std.specs.Prelude.{◌≡◌, []};
ghost use Rattle.prolog_terms.specs.ReaderSeen.{ready_seen, wants};
ghost use Rattle.prolog_terms.specs.StackSeen.{Names as NamesSeen, see_reader};

use crate::node_list::NodeList;
use crate::operand::NO_OPERAND;
use crate::operator_sides::{NO_SIDES, Sides};
use crate::stack::Stack;
use crate::state::{Mode, State};
use crate::word::{NO_WORD, Word};
use std::alloc::Global;

/// Which tokens wait for the next one.
#[derive(Clone, Copy)]
pub enum Waiting {
    Nothing,
    /// A name where an operand is wanted, which is no prefix operator.
    Name,
    /// A prefix operator where an operand is wanted.
    Operator,
    /// A prefix operator, and a name after it that is an infix operator and no prefix operator.
    Doubt,
}

/// The tokens that wait: a name, with its sides if it is a prefix operator, and a second name with
/// its sides. With both the clause is at least `floor` deep.
#[derive(Clone, Copy)]
pub struct Waited {
    pub name: Word,
    pub prefix: Sides,
    pub second: Word,
    pub between: Sides,
    pub floor: usize,
}

/// The value if no token waits.
const NOT_WAITED: Waited = Waited {
    name: NO_WORD,
    prefix: NO_SIDES,
    second: NO_WORD,
    between: NO_SIDES,
    floor: 0,
};

/// What is read of a clause, and what waits after it. All clauses of a text are read with one
/// reader, which reuses its memory.
#[derive(Drop)]
pub struct Reader {
    pub(crate) state: State,
    pub(crate) waiting: Waiting,
    pub(crate) waited: Waited,
}

impl Reader {
    /// A reader that has read nothing.
    pub fn new(alloc: Global) -> Reader {
        Reader {
            state: State {
                stack: Stack::new(alloc),
                nodes: NodeList::new(alloc),
                mode: Mode::Want,
                operand: NO_OPERAND,
            },
            waiting: Waiting::Nothing,
            waited: NOT_WAITED,
        }
    }

    /// Nothing is read.
    pub(crate) fn begin(&mut self)
        ensures { (names : NamesSeen) → see_reader names self.new ≡ ready_seen [] wants }
    {
        self.state.stack.entries.clear();
        self.state.nodes.clear();
        self.state.mode = Mode::Want;
        self.waiting = Waiting::Nothing;
    }
}
