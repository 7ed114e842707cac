//! The state of the reader while no token waits.

use crate::node_list::NodeList;
use crate::operand::Operand;
use crate::stack::Stack;
use std::alloc::Global;

/// What the next token meets.
#[derive(Clone, Copy)]
pub enum Mode {
    /// An operand is wanted.
    Want,
    /// An operand is complete: the last term of the nodes.
    Have,
    /// The clause and its End are read: it is the last term of the nodes.
    Done,
}

/// What is open, the complete terms as one list of nodes, what the next token meets, and the
/// complete operand, if there is one. The terms are in the order in which the stack has them.
#[derive(Drop)]
pub struct State {
    pub stack: Stack,
    pub nodes: NodeList,
    pub mode: Mode,
    pub operand: Operand,
}
