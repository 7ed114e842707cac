use crate::term::{NO_SPAN, Span};

/// What the reader keeps of a term in addition to its node: its priority, depth and position.
/// Depths over the greatest number count as that number.
#[derive(Clone, Copy)]
pub struct Operand {
    pub priority: u32,
    pub depth: usize,
    pub span: Span,
}

/// The value of no operand.
pub const NO_OPERAND: Operand = Operand {
    priority: 0,
    depth: 0,
    span: NO_SPAN,
};
