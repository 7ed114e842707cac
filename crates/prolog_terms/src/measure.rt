/// What tests and depths need of a stack and the operand on it:
///
/// - `height`: how many operators and brackets are on the stack;
/// - `bound`: the greatest priority of what may be on it;
/// - `reach`: the least depth that it gives the clause;
/// - `priority` and `depth` of the operand.
#[derive(Clone, Copy)]
pub struct Measure {
    pub height: usize,
    pub bound: u32,
    pub reach: usize,
    pub priority: u32,
    pub depth: usize,
}
