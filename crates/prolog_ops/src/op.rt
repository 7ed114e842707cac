/// The kinds of operators of ISO/IEC 13211-1, 6.3.4. `f` is the operator, `y` an operand of at most
/// its priority, and `x` an operand of a lower priority.
#[derive(Clone, Copy, Debug, PartialEq, Eq)]
pub enum OpKind {
    Xfx,
    Xfy,
    Yfx,
    Fy,
    Fx,
    Xf,
    Yf,
}

/// An operator: its priority, from 1 to 1200, and its kind.
#[derive(Clone, Copy, Debug, PartialEq, Eq)]
pub struct Op {
    pub priority: u32,
    pub kind: OpKind,
}
