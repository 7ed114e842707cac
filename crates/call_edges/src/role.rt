//! The roles of terms in bodies, and the goals that occur there.

use module_table::GoalArg;

/// The role of a term in a body: how it is a goal, and whether it is negated, by a `\+` around it.
#[derive(Clone, Copy, Debug, PartialEq, Eq)]
pub struct Role {
    pub arg: GoalArg,
    pub negated: bool,
}

/// The role of a body that is a goal.
pub const GOAL_ROLE: Role = Role {
    arg: GoalArg::Goal(0),
    negated: false,
};

/// The role of a grammar body.
pub const GRAMMAR_ROLE: Role = Role {
    arg: GoalArg::Grammar,
    negated: false,
};

/// Which arguments of a predicate are goals. Those after the third aren't.
#[derive(Clone, Copy, Debug, PartialEq, Eq)]
pub struct Row {
    pub first: GoalArg,
    pub second: GoalArg,
    pub third: GoalArg,
}

/// What a compound term is as a part of a body.
#[derive(Clone, Copy, Debug, PartialEq, Eq)]
pub enum Way {
    /// No goal.
    Silent,
    /// `V^G`, of which only `G` counts.
    Behind,
    /// A control construct of two goals, whose arguments have its role.
    Control,
    /// `\+G`, whose argument has its role, and is negated.
    Negation,
    /// `M:G`.
    Qualified,
    /// A call of the predicate of its name.
    Calling,
}

/// What the name of a call means in its module.
#[derive(Clone, Copy, Debug, PartialEq, Eq)]
pub enum Meant {
    /// It wasn't looked up.
    Unasked,
    /// The predicate of that number.
    Predicate(u32),
    /// No predicate.
    Nothing,
}

/// A goal that occurs in a body: a call, with the byte offset at which its goal starts, or the byte
/// offset of a goal that isn't callable. `added` of its arguments aren't written in the goal. A call
/// also has the number of its name in the names of its text, which makes the look-up faster.
#[derive(Clone, Copy, Debug)]
pub enum Met<'a> {
    Call {
        at: u32,
        module: &'a str,
        name: &'a str,
        number: u32,
        arity: u32,
        added: u32,
        negated: bool,
        meant: Meant,
    },
    Fault(u32),
}

/// How the arguments of a compound of a body are goals.
#[derive(Clone, Copy, Debug)]
pub enum Standing<'a> {
    /// None of them is a goal.
    Silent,
    /// By a row of the table.
    ByRow(Row),
    /// As the predicate that is called declares them.
    Declared(&'a [GoalArg]),
}

/// What a name means in a module, and how that predicate declares its arguments; empty if it
/// doesn't.
#[derive(Clone, Copy, Debug)]
pub struct Meaning<'a> {
    pub meant: Meant,
    pub declared: &'a [GoalArg],
}

/// A compound of a body: the goal at the term itself, how its arguments are goals, in which module,
/// and whether they are negated.
#[derive(Clone, Copy, Debug)]
pub struct Taken<'a> {
    pub met: Option<Met<'a>>,
    pub module: &'a str,
    pub standing: Standing<'a>,
    pub negated: bool,
}
