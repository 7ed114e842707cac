/// How an argument of a goal is called, as `meta_predicate` declares it.
#[derive(Clone, Copy, Debug, PartialEq, Eq)]
pub enum GoalArg {
    /// It is no goal.
    Plain,
    /// It is a goal, which is called with so many more arguments.
    Goal(u32),
    /// It is a goal after any number of `V^`.
    Caret,
    /// It is the body of a grammar rule.
    Grammar,
}
