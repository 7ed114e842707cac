//! What differs between programs over files.

ghost use Rattle.std.specs.Prelude.{◌≡◌};
ghost use Rattle.tool_run.specs.Lines.{memory_line};
ghost use Rattle.tool_run.specs.Tool.{Tool as Promised};

/// A program over files: the lines that it prints. What it answers is a `Tool` of `specs/`, which
/// its runs keep.
pub trait Tool {
    ghost Asked: { Type 0 };

    ghost is: { Promised Asked };

    /// The name that its lines begin with.
    fn name() -> &'static str
        ensures { result.now ≡ is.name };

    /// The line that lists the arguments that it takes.
    fn usage_line() -> &'static str
        ensures { result.now ≡ is.usage };

    /// The line that reports that memory ran out. It is a constant, since it can't be allocated
    /// then.
    fn memory_line() -> &'static str
        ensures { result.now ≡ memory_line is.name };
}
