//! The program `calls`: the lines that it prints.

ghost use Rattle.call_told.specs.Wanted.{Asked as Wanted};
ghost use Rattle.calls_tool.specs.Calls.{calls_tool};

use tool_run::Tool;

/// The program `calls`.
pub struct Calls;

impl Tool for Calls {
    ghost Asked = { Wanted };

    ghost is = { calls_tool };

    fn name() -> &'static str {
        "calls"
    }

    fn usage_line() -> &'static str {
        "usage: calls [--roots LIST] [--unreached] [--undefined | --dot [--condensed]] FILE...\n"
    }

    fn memory_line() -> &'static str {
        "calls: out of memory\n"
    }
}
