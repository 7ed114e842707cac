//! The program `groups`: the lines that it prints.

ghost use Rattle.group_words.specs.Settings.{Settings};
ghost use Rattle.group_tool.specs.Groups.{groups_tool};

use tool_run::Tool;

/// The program `groups`.
pub struct Groups;

impl Tool for Groups {
    ghost Asked = { Settings };

    ghost is = { groups_tool };

    fn name() -> &'static str {
        "groups"
    }

    fn usage_line() -> &'static str {
        "usage: groups [--jobs N | --searches K --seed S] [--roots LIST] [--order [--stream]] [--unreached] [--effects] [--loops] [--path LIST] FILE... | groups --make N [--jobs N | --searches K --seed S]\n"
    }

    fn memory_line() -> &'static str {
        "groups: out of memory\n"
    }
}
