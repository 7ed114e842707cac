ghost use Rattle.std.specs.Prelude.{◌≡◌};
ghost use Rattle.report_lines.specs.Head.{kind_of};

/// The word of a group's line for its kind, `plain` or `recursive`, after a space.
pub fn kind_name(recursive: bool) -> &'static str
    ensures { result.now ≡ kind_of recursive }
{
    if recursive { " recursive" } else { " plain" }
}
