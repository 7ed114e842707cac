//! What is marked at predicates, as JSON.

ghost use Rattle.std.specs.Prelude.{◌≡◌, ◌++◌, OnOk, codes};
ghost use Rattle.std.specs.List.{flat_map};
ghost use Rattle.std.specs.String.{string_bytes};
ghost use Rattle.call_writer.specs.Json.{truth};
ghost use Rattle.call_writer.specs.Marks.{declared_fields, goal_arg, goal_args, mark_fields, next_goal_arg, root_words, word_if, words_text};

use crate::json::push_number;
use call_table::NodeMarks;
use module_table::GoalArg;
use std::alloc::AllocError;

/// Adds what a declaration says of an argument.
fn push_goal_arg(text: &mut String, arg: GoalArg) -> Result<(), AllocError>
    ensures { OnOk result (string_bytes text.new ≡ string_bytes text.old ++ goal_arg arg) }
{
    match arg {
        GoalArg::Plain => text.push_str("null"),
        GoalArg::Goal(added) => push_number(text, u64::from(added)),
        GoalArg::Caret => text.push_str("\"^\""),
        GoalArg::Grammar => text.push_str("\"//\""),
    }
}

/// Adds what a declaration says of an argument, after a comma.
fn push_next_goal_arg(text: &mut String, arg: GoalArg) -> Result<(), AllocError>
    ensures { OnOk result (string_bytes text.new ≡ string_bytes text.old ++ next_goal_arg arg) }
{
    text.push_str(",")?;
    push_goal_arg(text, arg)?;
    Ok(())
}

/// Adds what a declaration says of each of these arguments, after a comma each.
fn push_next_goal_args(text: &mut String, args: &[GoalArg]) -> Result<(), AllocError>
    ensures { OnOk result (string_bytes text.new ≡ string_bytes text.old ++ flat_map next_goal_arg args.now) }
{
    for arg in args {
        push_next_goal_arg(text, *arg)?;
    }
    Ok(())
}

/// Adds what a declaration says of the arguments, or `null` if there is none.
fn push_goal_args(text: &mut String, args: &[GoalArg]) -> Result<(), AllocError>
    ensures { OnOk result (string_bytes text.new ≡ string_bytes text.old ++ goal_args args.now) }
{
    let Some((first, others)) = args.split_first() else {
        text.push_str("null")?;
        return Ok(());
    };
    text.push_str("[")?;
    push_goal_arg(text, *first)?;
    push_next_goal_args(text, others)?;
    text.push_str("]")?;
    Ok(())
}

/// Whether a predicate is exported, and what comes before its declaration.
fn exported_field(exported: bool) -> &'static str
    ensures { result.now ≡ codes ",\"exported\":" ++ (truth exported ++ codes ",\"meta\":") }
{
    if exported {
        ",\"exported\":true,\"meta\":"
    } else {
        ",\"exported\":false,\"meta\":"
    }
}

/// Why reachability begins at a predicate, if no list says where.
fn reasons_text(export: bool, directive: bool, file: bool) -> &'static str
    ensures { result.now ≡ words_text (word_if export (codes "\"export\"")
        ++ (word_if directive (codes "\"directive\"") ++ word_if file (codes "\"file\""))) }
{
    match (export, directive, file) {
        (true, true, true) => "\"export\",\"directive\",\"file\"",
        (true, true, false) => "\"export\",\"directive\"",
        (true, false, true) => "\"export\",\"file\"",
        (true, false, false) => "\"export\"",
        (false, true, true) => "\"directive\",\"file\"",
        (false, true, false) => "\"directive\"",
        (false, false, true) => "\"file\"",
        (false, false, false) => "",
    }
}

/// The same, if a list names where.
fn listed_text(root: bool) -> &'static str
    ensures { result.now ≡ words_text (word_if root (codes "\"roots\"")) }
{
    if root { "\"roots\"" } else { "" }
}

/// Why reachability begins at a predicate.
fn root_text(marks: NodeMarks) -> &'static str
    ensures { result.now ≡ words_text (root_words marks) }
{
    if marks.listed {
        return listed_text(marks.root);
    }
    reasons_text(marks.by_export, marks.by_directive, marks.by_file)
}

/// What directives declare of a predicate. It comes after why reachability begins there, and ends
/// the line.
fn last_fields(dynamic: bool, multifile: bool) -> &'static str
    ensures { result.now ≡ codes "]" ++ (declared_fields dynamic multifile ++ codes "}\n") }
{
    match (dynamic, multifile) {
        (true, true) => "],\"dynamic\":true,\"multifile\":true}\n",
        (true, false) => "],\"dynamic\":true,\"multifile\":false}\n",
        (false, true) => "],\"dynamic\":false,\"multifile\":true}\n",
        (false, false) => "],\"dynamic\":false,\"multifile\":false}\n",
    }
}

/// Adds what is marked at a predicate and how it declares its arguments, and ends the line.
pub(crate) fn push_marks(
    text: &mut String,
    marks: NodeMarks,
    args: &[GoalArg],
) -> Result<(), AllocError>
    ensures { OnOk result (string_bytes text.new ≡ string_bytes text.old ++ (mark_fields marks args.now ++ codes "}\n")) }
{
    text.push_str(exported_field(marks.exported))?;
    push_goal_args(text, args)?;
    text.push_str(",\"root\":[")?;
    text.push_str(root_text(marks))?;
    text.push_str(last_fields(marks.dynamic, marks.multifile))?;
    Ok(())
}
