ghost use Rattle.std.specs.Prelude.{◌≡◌, ◌++◌, ◌∷◌, [], codes, fold, map, nat_eq, MatchOption, IfOk, OnOk};
ghost use Rattle.std.specs.List.{ends_with};
ghost use Rattle.std.specs.String.{string_bytes};
ghost use Rattle.module_table.specs.FileName.{begins_with_slash, segments, folder, whole_path, with_slashes, gone_up, kept_with, last_first, name_of, resolved};

use prolog_tokens::Text;
use std::alloc::{AllocError, Global};

/// The name of the file that `spec` means in the file named `using`, or `None` if no file name is
/// left.
///
/// A `spec` that begins with `/` is absolute, and any other is relative to the folder of `using`.
/// Segments `.` and `..` of the path are resolved, and `.pl` is added if the name doesn't end so.
pub fn resolve_name(alloc: Global, using: &str, spec: &str) -> Result<Option<Text>, AllocError>
    ensures { IfOk result (λ name. name ≡ resolved «using».now spec.now) }
{
    let path = whole_path(alloc, using, spec)?;
    let absolute = begins_with_slash(path.as_str());
    let kept = kept_segments(alloc, path.as_str(), absolute)?;
    name_of(alloc, kept, absolute)
}

fn begins_with_slash(path: &str) -> bool
    ensures { result ≡ begins_with_slash path.now }
{
    path.starts_with("/")
}

/// The path that `spec` gives in the file named `using`, as it is written.
fn whole_path(alloc: Global, using: &str, spec: &str) -> Result<String, AllocError>
    ensures { IfOk result (λ path. string_bytes path ≡ whole_path «using».now spec.now) }
{
    let mut path = String::new(alloc);
    if begins_with_slash(spec) {
        path.push_str(spec)?;
        return Ok(path);
    }
    push_folder(&mut path, using)?;
    path.push_str(spec)?;
    Ok(path)
}

/// Adds the name up to its last slash.
fn push_folder(path: &mut String, name: &str) -> Result<(), AllocError>
    ensures { OnOk result (string_bytes path.new ≡ string_bytes path.old ++ folder name.now) }
{
    let mut rest = name;
    while let Some((segment, more)) = rest.split_once('/') {
        path.push_str(segment)?;
        path.push_str("/")?;
        rest = more;
    }
    Ok(())
}

/// The segments of `path` that are left after `.` and `..` are resolved, in order.
fn kept_segments<'a>(
    alloc: Global,
    path: &'a str,
    absolute: bool,
) -> Result<Vec<&'a str>, AllocError>
    ensures { IfOk result (λ kept. last_first kept.items ≡ fold (kept_with absolute) [] (segments path.now)) }
{
    let mut kept = Vec::new(alloc);
    for segment in path.split('/') {
        keep(&mut kept, segment, absolute)?;
    }
    Ok(kept)
}

/// Adds the segment, unless it is empty, `.` or `..`; the last one goes a level up.
fn keep<'a>(kept: &mut Vec<&'a str>, segment: &'a str, absolute: bool) -> Result<(), AllocError>
    ensures { OnOk result (last_first kept.new.items ≡ kept_with absolute (last_first kept.old.items) segment.now) }
{
    if segment == "" {
        return Ok(());
    }
    if segment == "." {
        return Ok(());
    }
    if segment == ".." {
        return go_up(kept, absolute);
    }
    push_segment(kept, segment)
}

/// Goes a level up. Above a relative path the segment `..` is added, and above `/` there is no
/// level.
fn go_up(kept: &mut Vec<&str>, absolute: bool) -> Result<(), AllocError>
    ensures { OnOk result (last_first kept.new.items ≡ gone_up absolute (last_first kept.old.items)) }
{
    let Some(last) = pop_segment(kept) else {
        if absolute {
            return Ok(());
        }
        return push_segment(kept, "..");
    };
    if last != ".." {
        return Ok(());
    }
    push_segment(kept, last)?;
    if absolute {
        return Ok(());
    }
    push_segment(kept, "..")
}

fn push_segment<'a>(kept: &mut Vec<&'a str>, segment: &'a str) -> Result<(), AllocError>
    ensures { OnOk result (last_first kept.new.items ≡ segment.now ∷ last_first kept.old.items) }
{
    kept.push(segment)?;
    Ok(())
}

fn pop_segment<'a>(kept: &mut Vec<&'a str>) -> Option<&'a str>
    ensures { MatchOption result
        ((last_first kept.old.items ≡ []) × (last_first kept.new.items ≡ []))
        (λ last. last_first kept.old.items ≡ last.now ∷ last_first kept.new.items) }
{
    kept.pop()
}

/// The file name of the segments that are left of a path.
fn name_of(alloc: Global, mut kept: Vec<&str>, absolute: bool) -> Result<Option<Text>, AllocError>
    ensures { IfOk result (λ name. name ≡ name_of absolute (last_first kept.entry.items)) }
{
    let Some(last) = pop_segment(&mut kept) else {
        return Ok(None);
    };
    if last == ".." {
        return Ok(None);
    }
    let mut name = String::new(alloc);
    if absolute {
        name.push_str("/")?;
    }
    push_segments(&mut name, &kept)?;
    name.push_str(last)?;
    if !ends_as_prolog(last) {
        name.push_str(".pl")?;
    }
    Ok(Some(Text::from_string(name)))
}

/// Adds the segments, each with a slash after it.
fn push_segments(name: &mut String, parts: &[&str]) -> Result<(), AllocError>
    ensures { OnOk result (string_bytes name.new ≡ string_bytes name.old ++ with_slashes (map (λ part. part.now) parts.now)) }
{
    for part in parts {
        name.push_str(part)?;
        name.push_str("/")?;
    }
    Ok(())
}

fn ends_as_prolog(segment: &str) -> bool
    ensures { result ≡ ends_with nat_eq segment.now (codes ".pl") }
{
    segment.ends_with(".pl")
}
