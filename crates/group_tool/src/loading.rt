//! The program that a run analyses.

ghost use Rattle.std.specs.Prelude.{◌≡◌, ◌≤◌, ℕ, List, [], ◌∷◌, IfOk, Some};
ghost use Rattle.group_words.specs.declared.limits.TheConstants.{MOST_MADE};
ghost use Rattle.group_words.specs.Made.{made_text};
ghost use Rattle.group_words.specs.Settings.{Settings, AreLawful, see_options};
ghost use Rattle.group_tool.specs.Groups.{groups_tool};
ghost use Rattle.tool_run.specs.Carrying.{CarriesOn};
ghost use Rattle.group_tool.specs.OneFile.{IsNewFile};
ghost use Rattle.tool_run.specs.Asking.{Asking, IsLeft};
ghost use Rattle.tool_run.specs.Run.{EndIs};
ghost use Rattle.tool_run.specs.Wanted.{IsJust, made_name};

use crate::one_file::OneFile;
use file_library::Library;
use group_words::{Options, make_text, settings_within};
use import_rules::Program;
use prolog_tokens::Text;
use std::alloc::{AllocError, Global};
use std::thread::Threads;
use tool_run::{Stop, load_files};

/// The name of the generated file of `--make`.
const MADE: &str = "gen.pl";

/// The program of the files that the options ask for and of all files that they load, which the
/// library reads; or the generated program.
pub fn load_program<R: Threads + Sync, L: Library>(
    rt: &R,
    alloc: Global,
    options: &Options,
    library: &mut L,
) -> Result<Program, Stop>
    requires { (words : List (List ℕ)) × AreLawful words (see_options options.now) }
    ensures { CarriesOn groups_tool (see_options options.now)
        (EndIs groups_tool (IsJust (see_options options.now)) (L.seen library.old, L.seen library.new)) result }
{
    settings_within();
    match options.make {
        Some(count) => load_made(rt, alloc, options, count),
        None => load_files(rt, alloc, &options.files, library),
    }
}

/// The generated program. No library is asked.
fn load_made<R: Threads + Sync>(
    rt: &R,
    alloc: Global,
    options: &Options,
    count: u32,
) -> Result<Program, Stop>
    requires made { (see_options options.now).make ≡ Some count }
    requires few { count ≤ MOST_MADE }
    ensures { CarriesOn groups_tool (see_options options.now)
        (λ end. (library : Asking) → IsLeft library → EndIs groups_tool (IsJust (see_options options.now)) library end) result }
{
    let _made = options.make;
    let names = made_names(alloc)?;
    let mut made = made_file(alloc, count)?;
    load_files(rt, alloc, &names, &mut made)
}

/// A library of the one generated file.
fn made_file(alloc: Global, count: u32) -> Result<OneFile, AllocError>
    requires { count ≤ MOST_MADE }
    ensures { IfOk result (λ made. IsNewFile made_name (made_text count) made) }
{
    let name = Text::new(alloc, MADE)?;
    let text = make_text(alloc, count)?;
    Ok(OneFile::new(alloc, name, text.into_bytes()))
}

/// The name of the generated file, as a list.
fn made_names(alloc: Global) -> Result<Vec<Text>, AllocError>
    ensures { IfOk result (λ names. names.items ≡ made_name ∷ []) }
{
    let mut names = Vec::new(alloc);
    names.push(Text::new(alloc, MADE)?)?;
    Ok(names)
}
