//! The run of the program.

ghost use Rattle.std.specs.Prelude.{◌≡◌, IfOk};
ghost use Rattle.calls_tool.specs.Calls.{calls_tool};
ghost use Rattle.call_told.specs.Told.{joined};
ghost use Rattle.call_told.specs.Wanted.{AreAsked, see_wanted};
ghost use Rattle.tool_run.specs.Carrying.{ProgramComesTo};
ghost use Rattle.tool_run.specs.Keeps.{LeavesOther, RunKeeps};
ghost use Rattle.tool_run.specs.Run.{EndIs};
ghost use Rattle.tool_run.specs.Say.{concatenated};
ghost use Rattle.tool_run.specs.Stop.{end_of};
ghost use Rattle.tool_run.specs.Wanted.{IsJust};

use crate::calls::Calls;
use call_edges::placed_call_lists;
use call_told::{Wanted, read_wanted, told_texts};
use file_library::Library;
use import_rules::Program;
use prolog_tokens::Text;
use std::alloc::{AllocError, Global};
use std::mem::forget;
use std::thread::Threads;
use tool_run::{Sink, Stop, load_files, put_end, roots_by};

/// The bytes of the texts, each in a text of its own.
fn bytes_of(alloc: Global, texts: Vec<String>) -> Result<Vec<Vec<u8>>, AllocError>
    ensures { IfOk result (λ bytes. concatenated bytes.items ≡ joined texts.items) }
{
    let mut bytes = Vec::new(alloc);
    for text in texts {
        bytes.push(text.into_bytes())?;
    }
    Ok(bytes)
}

/// What is asked for of the program, if each of its goals is callable and it has all roots.
fn tell_program<R: Threads + Sync>(
    rt: &R,
    alloc: Global,
    wanted: &Wanted,
    program: &Program,
) -> Result<Vec<Vec<u8>>, Stop>
    ensures { ProgramComesTo calls_tool (see_wanted wanted.now) program.now (end_of result) }
{
    let calls = placed_call_lists(rt, alloc, program)?;
    let roots = roots_by(alloc, program, &wanted.options)?;
    let texts = told_texts(rt, alloc, wanted, program, &calls, &roots)?;
    forget(calls);
    let bytes = bytes_of(alloc, texts)?;
    Ok(bytes)
}

/// What is asked for of the files, or why there is none. The memory of the program is left to the
/// end of the process, which comes next.
fn tell<R: Threads + Sync, L: Library>(
    rt: &R,
    alloc: Global,
    wanted: &Wanted,
    library: &mut L,
) -> Result<Vec<Vec<u8>>, Stop>
    ensures { EndIs calls_tool (IsJust (see_wanted wanted.now)) (L.seen library.old, L.seen library.new) (end_of result) }
{
    let program = load_files(rt, alloc, &wanted.options.files, library)?;
    let told = tell_program(rt, alloc, wanted, &program);
    forget(program);
    told
}

/// Writes what is asked for, or why there is none, to the sink for it.
fn run_wanted<R: Threads + Sync, L: Library, O: Sink, E: Sink>(
    rt: &R,
    alloc: Global,
    wanted: &Wanted,
    library: &mut L,
    out: &mut O,
    err: &mut E,
) -> u8
    ensures run { RunKeeps calls_tool (IsJust (see_wanted wanted.now)) (L.seen library.old, L.seen library.new)
        (O.seen out.old, O.seen out.new) (E.seen err.old, E.seen err.new) result }
    ensures left { LeavesOther (out.old, out.new) (err.old, err.new) result }
{
    let told = tell(rt, alloc, wanted, library);
    put_end::<Calls, O, E>(alloc, told, out, err)
}

/// Runs `calls` with the arguments over the library. It writes what they ask for to `out`, or to
/// `err` why there is none. Returns the exit status:
///
/// - 0: all is written;
/// - 2: the arguments aren't valid, or a name in them is no predicate of the program;
/// - 3: the files have errors;
/// - 4: the library could not read a file;
/// - 5: a sink failed;
/// - 6: a limit was passed;
/// - 7: memory ran out.
///
/// The memory of the program that it read isn't freed, since a run is the last thing that its
/// process does.
pub fn run_calls<R: Threads + Sync, L: Library, O: Sink, E: Sink>(
    rt: &R,
    alloc: Global,
    words: &[Text],
    library: &mut L,
    out: &mut O,
    err: &mut E,
) -> u8
    // The run keeps the contract of `calls`, if the arguments are valid for what is asked for. It
    // has the right answer, why there is another one, what each status means, and what was read.
    ensures run { RunKeeps calls_tool (AreAsked words.now) (L.seen library.old, L.seen library.new)
        (O.seen out.old, O.seen out.new) (E.seen err.old, E.seen err.new) result }
    // The other sink is unchanged.
    ensures left { LeavesOther (out.old, out.new) (err.old, err.new) result }
{
    match read_wanted(alloc, words) {
        Ok(wanted) => run_wanted(rt, alloc, &wanted, library, out, err),
        Err(fault) => put_end::<Calls, O, E>(alloc, Err(Stop::from(fault)), out, err),
    }
}
