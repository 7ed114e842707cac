//! Runs of `run_groups` over files in memory, and what they are compared with.

use file_library::MemoryLibrary;
use group_tool::{MemorySink, OpenGate, run_groups};
use prolog_tokens::Text;
use std::alloc::{AllocError, Global};
use std::collections::BTreeMap;
use std::process::Abort;
use std::sync::Wait;
use std::test::Fail;
use std::thread::Threads;

/// Arguments, files and the reads that fail; and what is expected: the names in the order in which
/// they are read, each after a space, the status and the bytes on both sinks.
pub type FilesRun = (
    &'static [&'static str],
    &'static [(&'static str, &'static [u8])],
    &'static [u32],
    &'static str,
    u8,
    &'static str,
    &'static str,
);

/// The arguments of a command line.
pub fn words_of(alloc: Global, words: &[&str]) -> Result<Vec<Text>, AllocError> {
    let mut found = Vec::new(alloc);
    for word in words {
        found.push(Text::new(alloc, word)?)?;
    }
    Ok(found)
}

/// A library of these files, of which the reads with these numbers fail.
pub fn library_of(
    alloc: Global,
    files: &[(&str, &[u8])],
    failing: &[u32],
) -> Result<MemoryLibrary, AllocError> {
    let mut map = BTreeMap::new(alloc);
    for (name, bytes) in files {
        map.insert(Text::new(alloc, name)?, bytes.to_vec(alloc)?)?;
    }
    MemoryLibrary::new(alloc, map, failing.to_vec(alloc)?)
}

/// Adds the names, each after a space.
pub fn push_names(out: &mut String, names: &[Text]) -> Result<(), AllocError> {
    for name in names {
        out.push_str(" ")?;
        out.push_str(name.as_str())?;
    }
    Ok(())
}

/// The bytes that the sink has taken as text, or no text.
pub fn shown(sink: &MemorySink) -> &str {
    match str::from_utf8(sink.bytes()) {
        Ok(text) => text,
        Err(_) => "no text",
    }
}

/// Runs with the arguments over the library, and compares the status and what both sinks have
/// taken.
fn expect_run<R: Threads + Wait + Sync + Abort>(
    rt: &R,
    words: &[Text],
    library: &mut MemoryLibrary,
    alloc: Global,
    wanted: (u8, &str, &str),
) -> Result<(), Fail> {
    let mut out = MemorySink::with_room(alloc, 4000)?;
    let mut err = MemorySink::with_room(alloc, 4000)?;
    let status = run_groups(rt, alloc, words, library, &mut out, &mut err, &OpenGate);
    assert_eq!(rt; (status, shown(&out), shown(&err)), wanted);
    Ok(())
}

/// Runs with the arguments of each row over its files.
pub fn expect_files<R: Threads + Wait + Sync + Abort>(
    rt: &R,
    alloc: Global,
    rows: &[FilesRun],
) -> Result<(), Fail> {
    for (words, files, failing, asked, status, on_out, on_err) in rows {
        let mut library = library_of(alloc, files, failing)?;
        let words = words_of(alloc, words)?;
        expect_run(rt, &words, &mut library, alloc, (*status, on_out, on_err))?;
        let mut names = String::new(alloc);
        push_names(&mut names, library.asked())?;
        assert_eq!(rt; names.as_str(), *asked);
    }
    Ok(())
}
