//! Programs of files in memory.

use file_library::{MemoryLibrary, load_all};
use import_rules::{Program, resolve_all};
use prolog_tokens::Text;
use std::alloc::{AllocError, Global};
use std::collections::BTreeMap;
use std::thread::Threads;

const NAMES: [&str; 3] = ["a.pl", "b.pl", "c.pl"];

/// A library of these texts.
pub(crate) fn library_of(alloc: Global, texts: &[&[u8]]) -> Result<MemoryLibrary, AllocError> {
    let mut files = BTreeMap::new(alloc);
    for (name, text) in NAMES.iter().zip(texts) {
        files.insert(Text::new(alloc, name)?, text.to_vec(alloc)?)?;
    }
    MemoryLibrary::new(alloc, files, Vec::new(alloc))
}

/// The program of one file with this text, or None if it isn't one.
pub(crate) fn program_of<R: Threads + Sync>(
    rt: &R,
    alloc: Global,
    text: &[u8],
) -> Result<Option<Program>, AllocError> {
    let mut library = library_of(alloc, &[text])?;
    let mut roots = Vec::new(alloc);
    roots.push(Text::new(alloc, "a.pl")?)?;
    let Ok(loaded) = load_all(rt, alloc, &roots, &mut library) else {
        return Ok(None);
    };
    match resolve_all(alloc, loaded) {
        Ok(program) => Ok(Some(program)),
        Err(_) => Ok(None),
    }
}
