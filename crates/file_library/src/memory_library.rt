ghost use Rattle.std.specs.Prelude.{◌≡◌, ◌↔◌, ℕ, [], Contains, IsTrue, IfOk};
ghost use Rattle.file_library.specs.Counts.{CountsAre};
ghost use Rattle.file_library.specs.Library.{IsLater, ReadIs, AskedIs, AnsweredIs};
ghost use Rattle.file_library.specs.Notes.{noted};
ghost use Rattle.file_library.specs.Copied.{CopiedIs};

use crate::library::{Library, Read};
use crate::note::{Note, note_absent, note_found};
use prolog_tokens::Text;
use std::alloc::{AllocError, Global};
use std::collections::BTreeMap;
use std::snapshot::Snapshot;

/// Files in memory. Reads are numbered from 1, and those in `failing` return `Failed`.
#[derive(Drop)]
pub struct MemoryLibrary {
    alloc: Global,
    files: BTreeMap<Text, Vec<u8>>,
    failing: Vec<u32>,
    asked: Vec<Text>,
    notes: Vec<Note>,
    faults: u64,
    misses: u64,
}

/// How copying a file into a buffer ended.
enum Copied {
    Whole,
    Missing,
    NoMemory,
}

fn is_ordered_to_fail(failing: &[u32], number: usize) -> bool
    ensures { IsTrue result ↔ Contains failing.now number }
{
    failing.iter().any(|order| *order as usize == number)
}

fn copy_file(files: &BTreeMap<Text, Vec<u8>>, name: &Text, limit: u32, room: &mut Vec<u8>) -> Copied
    requires { room.old.items ≡ [] }
    ensures { CopiedIs files.now name.now limit room.new.items result }
{
    match files.get(name) {
        None => Copied::Missing,
        Some(bytes) => {
            let end = bytes.len().min(limit as usize + 1);
            match room.extend_from_slice(&bytes[..end]) {
                Ok(()) => Copied::Whole,
                Err(_) => Copied::NoMemory,
            }
        }
    }
}

impl MemoryLibrary {
    ghost use Rattle.file_library.specs.MemoryLibrary.{files_of, IsNewLibrary};

    /// A library of these files. The reads with the numbers in `failing` will fail.
    pub fn new(
        alloc: Global,
        files: BTreeMap<Text, Vec<u8>>,
        failing: Vec<u32>,
    ) -> Result<MemoryLibrary, AllocError>
        ensures { IfOk result (λ library. IsNewLibrary (files_of files) failing.items library) }
    {
        Ok(MemoryLibrary {
            alloc,
            files,
            failing,
            asked: Vec::new(alloc),
            notes: Vec::new(alloc),
            faults: 0,
            misses: 0,
        })
    }

    /// The names that the library was asked for, in order.
    pub fn asked(&self) -> &[Text]
        ensures { result.now ≡ self.now.asked.items }
    {
        &self.asked
    }
}

impl Library for MemoryLibrary {
    ghost use Rattle.file_library.specs.MemoryLibrary.{memory_seen, ReadsByOrder};

    ghost seen = { memory_seen };

    fn read(&mut self, name: &str, limit: u32, room: &mut Vec<u8>) -> Read
        requires { room.old.items ≡ [] }
        ensures answer { ReadIs (memory_seen self.old) (memory_seen self.new) name.now limit room.new.items result }
        ensures asked { AskedIs self.old.asked.items self.new.asked.items name.now result }
        ensures answered { AnsweredIs (noted self.old.notes.items) (noted self.new.notes.items) name.now room.new.items result }
        ensures later { IsLater (memory_seen self.old) (memory_seen self.new) }
        ensures counts { CountsAre self.old.faults self.new.faults self.old.misses self.new.misses result }
        ensures by_order { ReadsByOrder self.old self.new result }
    {
        let Ok(key) = Text::new(self.alloc, name) else {
            return Read::NoMemory;
        };
        let Ok(asked) = Text::new(self.alloc, name) else {
            return Read::NoMemory;
        };
        let noted = Snapshot::of(&asked);
        if self.asked.push(asked).is_err() {
            return Read::NoMemory;
        }
        if is_ordered_to_fail(&self.failing, self.asked.len()) {
            self.faults = self.faults.saturating_add(1);
            return Read::Failed;
        }
        match copy_file(&self.files, &key, limit, room) {
            Copied::Whole => {
                if note_found(&mut self.notes, noted, room).is_err() {
                    room.clear();
                    return Read::NoMemory;
                }
                Read::Found
            }
            Copied::Missing => {
                if note_absent(&mut self.notes, noted).is_err() {
                    return Read::NoMemory;
                }
                self.misses = self.misses.saturating_add(1);
                Read::Absent
            }
            Copied::NoMemory => Read::NoMemory,
        }
    }
}
