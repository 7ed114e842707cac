ghost use Rattle.std.specs.Prelude.{◌≡◌, ◌≤◌, ◌⊎◌, ◌+◌, [], None, OnOk, length};
ghost use Rattle.std.specs.Io.KnownBytes.{Consumes, IsAtEnd};
ghost use Rattle.file_library.specs.Counts.{CountsAre};
ghost use Rattle.file_library.specs.Library.{library_seen, IsLater, ReadIs, AskedIs, AnsweredIs};
ghost use Rattle.file_library.specs.Notes.{noted};

use crate::library::{Library, Read};
use crate::note::{Note, note_absent, note_found};
use prolog_tokens::Text;
use std::alloc::Global;
use std::io::ErrorKind;
use std::rt::Files;
use std::snapshot::Snapshot;
use std::{fs, io};

/// The files of the disk. Contracts know nothing of what the disk holds, but what was read of it.
#[derive(Drop)]
pub struct DiskLibrary<'a, R: Files> {
    rt: &'a R,
    alloc: Global,
    asked: Vec<Text>,
    notes: Vec<Note>,
    faults: u64,
    misses: u64,
}

impl<'a, R: Files> DiskLibrary<'a, R> {
    /// The disk, before any read.
    pub fn new(rt: &'a R, alloc: Global) -> DiskLibrary<'a, R>
        ensures asked { result.asked.items ≡ [] }
        ensures notes { result.notes.items ≡ [] }
        ensures faults { result.faults ≡ 0 }
        ensures misses { result.misses ≡ 0 }
    {
        DiskLibrary {
            rt,
            alloc,
            asked: Vec::new(alloc),
            notes: Vec::new(alloc),
            faults: 0,
            misses: 0,
        }
    }
}

/// Reads the file into the empty buffer, or one byte more than `limit` if it is longer.
fn read_file<R: Files>(rt: &R, name: &str, limit: u32, room: &mut Vec<u8>) -> io::Result<()>
    requires { room.old.items ≡ [] }
    ensures { length room.new.items ≤ limit + 1 }
{
    let mut file = fs::open(rt, name)?;
    read_first(&mut file, limit, room)
}

/// Reads all that the source gives into the empty buffer, or one byte more than `limit` if it is
/// longer.
fn read_first<S: io::Read>(source: &mut S, limit: u32, room: &mut Vec<u8>) -> io::Result<()>
    requires { room.old.items ≡ [] }
    ensures within { length room.new.items ≤ limit + 1 }
    ensures bytes { OnOk result (Consumes (S.remaining source.old) (S.remaining source.new) room.new.items) }
    ensures end { OnOk result ((length room.new.items ≡ limit + 1) ⊎ IsAtEnd (S.remaining source.new)) }
{
    let most = limit as usize + 1;
    let mut buffer = [0u8; 8192];
    while room.len() < most {
        let wanted = buffer.len().min(most - room.len());
        let count = source.read(&mut buffer[..wanted])?;
        if count == 0 {
            return Ok(());
        }
        room.extend_from_slice(&buffer[..count])?;
    }
    Ok(())
}

impl<'a, R: Files> Library for DiskLibrary<'a, R> {
    ghost seen = { λ l. library_seen None l.asked.items (noted l.notes.items) l.faults l.misses };

    fn read(&mut self, name: &str, limit: u32, room: &mut Vec<u8>) -> Read
        requires { room.old.items ≡ [] }
        ensures answer { ReadIs (library_seen None self.old.asked.items (noted self.old.notes.items) self.old.faults self.old.misses)
            (library_seen None self.new.asked.items (noted self.new.notes.items) self.new.faults self.new.misses) name.now limit room.new.items result }
        ensures asked { AskedIs self.old.asked.items self.new.asked.items name.now result }
        ensures answered { AnsweredIs (noted self.old.notes.items) (noted self.new.notes.items) name.now room.new.items result }
        ensures later { IsLater (library_seen None self.old.asked.items (noted self.old.notes.items) self.old.faults self.old.misses)
            (library_seen None self.new.asked.items (noted self.new.notes.items) self.new.faults self.new.misses) }
        ensures counts { CountsAre self.old.faults self.new.faults self.old.misses self.new.misses result }
    {
        let Ok(asked) = Text::new(self.alloc, name) else {
            return Read::NoMemory;
        };
        let key = Snapshot::of(&asked);
        if self.asked.push(asked).is_err() {
            return Read::NoMemory;
        }
        match read_file(self.rt, name, limit, room) {
            Ok(()) => {
                if note_found(&mut self.notes, key, room).is_err() {
                    room.clear();
                    return Read::NoMemory;
                }
                Read::Found
            }
            Err(error) => {
                room.clear();
                match error.kind() {
                    ErrorKind::NotFound => {
                        if note_absent(&mut self.notes, key).is_err() {
                            return Read::NoMemory;
                        }
                        self.misses = self.misses.saturating_add(1);
                        Read::Absent
                    }
                    ErrorKind::OutOfMemory => Read::NoMemory,
                    _ => {
                        self.faults = self.faults.saturating_add(1);
                        Read::Failed
                    }
                }
            }
        }
    }
}
