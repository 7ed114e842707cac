ghost use Rattle.std.specs.Prelude.{◌≡◌, ◌≤◌, ◌+◌, ◌⊎◌, [], None, OnOk, length};
ghost use Rattle.std.specs.Io.KnownBytes.{Consumes, IsAtEnd};
ghost use Rattle.edge_text.specs.declared.limits.TheConstants.{MOST_BYTES};
ghost use Rattle.file_library.specs.Notes.{noted};
ghost use Rattle.component_tool.specs.Source.{source_seen};

use crate::source::{Source, SourceRead};
use component_words::STANDARD_INPUT;
use edge_text::MOST_BYTES;
use file_library::{Note, note_absent, note_found};
use prolog_tokens::Text;
use std::alloc::Global;
use std::io::{ErrorKind, Input};
use std::rt::Files;
use std::snapshot::Snapshot;
use std::{fs, io};

/// The files of the disk, and standard input. Contracts know nothing of what they hold, but what
/// was read of it.
#[derive(Drop)]
pub struct DiskSource<'a, R: Files + Input> {
    rt: &'a R,
    alloc: Global,
    notes: Vec<Note>,
}

impl<'a, R: Files + Input> DiskSource<'a, R> {
    /// The disk and standard input, before any read.
    pub fn new(rt: &'a R, alloc: Global) -> DiskSource<'a, R>
        ensures { result.notes.items ≡ [] }
    {
        DiskSource {
            rt,
            alloc,
            notes: Vec::new(alloc),
        }
    }
}

/// Reads all that the stream returns into the empty buffer, or one byte more than a text may have if
/// there are more.
fn read_stream<S: io::Read>(stream: &mut S, room: &mut Vec<u8>) -> io::Result<()>
    requires { room.old.items ≡ [] }
    ensures within { length room.new.items ≤ MOST_BYTES + 1 }
    ensures bytes { OnOk result (Consumes (S.remaining stream.old) (S.remaining stream.new) room.new.items) }
    ensures end { OnOk result ((length room.new.items ≡ MOST_BYTES + 1) ⊎ IsAtEnd (S.remaining stream.new)) }
{
    let most = MOST_BYTES + 1;
    let mut buffer = [0u8; 65_536];
    while room.len() < most {
        let wanted = buffer.len().min(most - room.len());
        let count = stream.read(&mut buffer[..wanted])?;
        if count == 0 {
            return Ok(());
        }
        room.extend_from_slice(&buffer[..count])?;
    }
    Ok(())
}

/// Reads the file, or standard input, into the empty buffer, or one byte more than a text may have
/// if it is longer.
fn read_named<R: Files + Input>(rt: &R, name: &str, room: &mut Vec<u8>) -> io::Result<()>
    requires { room.old.items ≡ [] }
    ensures { length room.new.items ≤ MOST_BYTES + 1 }
{
    if name == STANDARD_INPUT {
        let mut input = rt.reader();
        return read_stream(&mut input, room);
    }
    let mut file = fs::open(rt, name)?;
    read_stream(&mut file, room)
}

impl<'a, R: Files + Input> Source for DiskSource<'a, R> {
    ghost seen = { λ s. source_seen None (noted s.notes.items) };

    fn read(&mut self, name: &str, room: &mut Vec<u8>) -> SourceRead {
        let Ok(asked) = Text::new(self.alloc, name) else {
            return SourceRead::NoMemory;
        };
        let key = Snapshot::of(&asked);
        match read_named(self.rt, name, room) {
            Ok(()) => {
                if note_found(&mut self.notes, key, room).is_err() {
                    return SourceRead::NoMemory;
                }
                SourceRead::Found
            }
            Err(error) => match error.kind() {
                ErrorKind::OutOfMemory => SourceRead::NoMemory,
                _ => {
                    if note_absent(&mut self.notes, key).is_err() {
                        return SourceRead::NoMemory;
                    }
                    SourceRead::Failed
                }
            },
        }
    }
}
