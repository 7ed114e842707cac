ghost use Rattle.std.specs.Prelude.{◌≡◌, ◌+◌, [], Some, OnOk, OnErr, take};

use file_library::{Library, Note, Read, note_absent, note_found};
use prolog_tokens::Text;
use std::alloc::{AllocError, Global};
use std::snapshot::Snapshot;

/// A library of one file. No read of it fails.
#[derive(Drop)]
pub struct OneFile {
    alloc: Global,
    name: Text,
    text: Vec<u8>,
    asked: Vec<Text>,
    notes: Vec<Note>,
    misses: u64,
}

/// Puts the bytes into the empty buffer, but at most one more than the limit.
fn copy_start(bytes: &[u8], limit: u32, room: &mut Vec<u8>) -> Result<(), AllocError>
    requires { room.old.items ≡ [] }
    ensures ok { OnOk result (room.new.items ≡ take (limit + 1) bytes.now) }
    ensures err { OnErr result (room.new.items ≡ []) }
{
    let end = bytes.len().min(limit as usize + 1);
    room.extend_from_slice(&bytes[..end])
}

impl OneFile {
    ghost use Rattle.group_tool.specs.OneFile.{IsNewFile};

    /// A library of the one file with that name and text.
    pub fn new(alloc: Global, name: Text, text: Vec<u8>) -> OneFile
        ensures { IsNewFile name text.items result }
    {
        OneFile {
            alloc,
            name,
            text,
            asked: Vec::new(alloc),
            notes: Vec::new(alloc),
            misses: 0,
        }
    }
}

impl Library for OneFile {
    ghost use Rattle.file_library.specs.Library.{library_seen};
    ghost use Rattle.file_library.specs.Notes.{noted};
    ghost use Rattle.tool_run.specs.Wanted.{one_file};

    ghost seen = { λ l. library_seen (Some (one_file l.name l.text.items)) l.asked.items (noted l.notes.items) 0 l.misses };

    fn read(&mut self, name: &str, limit: u32, room: &mut Vec<u8>) -> Read {
        let Ok(asked) = Text::new(self.alloc, name) else {
            return Read::NoMemory;
        };
        let key = Snapshot::of(&asked);
        if self.asked.push(asked).is_err() {
            return Read::NoMemory;
        }
        if self.name.as_str() != name {
            if note_absent(&mut self.notes, key).is_err() {
                return Read::NoMemory;
            }
            self.misses = self.misses.saturating_add(1);
            return Read::Absent;
        }
        let Ok(()) = copy_start(&self.text, limit, room) else {
            return Read::NoMemory;
        };
        if note_found(&mut self.notes, key, room).is_err() {
            room.clear();
            return Read::NoMemory;
        }
        Read::Found
    }
}
