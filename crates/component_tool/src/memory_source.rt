ghost use Rattle.std.specs.Prelude.{◌≡◌, [], OnOk, take};

use crate::source::{Source, SourceRead};
use edge_text::MOST_BYTES;
use file_library::{Note, note_absent, note_found};
use prolog_tokens::Text;
use std::alloc::{AllocError, Global};
use std::snapshot::Snapshot;

/// A source of one text in memory. A read of another name fails.
#[derive(Drop)]
pub struct MemorySource {
    alloc: Global,
    name: Text,
    text: Vec<u8>,
    notes: Vec<Note>,
}

/// Puts the bytes into the empty buffer, `most` of them at most.
fn copy_start(bytes: &[u8], most: usize, room: &mut Vec<u8>) -> Result<(), AllocError>
    requires { room.old.items ≡ [] }
    ensures { OnOk result (room.new.items ≡ take most bytes.now) }
{
    let end = bytes.len().min(most);
    room.extend_from_slice(&bytes[..end])
}

impl MemorySource {
    ghost use Rattle.component_tool.specs.MemorySource.{IsNewSource};

    /// A source of the one text with that name.
    pub fn new(alloc: Global, name: Text, text: Vec<u8>) -> MemorySource
        ensures { IsNewSource name text.items result }
    {
        MemorySource {
            alloc,
            name,
            text,
            notes: Vec::new(alloc),
        }
    }
}

impl Source for MemorySource {
    ghost use Rattle.component_tool.specs.MemorySource.{memory_seen};

    ghost seen = { memory_seen };

    fn read(&mut self, name: &str, room: &mut Vec<u8>) -> SourceRead {
        let Ok(asked) = Text::new(self.alloc, name) else {
            return SourceRead::NoMemory;
        };
        let key = Snapshot::of(&asked);
        if self.name.as_str() != name {
            if note_absent(&mut self.notes, key).is_err() {
                return SourceRead::NoMemory;
            }
            return SourceRead::Failed;
        }
        let Ok(()) = copy_start(&self.text, MOST_BYTES + 1, room) else {
            return SourceRead::NoMemory;
        };
        if note_found(&mut self.notes, key, room).is_err() {
            return SourceRead::NoMemory;
        }
        SourceRead::Found
    }
}
