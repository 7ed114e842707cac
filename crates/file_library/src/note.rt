ghost use Rattle.std.specs.Prelude.{◌≡◌, ◌++◌, ◌∷◌, [], Some, None, IfOk, IfErr};
ghost use Rattle.file_library.specs.Notes.{noted};

use prolog_tokens::Text;
use std::alloc::AllocError;
use std::snapshot::Snapshot;

/// A note for contracts of what was returned: the name with what the buffer held, or that there is
/// no such file. It has no bytes.
#[derive(Drop)]
pub enum Note {
    Found(Snapshot<Text>, Snapshot<Vec<u8>>),
    Absent(Snapshot<Text>),
}

/// Notes that the bytes were returned for the name.
pub fn note_found(
    notes: &mut Vec<Note>,
    name: Snapshot<Text>,
    room: &Vec<u8>,
) -> Result<(), AllocError>
    ensures noted { IfOk result (λ _. noted notes.new.items ≡ noted notes.old.items ++ record { name = name.value; text = Some room.now.items } ∷ []) }
    ensures kept { IfErr result (λ _. noted notes.new.items ≡ noted notes.old.items) }
{
    notes.push(Note::Found(name, Snapshot::of(room)))?;
    Ok(())
}

/// Notes that there is no file of the name.
pub fn note_absent(notes: &mut Vec<Note>, name: Snapshot<Text>) -> Result<(), AllocError>
    ensures noted { IfOk result (λ _. noted notes.new.items ≡ noted notes.old.items ++ record { name = name.value; text = None } ∷ []) }
    ensures kept { IfErr result (λ _. noted notes.new.items ≡ noted notes.old.items) }
{
    notes.push(Note::Absent(name))?;
    Ok(())
}
