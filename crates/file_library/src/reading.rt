ghost use Rattle.std.specs.Prelude.{◌≡◌, ◌≤◌, ◌+◌, ◌++◌, ◌∷◌, [], Some, length, map, IfOk, IfErr, OnOk};
ghost use Rattle.prolog_tokens.specs.declared.limits.TheConstants.{MOST_BYTES};
ghost use Rattle.file_library.specs.declared.limits.TheConstants.{MOST_TEXT};
ghost use Rattle.file_library.specs.Library.{IsLater, names_of};
ghost use Rattle.file_library.specs.Answers.{see_answer, bytes_of, AreAnswers, HasGiven, StopsAt, IsPut, IsTooLong, StopsWave};

use crate::answer::Answer;
use crate::library::{Library, Read};
use crate::limits::MOST_TEXT;
use crate::loaded::LoadStop;
use prolog_tokens::{MOST_BYTES, Text};
use std::alloc::{AllocError, Global};

/// Reads the files of a wave one after another, after `total` bytes in earlier ones. Fails at the
/// first file that can't be read or is too large, or if there are too many bytes.
pub(crate) fn read_wave<L: Library>(
    alloc: Global,
    wave: &[Text],
    total: u32,
    library: &mut L,
) -> Result<Vec<Answer>, LoadStop>
    requires { total ≤ MOST_TEXT }
    ensures later { IsLater (L.seen library.old) (L.seen library.new) }
    ensures names { IfOk result (λ answers. names_of (map see_answer answers.items) ≡ wave.now) }
    ensures answers { IfOk result (λ answers. AreAnswers (L.seen library.old) (L.seen library.new) total (map see_answer answers.items)) }
    ensures gained { IfOk result (λ answers. HasGiven (L.seen library.old) (L.seen library.new) wave.now (map see_answer answers.items)) }
    ensures stops { IfErr result (StopsWave (L.seen library.old) (L.seen library.new) wave.now total) }
{
    let mut answers = Vec::new(alloc);
    let mut read = total;
    for name in wave {
        let answer = match read_one(alloc, name, read, library) {
            Ok(answer) => answer,
            Err(stop) => return Err(stop),
        };
        read += size_of(&answer);
        let Ok(()) = push_answer(&mut answers, answer) else {
            return Err(LoadStop::NoMemory);
        };
    }
    Ok(answers)
}

fn push_answer(answers: &mut Vec<Answer>, answer: Answer) -> Result<(), AllocError>
    ensures { OnOk result (answers.new.items ≡ answers.old.items ++ answer ∷ []) }
{
    answers.push(answer)?;
    Ok(())
}

/// How many bytes were returned.
fn size_of(answer: &Answer) -> u32
    requires { bytes_of (see_answer answer.now) ≤ MOST_BYTES }
    ensures { result ≡ bytes_of (see_answer answer.now) }
{
    match &answer.bytes {
        Some(bytes) => bytes.len() as u32,
        None => 0,
    }
}

/// Reads one file, after `total` bytes in earlier ones.
fn read_one<L: Library>(
    alloc: Global,
    name: &Text,
    total: u32,
    library: &mut L,
) -> Result<Answer, LoadStop>
    requires { total ≤ MOST_TEXT }
    ensures later { IsLater (L.seen library.old) (L.seen library.new) }
    ensures name { IfOk result (λ answer. (see_answer answer).name ≡ name.now) }
    ensures answers { IfOk result (λ answer. AreAnswers (L.seen library.old) (L.seen library.new) total (see_answer answer ∷ [])) }
    ensures gained { IfOk result (λ answer. HasGiven (L.seen library.old) (L.seen library.new) (name.now ∷ []) (see_answer answer ∷ [])) }
    ensures put { IfErr result (IsPut (L.seen library.old).asked (L.seen library.new).asked name.now) }
    ensures stops { IfErr result (StopsAt (L.seen library.old) (L.seen library.new) (L.seen library.old).answers name.now total) }
{
    let key = Text::new(alloc, name.as_str())?;
    let mut room = Vec::new(alloc);
    match library.read(name.as_str(), MOST_BYTES, &mut room) {
        Read::Found => answer_of(key, room, total),
        Read::Absent => Ok(Answer {
            name: key,
            bytes: None,
        }),
        Read::Failed => Err(LoadStop::ReadFault(key)),
        Read::NoMemory => Err(LoadStop::NoMemory),
    }
}

/// The answer with these bytes, unless they are too many.
fn answer_of(name: Text, bytes: Vec<u8>, total: u32) -> Result<Answer, LoadStop>
    requires { total ≤ MOST_TEXT }
    ensures answer { IfOk result (λ answer. see_answer answer ≡ record { name = name; text = Some bytes.items }) }
    ensures fits { OnOk result ((length bytes.items ≤ MOST_BYTES) × (total + length bytes.items ≤ MOST_TEXT)) }
    ensures stops { IfErr result (IsTooLong name (length bytes.items) total) }
{
    if bytes.len() > MOST_BYTES as usize {
        return Err(LoadStop::FileTooLarge(name));
    }
    if bytes.len() > (MOST_TEXT - total) as usize {
        return Err(LoadStop::TooMuchText);
    }
    Ok(Answer {
        name,
        bytes: Some(bytes),
    })
}
