//! The arguments of a command line.

use prolog_tokens::Text;
use std::alloc::{AllocError, Global};
use std::env;
use std::io::ErrorKind;
use std::rt::Env;

/// One empty argument, which no valid command line has.
fn empty_word(alloc: Global) -> Result<Vec<Text>, AllocError> {
    let mut words = Vec::new(alloc);
    words.push(Text::new(alloc, "")?)?;
    Ok(words)
}

/// The arguments after the program's name. If one of them isn't text, the result is one empty
/// argument instead, so that they aren't valid.
pub fn words<R: Env + AllocGlobal>(rt: &R) -> Result<Vec<Text>, AllocError> {
    let alloc = rt.alloc();
    let args = match env::args(rt) {
        Ok(args) => args,
        Err(error) => {
            return match error.kind() {
                ErrorKind::OutOfMemory => Err(AllocError),
                _ => empty_word(alloc),
            };
        }
    };
    let mut words = Vec::new(alloc);
    for word in args.skip(1) {
        words.push(Text::new(alloc, &word)?)?;
    }
    Ok(words)
}
