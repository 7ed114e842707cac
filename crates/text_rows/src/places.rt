ghost use Rattle.std.specs.Prelude.{◌≤◌, length};
ghost use Rattle.prolog_tokens.specs.declared.limits.TheConstants.{MOST_BYTES};

use prolog_tokens::{place_of, places_of};
use std::alloc::{AllocError, Global};

/// The line and the column of an offset, found for it alone and by a pass over several offsets. If
/// there is none, the result of a pass over none.
pub fn place_told(alloc: Global, text: &[u8], offset: Option<u32>) -> Result<String, AllocError>
    requires { length text.now ≤ MOST_BYTES }
{
    let Some(offset) = offset else {
        let swept = places_of(alloc, text, &[])?;
        return format!(in alloc; "{} places", swept.len());
    };
    let end = offset as usize;
    if end > text.len() {
        return String::from_str(alloc, "no offset");
    }
    match str::from_utf8(&text[..end]) {
        Ok(_) => {
            let place = place_of(text, offset);
            let swept = places_of(alloc, text, &[offset])?;
            let agree = swept.as_slice() == [place].as_slice();
            format!(in alloc; "{}:{} swept {agree}", place.line, place.column)
        }
        Err(_) => String::from_str(alloc, "no offset"),
    }
}
