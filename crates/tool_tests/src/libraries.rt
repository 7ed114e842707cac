//! Files in memory.

use crate::runs::library_of;
use file_library::{Library, Read};
use std::test::Fail;

#[test]
fn reads_files_of_memory(rt: HostRuntime) -> Result<(), Fail> {
    let alloc = rt.alloc();
    let mut library = library_of(alloc, &[("f.pl", b"a.")], &[3])?;
    let mut room = Vec::new(alloc);
    assert_eq!(rt; library.read("f.pl", 1, &mut room), Read::Found);
    assert_eq!(rt; room.as_slice(), b"a.".as_slice());
    room.clear();
    assert_eq!(rt; library.read("g.pl", 1, &mut room), Read::Absent);
    room.clear();
    assert_eq!(rt; library.read("f.pl", 1, &mut room), Read::Failed);
    room.clear();
    assert_eq!(rt; library.read("f.pl", 0, &mut room), Read::Found);
    assert_eq!(rt; room.as_slice(), b"a".as_slice());
    assert_eq!(rt; library.asked().len(), 4);
    Ok(())
}
