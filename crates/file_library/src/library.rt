ghost use Rattle.std.specs.Prelude.{◌≡◌, []};
ghost use Rattle.file_library.specs.Library.{LibrarySeen, IsLater, ReadIs, AskedIs, AnsweredIs};

/// What a library returns for a read.
#[derive(Clone, Copy, Debug, PartialEq, Eq)]
pub enum Read {
    Found,
    Absent,
    Failed,
    NoMemory,
}

/// Files by name. Contracts see it as a `LibrarySeen`:
///
/// - the map from names to bytes that it stands for, if it declares one, which doesn't change;
/// - the names that it was asked for and what it returned, in order;
/// - its counts of read failures and of misses, which may rise by more than one for a read, as if
///   it tried again.
pub trait Library {
    ghost seen: { Self → LibrarySeen };

    /// Reads the file into the empty buffer: its bytes, or one byte more than `limit` if it is
    /// longer.
    fn read(&mut self, name: &str, limit: u32, room: &mut Vec<u8>) -> Read
        requires { room.old.items ≡ [] }
        ensures answer { ReadIs (seen self.old) (seen self.new) name.now limit room.new.items result }
        ensures asked { AskedIs (seen self.old).asked (seen self.new).asked name.now result }
        ensures answered { AnsweredIs (seen self.old).answers (seen self.new).answers name.now room.new.items result }
        ensures later { IsLater (seen self.old) (seen self.new) };
}
