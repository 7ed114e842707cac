ghost use Rattle.std.specs.Prelude.{◌≡◌, []};
ghost use Rattle.component_tool.specs.Source.{SourceSeen, SourceReadIs, GivenIs};

/// What a source returns for a read.
#[derive(Clone, Copy, Debug, PartialEq, Eq)]
pub enum SourceRead {
    Found,
    Failed,
    NoMemory,
}

/// Texts by name, of which `-` is standard input. Contracts see it as a `SourceSeen`: the map from
/// names to texts that it means, if it declares one, and what it returned, in order.
pub trait Source {
    ghost seen: { Self → SourceSeen };

    /// Reads the text into the empty buffer: its bytes, or the first 1,073,741,825 of them if it is
    /// longer.
    fn read(&mut self, name: &str, room: &mut Vec<u8>) -> SourceRead
        requires { room.old.items ≡ [] }
        ensures answer { SourceReadIs (seen self.old) name.now room.new.items result }
        ensures given { GivenIs (seen self.old) (seen self.new) name.now room.new.items result };
}
