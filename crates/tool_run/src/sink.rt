ghost use Rattle.std.specs.Prelude.{◌≤◌, ◌<◌, length};
ghost use Rattle.tool_run.specs.declared.sink.TheConstants.{MOST_PUT};
ghost use Rattle.tool_run.specs.Sink.{SinkSeen, PutIs, FlushIs};

/// How many bytes are put at once at most.
pub const MOST_PUT: usize = 65_536;

/// What a sink returns for a put: how many of the bytes it took, from the first on, or that it
/// failed and took none.
#[derive(Clone, Copy, Debug, PartialEq, Eq)]
pub enum Put {
    Took(u32),
    Failed,
}

/// What a sink returns for a flush.
#[derive(Clone, Copy, Debug, PartialEq, Eq)]
pub enum Flushed {
    Done,
    Failed,
}

/// Where a run puts its bytes. A sink may declare the bytes that it has taken. It counts its
/// failures, and it is settled if nothing was put since the last flush that succeeded.
pub trait Sink {
    ghost seen: { Self → SinkSeen };

    /// Takes some of the bytes, of which there are 1 to 65,536.
    fn put(&mut self, bytes: &[u8]) -> Put
        requires some { 0 < length bytes.now }
        requires most { length bytes.now ≤ MOST_PUT }
        ensures put { PutIs bytes.now (seen self.old) (seen self.new) result }
        ensures faults_kept { (seen self.old).faults ≤ (seen self.new).faults };

    /// Flushes the sink: it is settled if that succeeds.
    fn flush(&mut self) -> Flushed
        ensures flush { FlushIs (seen self.old) (seen self.new) result }
        ensures faults_kept { (seen self.old).faults ≤ (seen self.new).faults };
}
