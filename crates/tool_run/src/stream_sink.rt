ghost use Rattle.std.specs.Prelude.{◌≡◌, ◌≤◌, ◌<◌, true, None, length};
ghost use Rattle.std.specs.Io.KnownBytes.{Keeps};
ghost use Rattle.tool_run.specs.declared.sink.TheConstants.{MOST_PUT};
ghost use Rattle.tool_run.specs.Sink.{sink_seen, PutIs, FlushIs};
ghost use Rattle.tool_run.specs.StreamSink.{WroteIs};

use crate::sink::{Flushed, Put, Sink};
use std::io::Write;

/// A sink over a stream, of which each put is one write. Contracts know nothing of what the stream
/// does with the bytes.
#[derive(Drop)]
pub struct StreamSink<W: Write + Drop> {
    writer: W,
    faults: u64,
    settled: bool,
}

impl<W: Write + Drop> StreamSink<W> {
    /// A sink over the stream, before any put.
    pub fn new(writer: W) -> StreamSink<W>
        ensures writer { result.writer ≡ writer }
        ensures faults { result.faults ≡ 0 }
        ensures settled { result.settled ≡ true }
    {
        StreamSink {
            writer,
            faults: 0,
            settled: true,
        }
    }
}

impl<W: Write + Drop> Sink for StreamSink<W> {
    ghost seen = { λ s. sink_seen None s.faults s.settled };

    fn put(&mut self, bytes: &[u8]) -> Put
        requires some { 0 < length bytes.now }
        requires most { length bytes.now ≤ MOST_PUT }
        ensures put { PutIs bytes.now (sink_seen None self.old.faults self.old.settled) (sink_seen None self.new.faults self.new.settled) result }
        ensures faults_kept { self.old.faults ≤ self.new.faults }
        ensures wrote { WroteIs bytes.now (W.contents self.old.writer) (W.contents self.new.writer) result }
    {
        match self.writer.write(bytes) {
            Ok(count) if count > 0 => {
                self.settled = false;
                Put::Took(count as u32)
            }
            _ => {
                self.faults = self.faults.saturating_add(1);
                Put::Failed
            }
        }
    }

    fn flush(&mut self) -> Flushed
        ensures flush { FlushIs (sink_seen None self.old.faults self.old.settled) (sink_seen None self.new.faults self.new.settled) result }
        ensures faults_kept { self.old.faults ≤ self.new.faults }
        ensures keeps { Keeps (W.contents self.old.writer) (W.contents self.new.writer) }
    {
        match self.writer.flush() {
            Ok(()) => {
                self.settled = true;
                Flushed::Done
            }
            Err(_) => {
                self.faults = self.faults.saturating_add(1);
                Flushed::Failed
            }
        }
    }
}
