ghost use Rattle.std.specs.Prelude.{◌≡◌, ◌≤◌, ◌<◌, true, false, IfOk, length, vec_capacity};
ghost use Rattle.tool_run.specs.declared.sink.TheConstants.{MOST_PUT};

use crate::sink::{Flushed, Put, Sink};
use std::alloc::{AllocError, Global};

/// A sink in memory. It takes bytes while it has capacity, and a put fails if none is left. Either
/// all of its flushes succeed, or all fail.
#[derive(Drop)]
pub struct MemorySink {
    bytes: Vec<u8>,
    room: usize,
    flushes: bool,
    faults: u64,
    settled: bool,
    ghost reserved: { room ≤ vec_capacity bytes },
}

impl MemorySink {
    ghost use Rattle.tool_run.specs.MemorySink.{IsNewSink};

    /// A sink with capacity for `room` bytes.
    pub fn with_room(alloc: Global, room: u32) -> Result<MemorySink, AllocError>
        ensures { IfOk result (λ sink. IsNewSink true room sink) }
    {
        MemorySink::make(alloc, room, true)
    }

    /// A sink whose puts fail after it has taken exactly `bytes` bytes.
    pub fn failing_after(alloc: Global, bytes: u32) -> Result<MemorySink, AllocError>
        ensures { IfOk result (λ sink. IsNewSink true bytes sink) }
    {
        MemorySink::make(alloc, bytes, true)
    }

    /// A sink with capacity for `room` bytes, each of whose flushes fails.
    pub fn failing_flush(alloc: Global, room: u32) -> Result<MemorySink, AllocError>
        ensures { IfOk result (λ sink. IsNewSink false room sink) }
    {
        MemorySink::make(alloc, room, false)
    }

    fn make(alloc: Global, room: u32, flushes: bool) -> Result<MemorySink, AllocError>
        ensures { IfOk result (λ sink. IsNewSink flushes room sink) }
    {
        Ok(MemorySink {
            bytes: Vec::with_capacity(alloc, room as usize)?,
            room: room as usize,
            flushes,
            faults: 0,
            settled: true,
        })
    }

    /// The bytes that the sink has taken.
    pub fn bytes(&self) -> &[u8]
        ensures { result.now ≡ self.now.bytes.items }
    {
        &self.bytes
    }
}

impl Sink for MemorySink {
    ghost use Rattle.tool_run.specs.Sink.{PutIs, FlushIs};
    ghost use Rattle.tool_run.specs.MemorySink.{memory_seen, PutsWithin, IsFlushed};

    ghost seen = { memory_seen };

    fn put(&mut self, bytes: &[u8]) -> Put
        requires some { 0 < length bytes.now }
        requires most { length bytes.now ≤ MOST_PUT }
        ensures put { PutIs bytes.now (memory_seen self.old) (memory_seen self.new) result }
        ensures faults_kept { self.old.faults ≤ self.new.faults }
        ensures within { PutsWithin bytes.now self.old self.new result }
    {
        let left = self.room.saturating_sub(self.bytes.len());
        let count = bytes.len().min(left);
        if count == 0 {
            self.faults = self.faults.saturating_add(1);
            return Put::Failed;
        }
        self.bytes.extend_from_slice(&bytes[..count]).unwrap();
        self.settled = false;
        Put::Took(count as u32)
    }

    fn flush(&mut self) -> Flushed
        ensures flush { FlushIs (memory_seen self.old) (memory_seen self.new) result }
        ensures faults_kept { self.old.faults ≤ self.new.faults }
        ensures done { IsFlushed self.old self.new result }
    {
        if !self.flushes {
            self.faults = self.faults.saturating_add(1);
            return Flushed::Failed;
        }
        self.settled = true;
        Flushed::Done
    }
}
