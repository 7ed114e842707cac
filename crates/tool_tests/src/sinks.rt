//! Sinks that take a part of what is put, or fail.

use crate::runs::{library_of, shown, words_of};
use group_tool::{Flushed, MemorySink, OpenGate, Put, Sink, StreamSink, run_groups};
use std::io::{self, Error, ErrorKind, Write};
use std::test::Fail;

const TEXT: &[u8] = b"a :- b, c.\nb :- a.\nc.\n";

const REPORT: &str =
    "predicates 3 groups 2 recursive 1 levels 2\n0 plain user:c/0\n1 recursive user:a/0 user:b/0\n";

/// A sink that takes one byte at a time.
#[derive(Drop)]
struct Dripping<S: Sink + Drop>(S);

impl<S: Sink + Drop> Sink for Dripping<S> {
    ghost seen = { λ s. S.seen s.0 };

    fn put(&mut self, bytes: &[u8]) -> Put {
        self.0.put(&bytes[..1])
    }

    fn flush(&mut self) -> Flushed {
        self.0.flush()
    }
}

#[test]
fn puts_again_from_where_it_was_cut(rt: HostRuntime) -> Result<(), Fail> {
    let alloc = rt.alloc();
    let words = words_of(alloc, &["f.pl"])?;
    let mut library = library_of(alloc, &[("f.pl", TEXT)], &[])?;
    let mut out = Dripping(MemorySink::with_room(alloc, 1000)?);
    let mut err = MemorySink::with_room(alloc, 10)?;
    let status = run_groups(
        &rt,
        alloc,
        &words,
        &mut library,
        &mut out,
        &mut err,
        &OpenGate,
    );
    assert_eq!(rt; (status, shown(&out.0), shown(&err)), (0, REPORT, ""));
    Ok(())
}

/// A stream that takes two bytes at a time, and counts its flushes, until it has taken four.
#[derive(Drop)]
struct Narrow {
    bytes: Vec<u8>,
    flushes: u32,
}

impl Write for Narrow {
    fn write(&mut self, bytes: &[u8]) -> io::Result<usize> {
        if self.bytes.len() >= 4 {
            return Err(Error::from(ErrorKind::BrokenPipe));
        }
        let count = bytes.len().min(2);
        self.bytes.extend_from_slice(&bytes[..count])?;
        Ok(count)
    }

    fn flush(&mut self) -> io::Result<()> {
        if self.bytes.len() >= 4 {
            return Err(Error::from(ErrorKind::BrokenPipe));
        }
        self.flushes = self.flushes.saturating_add(1);
        Ok(())
    }
}

#[test]
fn hands_bytes_and_flushes_on(rt: HostRuntime) -> Result<(), Fail> {
    let mut stream = Narrow {
        bytes: Vec::new(rt.alloc()),
        flushes: 0,
    };
    let mut sink = StreamSink::new(&mut stream);
    assert_eq!(rt; sink.put(b"abc"), Put::Took(2));
    assert_eq!(rt; sink.flush(), Flushed::Done);
    assert_eq!(rt; sink.put(b"c"), Put::Took(1));
    assert_eq!(rt; sink.put(b"de"), Put::Took(2));
    assert_eq!(rt; sink.put(b"f"), Put::Failed);
    assert_eq!(rt; sink.flush(), Flushed::Failed);
    assert_eq!(rt; stream.bytes.as_slice(), b"abcde".as_slice());
    assert_eq!(rt; stream.flushes, 1);
    Ok(())
}
