//! Runs of the program over readers and writers of the tests' own.
use crate::run::{run, run_on_bytes};
use commands::{Sink, Source};
use ends::{ReadEnd, WriteEnd};
use std::alloc::{AllocError, Global};
use std::io;
use std::io::{ErrorKind, Read, Write};

/// How the ends of a run cut: how many bytes a call moves at most, and at which call it fails, where
/// 0 is none. The reader may give its bytes again and again, and the writer fail at a flush.
#[derive(Clone, Copy)]
pub struct Ends {
    pub reads: usize,
    pub read_fails_at: u32,
    pub is_endless: bool,
    pub writes: usize,
    pub write_fails_at: u32,
    pub flush_works: bool,
}

impl Ends {
    /// Ends that move so many bytes a call at most, and never fail.
    pub fn of(reads: usize, writes: usize) -> Ends {
        Ends {
            reads,
            read_fails_at: 0,
            is_endless: false,
            writes,
            write_fails_at: 0,
            flush_works: true,
        }
    }
}

/// A reader of some bytes, which cuts as the ends say.
#[derive(Drop)]
pub struct Chunks<'a> {
    rest: &'a [u8],
    ends: Ends,
    calls: u32,
}

impl Chunks<'_> {
    /// A reader of these bytes.
    pub fn of(rest: &[u8], ends: Ends) -> Chunks<'_> {
        Chunks {
            rest,
            ends,
            calls: 0,
        }
    }
}

impl Read for Chunks<'_> {
    fn read(&mut self, buf: &mut [u8]) -> io::Result<usize> {
        self.calls = self.calls.saturating_add(1);
        if self.calls == self.ends.read_fails_at {
            return Err(io::Error::from(ErrorKind::Other));
        }
        let count = self.ends.reads.min(buf.len()).min(self.rest.len());
        let (now, later) = self.rest.split_at(count);
        buf[..count].copy_from_slice(now);
        if !self.ends.is_endless {
            self.rest = later;
        }
        Ok(count)
    }
}

/// A writer that cuts as the ends say.
#[derive(Drop)]
struct Slow {
    taken: Vec<u8>,
    ends: Ends,
    calls: u32,
    flushes: u32,
}

impl Write for Slow {
    fn write(&mut self, buf: &[u8]) -> io::Result<usize> {
        self.calls = self.calls.saturating_add(1);
        if self.calls == self.ends.write_fails_at {
            return Err(io::Error::from(ErrorKind::Other));
        }
        let count = self.ends.writes.min(buf.len());
        self.taken.extend_from_slice(&buf[..count])?;
        Ok(count)
    }

    fn flush(&mut self) -> io::Result<()> {
        self.flushes = self.flushes.saturating_add(1);
        if self.ends.flush_works {
            Ok(())
        } else {
            Err(io::Error::from(ErrorKind::Other))
        }
    }
}

/// The words of a command line.
pub fn texts(alloc: Global, words: &[&str]) -> Result<Vec<String>, AllocError> {
    let mut all = Vec::new(alloc);
    for word in words {
        all.push(String::from_str(alloc, word)?)?;
    }
    Ok(all)
}

/// What a run writes, and its status.
pub fn outcome(alloc: Global, words: &[&str], input: &[u8]) -> Result<(Vec<u8>, u8), AllocError> {
    let words = texts(alloc, words)?;
    Ok(run_on_bytes(alloc, &words, input))
}

/// What a run did, in figures.
#[derive(Clone, Copy)]
pub struct Did {
    pub status: u8,
    /// The calls of the reader, of the source over it and of the writer.
    pub reads: u32,
    pub fetches: u32,
    pub writes: u32,
    pub flushes: u32,
    pub source_failed: bool,
    pub source_ended: bool,
    pub sink_failed: bool,
}

/// A run over such ends: what it did, and what it wrote.
pub fn observe(alloc: Global, words: &[String], input: &[u8], ends: Ends) -> (Did, Vec<u8>) {
    let mut source = ReadEnd::new(Chunks::of(input, ends));
    let mut sink = WriteEnd::new(Slow {
        taken: Vec::new(alloc),
        ends,
        calls: 0,
        flushes: 0,
    });
    let status = run(alloc, words, &mut source, &mut sink);
    let fetches = source.calls();
    let (source_failed, source_ended) = (source.failed(), source.ended());
    let sink_failed = sink.failed();
    let reads = source.into_inner().calls;
    let writer = sink.into_inner();
    let did = Did {
        status,
        reads,
        fetches,
        writes: writer.calls,
        flushes: writer.flushes,
        source_failed,
        source_ended,
        sink_failed,
    };
    (did, writer.taken)
}
