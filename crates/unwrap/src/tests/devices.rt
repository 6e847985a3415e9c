//! What no clause says of devices: that memory was there, and what a stream does.

use crate::devices::memory::MemoryShelf;
use crate::devices::shelf::ShelfError;
use crate::devices::sink::Sink;
use crate::devices::stream::StreamSink;
use crate::run::run;
use crate::status::Status;
use crate::tests::{check_files, long_shelf, same, sink_of, words_of};
use enc_io::{Failed, StreamSource};
use std::alloc::{AllocError, Global};
use std::io;
use std::io::{Error, ErrorKind, Read, Write};
use std::process::Abort;
use std::test::Fail;

// A piece, and what a sink answers to it.
type Call = (&'static [u8], Result<usize, Failed>);

fn check_write<K: Sink>(rt: &impl Abort, sink: &mut K, piece: &[u8], want: Result<usize, Failed>) {
    let written = sink.write(piece);
    same(rt, &written, &want, &piece);
}

fn check_writes<K: Sink>(rt: &impl Abort, sink: &mut K, rows: &[Call]) {
    for row in rows {
        let (piece, want) = *row;
        check_write(rt, sink, piece, want);
    }
}

// Of a sink with room for four bytes that takes three a call and fails at the second.
const MEMORY_WRITES: [Call; 5] = [
    (b"abcd", Ok(3)),
    (b"d", Err(Failed)),
    (b"de", Ok(1)),
    (b"e", Err(Failed)),
    (b"", Ok(0)),
];

#[test]
fn memory_sink(rt: HostRuntime) -> Result<(), Fail> {
    let mut sink = sink_of(rt.alloc(), 4, 3, 2)?;
    check_writes(&rt, &mut sink, &MEMORY_WRITES);
    same(&rt, &sink.taken(), &b"abcd".as_slice(), &"taken");
    Ok(())
}

// Of a shelf that fails at the second call.
const FETCHES: [(&str, Result<usize, ShelfError>); 5] = [
    ("a", Ok(1)),
    ("long", Err(ShelfError::Failed)),
    ("long", Err(ShelfError::TooLong)),
    ("full", Ok(4_194_304)),
    ("b", Err(ShelfError::Failed)),
];

#[test]
fn memory_shelf(rt: HostRuntime) -> Result<(), Fail> {
    let mut shelf = long_shelf(rt.alloc(), 2)?;
    check_files(&rt, rt.alloc(), &mut shelf, &FETCHES);
    Ok(())
}

// A writer that takes two bytes of each write into a vector, and fails to flush the second time.
#[derive(Drop)]
struct Short {
    written: Vec<u8>,
    flushes: u8,
}

impl Write for Short {
    fn write(&mut self, buf: &[u8]) -> io::Result<usize> {
        let n = buf.len().min(2);
        self.written.extend_from_slice(&buf[..n])?;
        Ok(n)
    }

    fn flush(&mut self) -> io::Result<()> {
        if self.flushes == 1 {
            return Err(Error::from(ErrorKind::BrokenPipe));
        }
        self.flushes = 1;
        Ok(())
    }
}

// A writer that takes nothing, and a reader that fails.
#[derive(Drop)]
struct Closed;

impl Write for Closed {
    fn write(&mut self, _buf: &[u8]) -> io::Result<usize> {
        Ok(0)
    }

    fn flush(&mut self) -> io::Result<()> {
        Ok(())
    }
}

impl Read for Closed {
    fn read(&mut self, _buf: &mut [u8]) -> io::Result<usize> {
        Err(Error::from(ErrorKind::BrokenPipe))
    }
}

const SHORT_WRITES: [Call; 2] = [(b"abc", Ok(2)), (b"c", Err(Failed))];

const CLOSED_WRITES: [Call; 2] = [(b"a", Err(Failed)), (b"", Ok(0))];

#[test]
fn stream_sink(rt: HostRuntime) -> Result<(), Fail> {
    let mut short = Short {
        written: Vec::new(rt.alloc()),
        flushes: 0,
    };
    let mut sink = StreamSink::new(&mut short);
    check_writes(&rt, &mut sink, &SHORT_WRITES);
    same(&rt, &short.written.as_slice(), &b"abc".as_slice(), &"short");
    let mut sink = StreamSink::new(Closed);
    check_writes(&rt, &mut sink, &CLOSED_WRITES);
    Ok(())
}

// How `unwrap` ends over a reader and a writer, where notes can't be written.
fn unwrap_streams<R: Read + Drop, W: Write + Drop>(
    alloc: Global,
    reader: R,
    writer: W,
) -> Result<Status, AllocError> {
    let words = words_of(alloc, "unwrap")?;
    let mut shelf = MemoryShelf::new(Vec::new(alloc), Vec::new(alloc));
    let source = StreamSource::new(reader);
    let mut out = StreamSink::new(writer);
    let mut notes = StreamSink::new(Closed);
    Ok(run(alloc, &words, &mut shelf, source, &mut out, &mut notes).status)
}

#[test]
fn streams(rt: HostRuntime) -> Result<(), Fail> {
    let alloc = rt.alloc();
    let mut written = Vec::new(alloc);
    let header = b"=?us-ascii?Q?a=20b?=".as_slice();
    let status = unwrap_streams(alloc, header, &mut written)?;
    same(&rt, &status, &Status::Done, &"written");
    same(&rt, &written.as_slice(), &b"a b".as_slice(), &"written");
    let status = unwrap_streams(alloc, b"a".as_slice(), Closed)?;
    same(&rt, &status, &Status::WriteFault, &"a closed writer");
    let status = unwrap_streams(alloc, Closed, Closed)?;
    same(&rt, &status, &Status::ReadFault, &"a closed reader");
    Ok(())
}
