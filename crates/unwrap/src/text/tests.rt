//! What no clause says: which bytes are written over devices that fail, and how a source is asked.

use crate::devices::memory::MemorySink;
use crate::header::unwrap_header;
use crate::tests::{same, sink_of, source_of};
use crate::text::{CopyFault, copy_text};
use enc_front::{Decoder, Encoding, Tables};
use enc_io::{DecodeReaderBytes, DecodeReaderBytesBuilder, Failed, MemorySource, Source};
use std::alloc::Global;
use std::process::Abort;
use std::test::Fail;
use words::RecoverStrategy;

// A mark of UTF-16LE, a letter, and half a surrogate pair; and the text of these bytes.
const STREAM: &[u8] = b"\xFF\xFEa\0\0\xD8";

const TEXT: &[u8] = b"a\xEF\xBF\xBD";

// A source that gives these bytes one by one, and keeps the greatest length that it was asked for.
#[derive(Drop)]
struct Watched {
    rest: &'static [u8],
    longest: usize,
    calls: u64,
}

impl Source for Watched {
    ghost use Rattle.std.specs.Prelude.{None};

    ghost left = { λ _. None };

    ghost faults = { λ _. 0 };

    ghost calls = { λ s. s.calls };

    fn read(&mut self, buf: &mut [u8]) -> Result<usize, Failed> {
        self.calls = self.calls.saturating_add(1);
        if buf.len() > self.longest {
            self.longest = buf.len();
        }
        let rest = self.rest;
        if rest.is_empty() || buf.is_empty() {
            return Ok(0);
        }
        buf[0] = rest[0];
        self.rest = &rest[1..];
        Ok(1)
    }
}

// A source that ends at its second call, and gives bytes again behind its end.
#[derive(Drop)]
struct Again {
    calls: u64,
}

impl Source for Again {
    ghost use Rattle.std.specs.Prelude.{None};

    ghost left = { λ _. None };

    ghost faults = { λ _. 0 };

    ghost calls = { λ s. s.calls };

    fn read(&mut self, buf: &mut [u8]) -> Result<usize, Failed> {
        self.calls = self.calls.saturating_add(1);
        if self.calls == 2 || buf.len() < 2 {
            return Ok(0);
        }
        buf[0] = b'a';
        buf[1] = b'b';
        Ok(2)
    }
}

// A reader of the stream, whose source gives byte by byte and fails at this call.
fn reader_of<'t>(
    alloc: Global,
    tables: &'t Tables,
    failing: u64,
) -> Result<DecodeReaderBytes<'t, MemorySource>, Fail> {
    let source = source_of(alloc, STREAM, 1, failing)?;
    let built = DecodeReaderBytesBuilder::new().build(alloc, tables, source);
    Ok(built.map_err(|_| "not built")?)
}

// What a copy in pieces of three bytes answers.
fn copied(
    reader: &mut DecodeReaderBytes<'_, MemorySource>,
    out: &mut MemorySink,
) -> Result<u64, CopyFault> {
    let mut piece = [0; 3];
    copy_text(reader, &mut piece, out)
}

fn check_read(
    rt: &impl Abort,
    alloc: Global,
    call: u64,
    want: Result<u64, CopyFault>,
) -> Result<(), Fail> {
    let tables = Tables::new();
    let mut reader = reader_of(alloc, &tables, call)?;
    let mut out = sink_of(alloc, 16, 16, 0)?;
    let first = copied(&mut reader, &mut out);
    same(rt, &first, &want, &call);
    let rest = copied(&mut reader, &mut out);
    same(rt, &rest.is_ok(), &true, &call);
    same(rt, &out.taken(), &TEXT, &call);
    Ok(())
}

// Six calls give the bytes and the seventh the end, so the eighth doesn't come.
#[test]
fn goes_on_behind_each_failed_read(rt: HostRuntime) -> Result<(), Fail> {
    for call in 1..8 {
        check_read(&rt, rt.alloc(), call, Err(CopyFault::ReadFault))?;
    }
    check_read(&rt, rt.alloc(), 8, Ok(4))
}

// Calls of a sink that fail, and what was written before.
const WRITES: [(u64, &[u8]); 4] = [(1, b""), (2, b"a"), (3, b"a\xEF"), (4, b"a\xEF\xBF")];

fn check_write(rt: &impl Abort, alloc: Global, call: u64, front: &[u8]) -> Result<(), Fail> {
    let tables = Tables::new();
    let mut reader = reader_of(alloc, &tables, 0)?;
    let mut out = sink_of(alloc, 16, 1, call)?;
    let answer = copied(&mut reader, &mut out);
    same(rt, &answer, &Err(CopyFault::WriteFault), &call);
    same(rt, &out.taken(), &front, &call);
    Ok(())
}

#[test]
fn stops_at_each_failed_write(rt: HostRuntime) -> Result<(), Fail> {
    for row in &WRITES {
        let (call, front) = *row;
        check_write(&rt, rt.alloc(), call, front)?;
    }
    Ok(())
}

// The header text of a stream, read through a buffer of four bytes; and the source behind it.
fn text_of<S: Source + Drop>(alloc: Global, source: S) -> Result<(String, S), Fail> {
    let tables = Tables::new();
    let builder = DecodeReaderBytesBuilder::new();
    let end = unwrap_header(
        alloc,
        source,
        &tables,
        &builder,
        RecoverStrategy::Abort,
        4,
        64,
    );
    Ok((end.answer.map_err(|_| "no text")?, end.source))
}

#[test]
fn asks_for_a_buffer_at_most(rt: HostRuntime) -> Result<(), Fail> {
    let source = Watched {
        rest: b"\xFF\xFEh\0e\0l\0l\0o\0",
        longest: 0,
        calls: 0,
    };
    let (text, source) = text_of(rt.alloc(), source)?;
    same(&rt, &text.as_str(), &"hello", &"a text");
    same(&rt, &(source.longest <= 4), &true, &"longest");
    Ok(())
}

#[test]
fn asks_no_source_behind_its_end(rt: HostRuntime) -> Result<(), Fail> {
    let (text, source) = text_of(rt.alloc(), Again { calls: 0 })?;
    same(&rt, &text.as_str(), &"ab", &"a text");
    same(&rt, &source.calls, &2, &"calls");
    Ok(())
}

// Decodes all of a piece, and appends its text.
fn decode_piece(
    rt: &impl Abort,
    decoder: &mut Decoder,
    piece: &[u8],
    last: bool,
    text: &mut Vec<u8>,
) -> Result<(), Fail> {
    assert!(rt; !decoder.is_finished());
    let mut dst = [0; 16];
    let (_, read, written, _) = decoder.decode_to_utf8(piece, &mut dst, last);
    text.extend_from_slice(&dst[..written])?;
    same(rt, &read, &piece.len(), &piece);
    Ok(())
}

// Decodes the bytes cut at a place as windows-1252, which marks don't change here.
fn check_cut(
    rt: &impl Abort,
    alloc: Global,
    bytes: &[u8],
    cut: usize,
    want: &[u8],
) -> Result<(), Fail> {
    assert!(rt; cut <= bytes.len());
    let tables = Tables::new();
    assert!(rt; tables.has(Encoding::Windows1252));
    let mut decoder = Decoder::new(Encoding::Windows1252, &tables);
    let mut text = Vec::new(alloc);
    decode_piece(rt, &mut decoder, &bytes[..cut], false, &mut text)?;
    decode_piece(rt, &mut decoder, &bytes[cut..], true, &mut text)?;
    same(rt, &text.as_slice(), &want, &cut);
    Ok(())
}

fn check_cuts(rt: &impl Abort, alloc: Global, bytes: &[u8], want: &[u8]) -> Result<(), Fail> {
    for cut in 0..=bytes.len() {
        check_cut(rt, alloc, bytes, cut, want)?;
    }
    Ok(())
}

#[test]
fn cut_marks_are_text(rt: HostRuntime) -> Result<(), Fail> {
    check_cuts(&rt, rt.alloc(), b"\xEF\xBBa", b"\xC3\xAF\xC2\xBBa")?;
    check_cuts(&rt, rt.alloc(), b"\xFEa", b"\xC3\xBEa")?;
    check_cuts(&rt, rt.alloc(), b"\xFF", b"\xC3\xBF")
}
