//! The text of streams under options, in reads of any length, and over faults.
use crate::testing::same;
use crate::*;
use enc_front::{Encoding, Tables};
use std::alloc::Global;
use std::fmt::Debug;
use std::process::Abort;
use std::test::Fail;

// A source that gives two of these bytes, again and again, behind each end too; it counts its
// calls.
#[derive(Drop)]
struct Again {
    calls: u64,
}

impl Source for Again {
    ghost use Rattle.std.specs.Prelude.{None};

    ghost left = { λ _. None };

    ghost faults = { λ _. 0 };

    ghost calls = { λ s. s.calls };

    fn read(&mut self, buf: &mut [u8]) -> Result<usize, Failed> {
        self.calls = self.calls.saturating_add(1);
        if self.calls == 2 || buf.len() < 2 {
            return Ok(0);
        }
        buf[0] = b'a';
        buf[1] = b'b';
        Ok(2)
    }
}

// All that a reader gives in reads of so many bytes, over all faults.
fn read_all(
    rt: &impl Abort,
    alloc: Global,
    reader: &mut DecodeReaderBytes<MemorySource>,
    room: usize,
) -> Result<Vec<u8>, Fail> {
    let mut text = Vec::new(alloc);
    let mut buf = [0; 16];
    assert!(rt; room <= 16);
    for _ in 0..100 {
        match reader.read(&mut buf[..room]) {
            Ok(0) => return Ok(text),
            Ok(count) => text.extend_from_slice(&buf[..count])?,
            Err(ReadError::ReadFault) => {}
            Err(ReadError::TooMuch) => Err("too much")?,
        }
    }
    Err("no end")?
}

// A builder with the encoding of this label, if any, and these options: p for the pass-through of
// UTF-8, s for marks that are stripped, o for marks that override, n for no sniffing.
fn builder(label: &str, options: &str) -> DecodeReaderBytesBuilder {
    let options = options.as_bytes();
    let mut builder = DecodeReaderBytesBuilder::new();
    builder.encoding(Encoding::for_label(label.as_bytes()));
    builder.utf8_passthru(options.contains(&b'p'));
    builder.strip_bom(options.contains(&b's'));
    builder.bom_override(options.contains(&b'o'));
    builder.bom_sniffing(!options.contains(&b'n'));
    builder
}

// A source of these bytes, which gives at most so many at a call, and fails at the call of this
// number; no call has the number 0.
fn source_of(
    rt: &impl Abort,
    alloc: Global,
    bytes: &[u8],
    step: usize,
    failing: u64,
) -> Result<MemorySource, Fail> {
    assert!(rt; 1 <= step);
    let bytes = Vec::from_slice(alloc, bytes)?;
    let failing = Vec::from_slice(alloc, &[failing])?;
    Ok(MemorySource::new(bytes, step, failing))
}

// The reader that was made.
fn made<T, E: Drop>(built: Result<T, E>) -> Result<T, Fail> {
    Ok(built.ok().ok_or("not built")?)
}

// A reader of a source, with these options and a buffer of four bytes.
fn reader_of<'t>(
    alloc: Global,
    tables: &'t Tables,
    options: (&str, &str),
    source: MemorySource,
) -> Result<DecodeReaderBytes<'t, MemorySource>, Fail> {
    let buffer = Vec::from_slice(alloc, &[0; 4])?;
    made(builder(options.0, options.1).build_with_buffer(tables, source, buffer))
}

// Reads all that a reader gives, in reads of so many bytes, and once more.
fn check_text(
    rt: &impl Abort,
    alloc: Global,
    mut reader: DecodeReaderBytes<MemorySource>,
    room: usize,
    want: &[u8],
    name: &impl Debug,
) -> Result<(), Fail> {
    let text = read_all(rt, alloc, &mut reader, room)?;
    same(rt, &text.as_slice(), &want, name);
    let mut buf = [0; 4];
    same(rt, &reader.read(&mut buf), &Ok(0), name);
    Ok(())
}

// A label, options, bytes, and their text.
type Row = (&'static str, &'static str, &'static [u8], &'static [u8]);

const ROWS: [Row; 29] = [
    ("", "", b"", b""),
    ("", "", b"\xff\xfe\x61\x00\x00", b"a\xef\xbf\xbd"),
    ("", "", b"\xff\xfef\0o\0o\0b\0a\0r\0", b"foobar"),
    ("", "", b"\xff\xfe", b"\xff\xfe"),
    ("", "s", b"\xff\xfe", b""),
    ("", "", b"\xef\xbb\xbf\xef\xbb\xbfa", b"\xef\xbb\xbfa"),
    ("", "s", b"\xef\xbb\xbf\xef\xbb\xbfa", b"a"),
    (
        "",
        "p",
        b"\xef\xbb\xbffoo\xffbar",
        b"\xef\xbb\xbffoo\xffbar",
    ),
    ("", "ps", b"\xef\xbb\xbffoo\xffbar", b"foo\xffbar"),
    ("", "", b"\xfe\xff", b"\xfe\xff"),
    ("", "", b"\xef\xbb\xbf", b""),
    ("", "p", b"\xef\xbb\xbf", b"\xef\xbb\xbf"),
    ("", "", b"\xff\xfea\0", b"a"),
    ("", "s", b"\xff\xfea\0", b"a"),
    ("utf-8", "o", b"\xff\xfea\0", b"a"),
    ("", "", b"\xff\xfea\0b\0c\0", b"abc"),
    ("", "n", b"\xff\xfea\0", b"\xff\xfea\0"),
    ("", "ns", b"\xff\xfea\0", b"a\0"),
    ("utf-16le", "n", b"\xff\xfea\0", b"a"),
    ("utf-16le", "ns", b"\xff\xfea\0", b"a"),
    ("", "", b"\xd0\x96", b"\xd0\x96"),
    ("utf-8", "", b"\xd0\x96", b"\xd0\x96"),
    ("utf-16le", "", b"\x16\x04", b"\xd0\x96"),
    ("utf-16be", "", b"\x04\x16", b"\xd0\x96"),
    ("windows-1252", "", b"\xa9", b"\xc2\xa9"),
    ("windows-1252", "", b"\xef\xbba", b"\xc3\xaf\xc2\xbba"),
    ("windows-1252", "", b"\xfea", b"\xc3\xbea"),
    ("windows-1252", "", b"\xff", b"\xc3\xbf"),
    (
        "utf-8",
        "",
        b"\xf0\x9f\x98\x80\xf0\x9f",
        b"\xf0\x9f\x98\x80\xef\xbf\xbd",
    ),
];

// How many bytes a source gives at a call, and how many are read at once.
const STEPS: [usize; 3] = [1, 3, 100];

const ROOMS: [usize; 4] = [1, 3, 4, 16];

// Compares the text of bytes, in steps and reads of each length.
fn check_row(
    rt: &impl Abort,
    alloc: Global,
    tables: &Tables,
    options: (&str, &str),
    bytes: &[u8],
    text: &[u8],
) -> Result<(), Fail> {
    for step in &STEPS {
        for room in &ROOMS {
            let source = source_of(rt, alloc, bytes, *step, 0)?;
            let reader = reader_of(alloc, tables, options, source)?;
            check_text(rt, alloc, reader, *room, text, &(bytes, *step, *room))?;
        }
    }
    Ok(())
}

#[test]
fn gives_the_text_of_a_stream(rt: HostRuntime) -> Result<(), Fail> {
    let tables = Tables::new();
    for row in &ROWS {
        let (label, options, bytes, text) = *row;
        check_row(&rt, rt.alloc(), &tables, (label, options), bytes, text)?;
    }
    Ok(())
}

// How many bytes are read, and what the read gives.
type Read = (usize, Result<&'static [u8], ReadError>);

fn check_read(
    rt: &impl Abort,
    reader: &mut DecodeReaderBytes<MemorySource>,
    room: usize,
    want: Result<&[u8], ReadError>,
) {
    let mut buf = [0; 8];
    assert!(rt; room <= 8);
    let got = match reader.read(&mut buf[..room]) {
        Ok(count) => Ok(&buf[..count]),
        Err(error) => Err(error),
    };
    same(rt, &got, &want, &room);
}

fn check_reads(rt: &impl Abort, mut reader: DecodeReaderBytes<MemorySource>, reads: &[Read]) {
    for read in reads {
        let (room, want) = *read;
        check_read(rt, &mut reader, room, want);
    }
}

const PIECES: [Read; 8] = [
    (0, Ok(b"")),
    (1, Ok(b"a")),
    (0, Ok(b"")),
    (1, Ok(b"b")),
    (0, Ok(b"")),
    (1, Ok(b"c")),
    (1, Ok(b"")),
    (1, Ok(b"")),
];

#[test]
fn gives_piece_by_piece(rt: HostRuntime) -> Result<(), Fail> {
    let tables = Tables::new();
    let source = source_of(&rt, rt.alloc(), b"\xff\xfea\0b\0c\0", 100, 0)?;
    let reader = made(DecodeReaderBytes::new(rt.alloc(), &tables, source))?;
    check_reads(&rt, reader, &PIECES);
    Ok(())
}

const FAULTY: [Read; 3] = [(8, Err(ReadError::ReadFault)), (8, Ok(b"f")), (8, Ok(b""))];

#[test]
fn goes_on_behind_a_fault(rt: HostRuntime) -> Result<(), Fail> {
    let tables = Tables::new();
    let source = source_of(&rt, rt.alloc(), b"\xff\xfef\0", 1, 2)?;
    let reader = made(DecodeReaderBytesBuilder::new().build(rt.alloc(), &tables, source))?;
    check_reads(&rt, reader, &FAULTY);
    Ok(())
}

#[test]
fn loses_nothing_by_a_fault(rt: HostRuntime) -> Result<(), Fail> {
    let tables = Tables::new();
    let alloc = rt.alloc();
    for failing in 1..9 {
        for room in &ROOMS {
            let source = source_of(&rt, alloc, b"\xff\xfea\0\0\xd8", 1, failing)?;
            let reader = reader_of(alloc, &tables, ("", ""), source)?;
            check_text(&rt, alloc, reader, *room, b"a\xef\xbf\xbd", &failing)?;
        }
    }
    Ok(())
}

// A limit, bytes, and whether it is enough for them.
type LimitRow = (usize, &'static [u8], bool);

const LIMITS: [LimitRow; 6] = [
    (3, b"abc", true),
    (3, b"abcd", false),
    (0, b"", true),
    (0, b"a", false),
    (1, b"ab", false),
    (4, b"\xff\xfea\0b", false),
];

// What the ninth read gives, and one of no bytes behind it.
fn check_last(
    rt: &impl Abort,
    mut reader: DecodeReaderBytes<MemorySource>,
    is_enough: bool,
    name: &impl Debug,
) {
    let last = if is_enough {
        Ok(0)
    } else {
        Err(ReadError::TooMuch)
    };
    let mut buf = [0; 4];
    let mut answer = reader.read(&mut buf);
    for _ in 0..8 {
        answer = reader.read(&mut buf);
    }
    same(rt, &answer, &last, name);
    same(rt, &reader.read(&mut buf[..0]), &Ok(0), name);
}

// A builder of readers with a limit.
fn limited(rt: &impl Abort, limit: usize) -> DecodeReaderBytesBuilder {
    assert!(rt; limit < usize::MAX);
    let mut builder = DecodeReaderBytesBuilder::new();
    builder.limit(limit);
    builder
}

#[test]
fn keeps_to_the_limit(rt: HostRuntime) -> Result<(), Fail> {
    let tables = Tables::new();
    let alloc = rt.alloc();
    for row in &LIMITS {
        let (limit, bytes, is_enough) = *row;
        for step in &STEPS {
            let source = source_of(&rt, alloc, bytes, *step, 0)?;
            let reader = made(limited(&rt, limit).build(alloc, &tables, source))?;
            check_last(&rt, reader, is_enough, &(bytes, *step));
        }
    }
    Ok(())
}

fn check_count(rt: &impl Abort, reader: &mut DecodeReaderBytes<Again>, want: usize) {
    let mut buf = [0; 8];
    same(rt, &reader.read(&mut buf), &Ok(want), &want);
}

#[test]
fn asks_no_source_behind_its_end(rt: HostRuntime) -> Result<(), Fail> {
    let tables = Tables::new();
    let again = Again { calls: 0 };
    let mut reader = made(DecodeReaderBytes::new(rt.alloc(), &tables, again))?;
    check_count(&rt, &mut reader, 2);
    for _ in 0..3 {
        check_count(&rt, &mut reader, 0);
    }
    same(&rt, &reader.into_inner().calls, &2, &"calls");
    Ok(())
}

// No reader is made with a buffer of so many bytes. Hands the source back.
fn check_refused(
    rt: &impl Abort,
    alloc: Global,
    builder: &DecodeReaderBytesBuilder,
    source: Again,
    len: usize,
    want: BuildError,
) -> Result<Again, Fail> {
    assert!(rt; len <= 4);
    let tables = Tables::new();
    let buffer = Vec::from_slice(alloc, &[0; 4][..len])?;
    let built = builder.build_with_buffer(&tables, source, buffer);
    let Err((source, buffer, error)) = built else {
        return Err(Fail::from("built"));
    };
    same(
        rt,
        &(error, buffer.len(), source.calls),
        &(want, len, 0),
        &len,
    );
    Ok(source)
}

// The same without a buffer.
fn check_none(
    rt: &impl Abort,
    alloc: Global,
    builder: &DecodeReaderBytesBuilder,
    source: Again,
    want: BuildError,
) -> Result<Again, Fail> {
    let tables = Tables::new();
    let Err((source, error)) = builder.build(alloc, &tables, source) else {
        return Err(Fail::from("built"));
    };
    same(rt, &(error, source.calls), &(want, 0), &"no buffer");
    Ok(source)
}

// A source, and the length of a buffer, as a reader of both hands them back.
fn parts_of(
    alloc: Global,
    builder: &DecodeReaderBytesBuilder,
    source: Again,
) -> Result<(Again, usize), Fail> {
    let tables = Tables::new();
    let buffer = Vec::from_slice(alloc, &[0; 4])?;
    let reader = made(builder.build_with_buffer(&tables, source, buffer))?;
    let (source, buffer) = reader.into_parts();
    Ok((source, buffer.len()))
}

#[test]
fn hands_back_what_it_was_made_of(rt: HostRuntime) -> Result<(), Fail> {
    let alloc = rt.alloc();
    let mut builder = DecodeReaderBytesBuilder::default().clone()?;
    let again = Again { calls: 0 };
    let source = check_refused(&rt, alloc, &builder, again, 3, BuildError::TooSmall(3))?;
    let (source, len) = parts_of(alloc, &builder, source)?;
    same(&rt, &len, &4, &"buffer");
    builder.encoding(Some(Encoding::Big5));
    let want = BuildError::NoTable(Encoding::Big5);
    let source = check_none(&rt, alloc, &builder, source, want)?;
    check_refused(&rt, alloc, &builder, source, 4, want)?;
    Ok(())
}
