//! The first bytes of a stream, looked at and read.
use super::*;
use crate::memory::MemorySource;
use crate::testing::same;
use enc_front::Encoding;
use std::alloc::Global;
use std::process::Abort;
use std::test::Fail;

// A source of these bytes, which gives two at a time and fails at the calls of these numbers.
fn source(alloc: Global, bytes: &[u8], failing: &[u64]) -> Result<MemorySource, Fail> {
    let failing = Vec::from_slice(alloc, failing)?;
    Ok(MemorySource::new(Vec::from_slice(alloc, bytes)?, 2, failing))
}

// All that a reader still gives in reads of so many bytes, over all faults.
fn read_all(
    rt: &impl Abort,
    alloc: Global,
    peeker: &mut BomPeeker<MemorySource>,
    room: usize,
) -> Result<Vec<u8>, Fail> {
    let mut bytes = Vec::new(alloc);
    let mut buf = [0; 8];
    assert!(rt; room <= 8);
    for _ in 0..40 {
        match peeker.read(&mut buf[..room]) {
            Ok(0) => return Ok(bytes),
            Ok(count) => bytes.extend_from_slice(&buf[..count])?,
            Err(Failed) => {}
        }
    }
    Err("no end")?
}

fn check_all(
    rt: &impl Abort,
    alloc: Global,
    peeker: &mut BomPeeker<MemorySource>,
    room: usize,
    want: &[u8],
) -> Result<(), Fail> {
    let all = read_all(rt, alloc, peeker, room)?;
    same(rt, &all.as_slice(), &want, &room);
    Ok(())
}

// Bytes, and how many of them are looked at.
type Row = (&'static [u8], usize);

const ROWS: [Row; 5] = [
    (b"", 0),
    (b"\x01", 1),
    (b"\x01\x02", 2),
    (b"\x01\x02\x03", 3),
    (b"\x01\x02\x03\x04", 3),
];

fn check_peek(rt: &impl Abort, alloc: Global, bytes: &[u8], len: usize) -> Result<(), Fail> {
    let mut peeker = BomPeeker::with_bom(source(alloc, bytes, &[])?);
    let bom = peeker.peek_bom().ok().ok_or("failed")?;
    same(rt, &(bom.len, bom.encoding()), &(len, None), &bytes);
    same(rt, &peeker.peek_bom(), &Ok(bom), &bytes);
    check_all(rt, alloc, &mut peeker, 1, bytes)?;
    same(rt, &peeker.peek_bom(), &Ok(bom), &bytes);
    Ok(())
}

#[test]
fn peeks_up_to_three_bytes(rt: HostRuntime) -> Result<(), Fail> {
    for row in &ROWS {
        let (bytes, len) = *row;
        check_peek(&rt, rt.alloc(), bytes, len)?;
    }
    Ok(())
}

// Bytes, the encoding of their mark, and the bytes without it.
type MarkRow = (&'static [u8], Option<Encoding>, &'static [u8]);

const MARKS: [MarkRow; 9] = [
    (b"\xef\xbb\xbfa", Some(Encoding::Utf8), b"a"),
    (b"\xef\xbb\xbf", Some(Encoding::Utf8), b""),
    (
        b"\xef\xbb\xbf\xef\xbb\xbf",
        Some(Encoding::Utf8),
        b"\xef\xbb\xbf",
    ),
    (b"\xef\xbb", None, b"\xef\xbb"),
    (b"\xfe\xff\0a", Some(Encoding::Utf16Be), b"\0a"),
    (b"\xff\xfea\0b", Some(Encoding::Utf16Le), b"a\0b"),
    (b"\xff\xfe", None, b""),
    (b"\xfe\xff", None, b""),
    (b"abcde", None, b"abcde"),
];

const ROOMS: [usize; 3] = [1, 2, 8];

fn check_mark(
    rt: &impl Abort,
    alloc: Global,
    bytes: &[u8],
    encoding: Option<Encoding>,
    rest: &[u8],
    room: usize,
) -> Result<(), Fail> {
    let mut without = BomPeeker::without_bom(source(alloc, bytes, &[])?);
    let bom = without.peek_bom().ok().ok_or("failed")?;
    same(rt, &bom.encoding(), &encoding, &bytes);
    check_all(rt, alloc, &mut without, room, rest)?;
    let mut with = BomPeeker::with_bom(source(alloc, bytes, &[])?);
    check_all(rt, alloc, &mut with, room, bytes)
}

#[test]
fn leaves_out_one_mark(rt: HostRuntime) -> Result<(), Fail> {
    for row in &MARKS {
        let (bytes, encoding, rest) = *row;
        for room in &ROOMS {
            check_mark(&rt, rt.alloc(), bytes, encoding, rest, *room)?;
        }
    }
    Ok(())
}

fn check_read(
    rt: &impl Abort,
    peeker: &mut BomPeeker<MemorySource>,
    room: usize,
    want: Result<&[u8], Failed>,
) {
    let mut buf = [0; 4];
    assert!(rt; room <= 4);
    let got = match peeker.read(&mut buf[..room]) {
        Ok(count) => Ok(&buf[..count]),
        Err(Failed) => Err(Failed),
    };
    same(rt, &got, &want, &room);
}

#[test]
fn goes_on_behind_a_fault(rt: HostRuntime) -> Result<(), Fail> {
    let source = source(rt.alloc(), b"\xef\xbb\xbfab", &[2, 5])?;
    let mut peeker = BomPeeker::without_bom(source);
    check_read(&rt, &mut peeker, 0, Ok(b""));
    same(&rt, &peeker.peek_bom(), &Err(Failed), &"fault");
    let bom = peeker.peek_bom().ok().ok_or("failed")?;
    same(&rt, &bom.encoding(), &Some(Encoding::Utf8), &"mark");
    check_read(&rt, &mut peeker, 4, Ok(b"ab"));
    check_read(&rt, &mut peeker, 4, Err(Failed));
    check_read(&rt, &mut peeker, 4, Ok(b""));
    Ok(())
}

#[test]
fn calls_no_source_behind_its_end(rt: HostRuntime) -> Result<(), Fail> {
    let mut peeker = BomPeeker::with_bom(source(rt.alloc(), b"ab", &[3, 4])?);
    check_read(&rt, &mut peeker, 4, Ok(b"ab"));
    check_read(&rt, &mut peeker, 4, Ok(b""));
    check_read(&rt, &mut peeker, 4, Ok(b""));
    Ok(())
}
