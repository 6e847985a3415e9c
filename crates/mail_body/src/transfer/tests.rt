//! What bodies stand for, in pieces of any length.
use crate::testing::same;
use crate::transfer::{MOST_KEPT, Transfer, TransferDecoder};
use std::alloc::Global;
use std::process::Abort;
use std::test::Fail;

// The lengths of pieces.
const SIZES: [usize; 3] = [1, 2, 100];

// A room for the octets of such a piece.
fn room(alloc: Global, size: usize) -> Result<Vec<u8>, Fail> {
    let len = size.checked_mul(2).ok_or("too long")?;
    let len = len.checked_add(MOST_KEPT + 9).ok_or("too long")?;
    Ok(vec![in alloc; 0; len]?)
}

// The octets of a body, in pieces of this length; none where too many blanks stand in a row.
fn octets_of(
    rt: &impl Abort,
    alloc: Global,
    kind: Transfer,
    body: &[u8],
    size: usize,
) -> Result<Option<Vec<u8>>, Fail> {
    let mut decoder = TransferDecoder::new(alloc, kind)?;
    let mut buffer = room(alloc, size)?;
    let mut octets = Vec::new(alloc);
    assert!(rt; size > 0);
    for piece in body.chunks(size) {
        assert!(rt; piece.len() <= size && size <= 1000);
        assert!(rt; buffer.len() >= MOST_KEPT + 2 * piece.len() + 9);
        let Some(count) = decoder.step(piece, &mut buffer) else {
            return Ok(None);
        };
        octets.extend_from_slice(&buffer[..count])?;
    }
    assert!(rt; buffer.len() >= 3);
    let count = decoder.finish(&mut buffer);
    octets.extend_from_slice(&buffer[..count])?;
    Ok(Some(octets))
}

// A kind, a body, and its octets.
type Row = (Transfer, &'static [u8], &'static [u8]);

const ROWS: [Row; 24] = [
    (Transfer::Plain, b"M=FC \r\n=", b"M=FC \r\n="),
    (Transfer::Quoted, b"M=FCn=\r\nchen", b"M\xfcnchen"),
    (Transfer::Quoted, b"a \t\r\nb\nc", b"a\r\nb\r\nc"),
    (Transfer::Quoted, b"a = \r\nb \rc \r", b"a b \rc"),
    (Transfer::Quoted, b"=4", b"=4"),
    (Transfer::Quoted, b"=4 \n=", b"=4\r\n"),
    (Transfer::Quoted, b"=\r \n=c3=\n=A9", b"\xc3\xa9"),
    (Transfer::Quoted, b"= 4==4 4=  4=", b"= 4==4 4=  4"),
    (Transfer::Quoted, b"=\x004\xff1\x00 \xff b", b"A  b"),
    (Transfer::Quoted, b"==41=4=41", b"==41=4=41"),
    (
        Transfer::Base64,
        b"R3LD\r\nvMOfZQ==\r\n",
        b"Gr\xc3\xbc\xc3\x9fe",
    ),
    (Transfer::Base64, b"", b""),
    (Transfer::Base64, b"R", b""),
    (Transfer::Base64, b"Rz", b"G"),
    (Transfer::Base64, b"R3", b"G"),
    (Transfer::Base64, b"R3L", b"Gr"),
    (Transfer::Base64, b"R3LD", b"Gr\xc3"),
    (Transfer::Base64, b"=R3LD", b""),
    (Transfer::Base64, b"R=3LD", b""),
    (Transfer::Base64, b"R3=LD", b"G"),
    (Transfer::Base64, b"R3L=D", b"Gr"),
    (Transfer::Base64, b"R3LD=R3LD", b"Gr\xc3"),
    (Transfer::Base64, b"-R 3\xff_L\0D*", b"Gr\xc3"),
    (Transfer::Base64, b"+/+/", b"\xfb\xff\xbf"),
];

// Compares the octets of a row, in pieces of each length.
fn check_row(rt: &impl Abort, alloc: Global, row: Row) -> Result<(), Fail> {
    let (kind, body, want) = row;
    for size in &SIZES {
        let got = octets_of(rt, alloc, kind, body, *size)?.ok_or("too many blanks")?;
        same(rt, &got.as_slice(), &want, &(body, *size));
    }
    Ok(())
}

#[test]
fn decodes_in_pieces(rt: HostRuntime) -> Result<(), Fail> {
    for row in &ROWS {
        check_row(&rt, rt.alloc(), *row)?;
    }
    Ok(())
}

// So many blanks and a letter.
fn blanks_before(alloc: Global, count: usize) -> Result<Vec<u8>, Fail> {
    let mut body = vec![in alloc; b' '; count]?;
    body.push(b'a')?;
    Ok(body)
}

// Blanks in a row, and whether they are not too many.
const RUNS: [(usize, bool); 4] = [(4095, true), (4096, true), (4097, false), (4098, false)];

#[test]
fn holds_no_more_blanks(rt: HostRuntime) -> Result<(), Fail> {
    for row in &RUNS {
        let (count, is_held) = *row;
        let body = blanks_before(rt.alloc(), count)?;
        for size in &SIZES {
            let got = octets_of(&rt, rt.alloc(), Transfer::Quoted, &body, *size)?;
            same(&rt, &got.is_some(), &is_held, &(count, *size));
        }
    }
    Ok(())
}
