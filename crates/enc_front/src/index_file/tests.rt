use super::*;
use crate::testing::same;
use std::process::Abort;
use std::test::Fail;

// The text of an index file, and its pairs.
type PairsRow = (&'static [u8], &'static [(u32, u32)]);

const PAIRS: [PairsRow; 5] = [
    (b"\r\n# a comment\n#", &[]),
    (b"1\t0x4E00\r", &[(1, 0x4E00)]),
    (b"3\t0x4E00\tanything \xff\t#\n", &[(3, 0x4E00)]),
    (
        b"0\t0xabcdef\n0\t0xABCDEF",
        &[(0, 0xAB_CDEF), (0, 0xAB_CDEF)],
    ),
    (
        b"999999999\t0x12345\n\n 007\t0x20000",
        &[(999_999_999, 0x1_2345), (7, 0x2_0000)],
    ),
];

fn check_pairs(
    rt: &impl Abort,
    alloc: Global,
    text: &[u8],
    want: &[(u32, u32)],
) -> Result<(), Fail> {
    let pairs = read_index(alloc, text).ok().ok_or("no pairs")?;
    same(rt, &pairs.as_slice(), &want, &text);
    Ok(())
}

#[test]
fn reads_pairs(rt: HostRuntime) -> Result<(), Fail> {
    for row in &PAIRS {
        let (text, want) = *row;
        check_pairs(&rt, rt.alloc(), text, want)?;
    }
    Ok(())
}

// The text of an index file, and its first bad line.
type BadRow = (&'static [u8], usize);

const BAD: [BadRow; 12] = [
    (b"  3\t0x4E00\nx", 2),
    (b"\r\n\n#\n3\t0x4E00\nx\ny", 5),
    (b"3\t0x4E00\r\r\n", 1),
    (b" #", 1),
    (b"\t3\t0x4E00", 1),
    (b"3\t0x", 1),
    (b"-3\t0x4E00", 1),
    (b"3\t\t0x4E00", 1),
    (b"3\t0X4E00", 1),
    (b"1234567890\t0x4E00", 1),
    (b"3\t0x4E0", 1),
    (b"3\t0x4E0G", 1),
];

fn check_line(rt: &impl Abort, alloc: Global, text: &[u8], line: usize) {
    let fault = read_index(alloc, text).err();
    same(rt, &fault, &Some(IndexError::BadLine(line)), &text);
}

#[test]
fn counts_lines_to_the_first_bad_one(rt: HostRuntime) {
    for row in &BAD {
        let (text, line) = *row;
        check_line(&rt, rt.alloc(), text, line);
    }
}

fn check_text(rt: &impl Abort, alloc: Global, error: &IndexError, want: &str) -> Result<(), Fail> {
    let text = format!(in alloc; "{error}")?;
    same(rt, &text.as_str(), &want, &want);
    Ok(())
}

#[test]
fn shows_faults(rt: HostRuntime) -> Result<(), Fail> {
    let line = "line 7 is no pair of a place and a scalar value";
    check_text(&rt, rt.alloc(), &IndexError::BadLine(7), line)?;
    check_text(&rt, rt.alloc(), &IndexError::Memory, "no memory")
}
