//! The fields of header blocks, in reads, buffers and pieces of any length, and over faults.
use super::*;
use enc_io::{DecodeReaderBytesBuilder, MemorySource};
use std::fmt::Debug;
use std::process;
use std::test::Fail;

// Compares two texts, of the row of this name. Proved once, so that a test that calls it costs
// little.
fn same<N: Debug>(rt: &impl process::Abort, got: &[u8], want: &[u8], name: &N) {
    assert_eq!(rt; got, want, "{name:?}");
}

// How a block is read: at most so many bytes a read, through a buffer and in pieces of so many.
type Way = (usize, usize, usize);

const SMALL: Way = (1, 4, 1);

const WAYS: [Way; 2] = [SMALL, (65_536, 8192, 8192)];

// A block of these bytes, whose source fails at the call of this number; no call has the number 0.
fn block_of<'t>(
    rt: &impl process::Abort,
    alloc: Global,
    tables: &'t Tables,
    bytes: &[u8],
    way: Way,
    failing: u64,
    strategy: RecoverStrategy,
) -> Result<HeaderBlock<'t, MemorySource>, Fail> {
    let (step, buffer, piece) = way;
    assert!(rt; 1 <= step);
    assert!(rt; 1 <= piece);
    let failing = Vec::from_slice(alloc, &[failing])?;
    let source = MemorySource::new(Vec::from_slice(alloc, bytes)?, step, failing);
    let buffer = vec![in alloc; 0; buffer]?;
    let piece = vec![in alloc; 0; piece]?;
    let built = DecodeReaderBytesBuilder::new().build_with_buffer(tables, source, buffer);
    let reader = built.ok().ok_or("not built")?;
    Ok(HeaderBlock::new(alloc, reader, tables, strategy, piece))
}

// Whether a block answers this error for good.
fn is_last(error: &BlockError) -> bool {
    match error {
        BlockError::TooMuch | BlockError::TooLong(_) | BlockError::NotAField(_) => true,
        _ => false,
    }
}

// The answers of a block in order, one a line, over all faults of its source: of a field its name,
// a colon, a space and its text, of an error its words. An error for good is answered twice.
fn answers(alloc: Global, block: &mut HeaderBlock<MemorySource>) -> Result<Vec<u8>, Fail> {
    let mut lines = Vec::new(alloc);
    let mut is_over = false;
    for _ in 0..50 {
        match block.next(alloc) {
            Ok(Some(field)) => {
                lines.extend_from_slice(field.name.as_slice())?;
                lines.extend_from_slice(b": ")?;
                lines.extend_from_slice(field.text.as_bytes())?;
            }
            Ok(None) => return Ok(lines),
            Err(BlockError::ReadFault) => continue,
            Err(error) => {
                let text = format!(in alloc; "{error}")?;
                lines.extend_from_slice(text.as_bytes())?;
                if is_over {
                    lines.push(b'\n')?;
                    return Ok(lines);
                }
                is_over = is_last(&error);
            }
        }
        lines.push(b'\n')?;
    }
    Ok(lines)
}

// Checks the answers of a block of these bytes, read in each way.
fn check_block(
    rt: &impl process::Abort,
    alloc: Global,
    bytes: &[u8],
    strategy: RecoverStrategy,
    want: &[u8],
    name: &impl Debug,
) -> Result<(), Fail> {
    let tables = Tables::new();
    for way in WAYS {
        let mut block = block_of(rt, alloc, &tables, bytes, way, 0, strategy)?;
        let got = answers(alloc, &mut block)?;
        same(rt, got.as_slice(), want, name);
    }
    Ok(())
}

// A name, a stream, and the answers under Abort.
type Row = (&'static str, &'static [u8], &'static [u8]);

const ROWS: [Row; 30] = [
    (
        "words over a fold",
        b"Subject: =?UTF-8?Q?Gr=C3=BC=C3=9Fe?=\r\n =?UTF-8?Q?_da?=\r\nTo : a\r\n\r\nbody",
        b"Subject: Gr\xc3\xbc\xc3\x9fe da\nTo: a\n",
    ),
    (
        "a space in the name",
        b"a b: c",
        b"field 0 is no field\nfield 0 is no field\n",
    ),
    ("nothing", b"", b""),
    ("LF alone", b"\n", b""),
    ("CR alone", b"\r", b""),
    ("CR LF alone", b"\r\n", b""),
    ("CR as the empty line", b"a: b\n\r\nc: d\n", b"a: b\n"),
    ("CR as the last line", b"a: b\n\r", b"a: b\n"),
    ("LF as the empty line", b"a: b\n\nc: d\n", b"a: b\n"),
    ("an empty line first", b"\na: b\n", b""),
    ("no LF at the end", b"a: b", b"a: b\n"),
    ("CR at the end", b"a: b\r", b"a: b\n"),
    ("a fold without LF at the end", b"a: b\n c", b"a: b c\n"),
    ("a fold with CR at the end", b"a: b\n c\r", b"a: b c\n"),
    ("two CRs at a line's end", b"a: b\r\r\n c", b"a: b\r c\n"),
    ("CR inside a line", b"a: b\rc\n", b"a: b\rc\n"),
    (
        "a blank line goes on",
        b"a: b\n \n\tc\nd: e\n",
        b"a: b \tc\nd: e\n",
    ),
    (
        "a blank and CR go on",
        b"a: b\r\n \r\nd: e\r\n",
        b"a: b \nd: e\n",
    ),
    ("a tab before the colon", b"a\t: b\n", b"a: b\n"),
    ("white space before the value", b"a:\t \tb \n", b"a: b \n"),
    ("no value", b"a:\nb:\r\n", b"a: \nb: \n"),
    ("a value over a fold", b"a:\r\n b\r\n", b"a: b\n"),
    (
        "no name",
        b"a: b\n: c\n",
        b"a: b\nfield 1 is no field\nfield 1 is no field\n",
    ),
    (
        "white space as the name",
        b" : c\n",
        b"field 0 is no field\nfield 0 is no field\n",
    ),
    (
        "a first line with a space",
        b" a: b\n",
        b"field 0 is no field\nfield 0 is no field\n",
    ),
    (
        "no colon",
        b"a: b\nc\n",
        b"a: b\nfield 1 is no field\nfield 1 is no field\n",
    ),
    (
        "an mbox separator",
        b"From a@b Thu Jan  1 00:00:00 1970\na: b\n",
        b"field 0 is no field\nfield 0 is no field\n",
    ),
    (
        "a name past ASCII",
        b"\xc3\xa4: b\n",
        b"field 0 is no field\nfield 0 is no field\n",
    ),
    (
        "UTF-16 by its mark",
        b"\xff\xfea\0:\0\xe4\0\n\0\n\0",
        b"a: \xc3\xa4\n",
    ),
    (
        "faults of values are passed",
        b"a: =?UTF-8?B?=?=\nb: c\nd: \xff\n",
        b"field 0: the base64 text is wrong\nb: c\nfield 2: clear text is not UTF-8 at byte 0\n",
    ),
];

#[test]
fn blocks_are_shown(rt: HostRuntime) -> Result<(), Fail> {
    for row in &ROWS {
        let (name, bytes, want) = *row;
        check_block(&rt, rt.alloc(), bytes, RecoverStrategy::Abort, want, &name)?;
    }
    Ok(())
}

// A field whose first value has a word that is too long, and whose second has one of no encoding.
const FAULTS: &[u8] =
    b"a: =?ISO-8859-1?Q?aaaaaaaaaaaaaaaaaaaaaaaaaaaaaaaaaaaaaaaaaaaaaaaaaaaaaaaaaaaaa?=\n\
    b: =?UTF-8?X?a?=\nc: =?UTF-8?XY?a?=\nd: e\n";

// A strategy, and the answers under it.
const STRATEGIES: [(RecoverStrategy, &[u8]); 3] = [
    (
        RecoverStrategy::Abort,
        b"field 0: Cannot parse the following encoded words, because they are too long: \
        =?ISO-8859-1?Q?aaaaaaaaaaaaaaaaaaaaaaaaaaaaaaaaaaaaaaaaaaaaaaaaaaaaaaaaaaaaa?=\n\
        field 1: cannot parse encoding X: B or Q is expected\n\
        field 2: cannot parse encoding: encoding is bigger than a char\nd: e\n",
    ),
    (
        RecoverStrategy::Skip,
        b"a: =?ISO-8859-1?Q?aaaaaaaaaaaaaaaaaaaaaaaaaaaaaaaaaaaaaaaaaaaaaaaaaaaaaaaaaaaaa?=\n\
        field 1: cannot parse encoding X: B or Q is expected\n\
        field 2: cannot parse encoding: encoding is bigger than a char\nd: e\n",
    ),
    (
        RecoverStrategy::Decode,
        b"a: aaaaaaaaaaaaaaaaaaaaaaaaaaaaaaaaaaaaaaaaaaaaaaaaaaaaaaaaaaaaa\n\
        field 1: cannot parse encoding X: B or Q is expected\n\
        field 2: cannot parse encoding: encoding is bigger than a char\nd: e\n",
    ),
];

#[test]
fn faults_of_values_under_each_strategy(rt: HostRuntime) -> Result<(), Fail> {
    for row in &STRATEGIES {
        let (strategy, want) = *row;
        check_block(&rt, rt.alloc(), FAULTS, strategy, want, &"strategy")?;
    }
    Ok(())
}

const THREE: &[u8] = b"a: b\r\nc: d\r\n e\r\n\tf\r\ng: =?UTF-8?Q?h?=\r\n\r\ni: j";

#[test]
fn each_read_fails_in_turn(rt: HostRuntime) -> Result<(), Fail> {
    let tables = Tables::new();
    for failing in 1..48 {
        let alloc = rt.alloc();
        let strategy = RecoverStrategy::Abort;
        let mut block = block_of(&rt, alloc, &tables, THREE, SMALL, failing, strategy)?;
        let got = answers(alloc, &mut block)?;
        same(&rt, got.as_slice(), b"a: b\nc: d e\tf\ng: h\n", &failing);
    }
    Ok(())
}

// A field of so many bytes, folded or not, and one behind it.
fn long_field(alloc: Global, len: usize, is_folded: bool) -> Result<Vec<u8>, Fail> {
    let mut bytes = Vec::from_slice(alloc, b"a:")?;
    for i in 2..len {
        if is_folded && i % 60 == 0 {
            bytes.extend_from_slice(b"\r\n ")?;
        } else {
            bytes.push(b'x')?;
        }
    }
    bytes.extend_from_slice(b"\r\nb: c\r\n")?;
    Ok(bytes)
}

// Checks whether a block whose first field has so many bytes answers that it is too long.
fn check_length(
    rt: &impl process::Abort,
    alloc: Global,
    len: usize,
    is_folded: bool,
    is_too_long: bool,
) -> Result<(), Fail> {
    let tables = Tables::new();
    let bytes = long_field(alloc, len, is_folded)?;
    let strategy = RecoverStrategy::Abort;
    let way = (1000, 8192, 4096);
    let mut block = block_of(rt, alloc, &tables, bytes.as_slice(), way, 0, strategy)?;
    let got = answers(alloc, &mut block)?;
    let told = got
        .as_slice()
        .starts_with(b"field 0 is longer than 65536 bytes\n");
    assert_eq!(rt; told, is_too_long, "{len} {is_folded}");
    Ok(())
}

#[test]
fn fields_are_too_long_from_65_537_bytes_on(rt: HostRuntime) -> Result<(), Fail> {
    let alloc = rt.alloc();
    check_length(&rt, alloc, 65_536, false, false)?;
    check_length(&rt, alloc, 65_536, true, false)?;
    check_length(&rt, alloc, 65_537, false, true)?;
    check_length(&rt, alloc, 65_537, true, true)
}
