mod slow;

ghost use Rattle.std.specs.Prelude.{◌≤◌};
ghost use Rattle.qp.specs.Settings.{line_limit};

use super::*;
use slow::{slow_fault, slow_value};
use std::fmt::Debug;
use std::process::Abort;
use std::test::Fail;

// Compares two values, of the row of this name. Proved once, so that a test that calls it costs
// little.
fn same<T: PartialEq + Debug, N: Debug>(rt: &impl Abort, got: &T, want: &T, name: &N) {
    assert_eq!(rt; *got, *want, "{name:?}");
}

// A name, an input, and what is wanted.
type Row = (&'static str, &'static [u8], &'static [u8]);

const ROWS: [Row; 34] = [
    ("empty", b"", b""),
    ("plain", b"hello world", b"hello world"),
    (
        "soft line breaks",
        b"Now's the time =\r\nfor all folk to come=\r\n to the aid of their country.",
        b"Now's the time for all folk to come to the aid of their country.",
    ),
    ("escapes", b"=0D=0Ahello=3Dworld", b"\r\nhello=world"),
    (
        "escaped line break at the end",
        b"hello=3Dworld=0D=0A",
        b"hello=world\r\n",
    ),
    (
        "two lines",
        b"hello world\r\ngoodbye world",
        b"hello world\r\ngoodbye world",
    ),
    (
        "spaces at the ends of lines",
        b"hello world   \r\ngoodbye world   ",
        b"hello world\r\ngoodbye world",
    ),
    (
        "spaces behind a soft line break",
        b"hello world   \r\ngoodbye world =  \r\nx",
        b"hello world\r\ngoodbye world x",
    ),
    (
        "spaces and tabs behind a soft line break",
        b"a= \t \r\nb",
        b"ab",
    ),
    ("cut escape", b"hello world=x", b"hello world=x"),
    (
        "cut escape, spaces, line break",
        b"a=4 \t\r\nb",
        b"a=4\r\nb",
    ),
    (
        "soft line break at the end",
        b"hello =world=",
        b"hello =world",
    ),
    ("equals sign before an escape", b"==41", b"==41"),
    ("lowercase digits", b"hello world=3d", b"hello world="),
    ("digits of both cases", b"=aF=Fa", b"\xaf\xfa"),
    ("no digits", b"hello world=3m", b"hello world=3m"),
    ("no digit first", b"=g0=:0=/0", b"=g0=:0=/0"),
    ("bytes past ASCII", b"hello\xc3\xbfworld", b"helloworld"),
    ("bytes past ASCII between letters", b"a\xc3\xbfb", b"ab"),
    ("a dropped byte in an escape", b"=\x804\x001", b"A"),
    (
        "a dropped byte behind an escape's equals sign, at the end",
        b"a=\x00 \x7f",
        b"a",
    ),
    (
        "the octets beside the kept ones",
        b"\x08\t\x0b\x0c\x0e\x1f ~\x7f.",
        b"\t ~.",
    ),
    (
        "77 digits",
        b"12345678901234567890123456789012345678901234567890123456789012345678901234567",
        b"12345678901234567890123456789012345678901234567890123456789012345678901234567",
    ),
    ("a soft line break alone", b"=\r\n", b""),
    ("a soft line break first", b"=\r\na", b"a"),
    ("a line break at the end", b"a\r\n", b"a\r\n"),
    ("a line break alone", b"\r\n", b"\r\n"),
    (
        "a soft line break at the end of the last line",
        b"a=\r\n",
        b"a",
    ),
    ("CR alone within a line", b"a\ra", b"a\ra"),
    ("CR alone at the end", b"aa\r", b"aa"),
    ("LF alone", b"a\na", b"a\r\na"),
    ("LF alone first", b"\na", b"\r\na"),
    ("two LFs", b"\n\n", b"\r\n\r\n"),
    ("an escaped equals sign", b"=3D3D", b"=3D"),
];

const STRICT_ROWS: [Row; 11] = [
    ("empty", b"", b""),
    ("a soft line break at the end, alone", b"a=\r\n", b"a"),
    (
        "spaces at the ends of lines",
        b"hello  \r\nx =  \r\ny",
        b"hello\r\nx y",
    ),
    ("a soft line break alone", b"=\r\n", b""),
    ("a line break alone", b"\r\n", b"\r\n"),
    (
        "76 digits",
        b"1234567890123456789012345678901234567890123456789012345678901234567890123456",
        b"1234567890123456789012345678901234567890123456789012345678901234567890123456",
    ),
    (
        "76 digits and a line break",
        b"1234567890123456789012345678901234567890123456789012345678901234567890123456\r\n",
        b"1234567890123456789012345678901234567890123456789012345678901234567890123456\r\n",
    ),
    (
        "76 digits and two spaces",
        b"1234567890123456789012345678901234567890123456789012345678901234567890123456  ",
        b"1234567890123456789012345678901234567890123456789012345678901234567890123456",
    ),
    (
        "upper-case escapes",
        b"hello=3Dworld=0D=0A",
        b"hello=world\r\n",
    ),
    ("two soft line breaks at the end", b"a=\r\nb=", b"ab"),
    ("an empty line at the end", b"a\r\n\r\n", b"a\r\n\r\n"),
];

const FAULTS: [(&str, &[u8], QuotedPrintableError); 23] = [
    (
        "a hard line, then a soft one at the end",
        b"x\r\na=\r\n",
        QuotedPrintableError::IncompleteHexOctet,
    ),
    (
        "the same without a line break",
        b"x\r\na=",
        QuotedPrintableError::IncompleteHexOctet,
    ),
    (
        "77 digits",
        b"12345678901234567890123456789012345678901234567890123456789012345678901234567",
        QuotedPrintableError::LineTooLong,
    ),
    (
        "77 digits in the second line",
        b"a\r\n12345678901234567890123456789012345678901234567890123456789012345678901234567",
        QuotedPrintableError::LineTooLong,
    ),
    (
        "lowercase digits",
        b"=3d",
        QuotedPrintableError::LowercaseHexOctet,
    ),
    ("no digits", b"=3m", QuotedPrintableError::InvalidHexOctet),
    (
        "a word behind an equals sign",
        b"hello =world=",
        QuotedPrintableError::InvalidHexOctet,
    ),
    (
        "a cut escape",
        b"hello world=x",
        QuotedPrintableError::IncompleteHexOctet,
    ),
    (
        "a cut escape before spaces",
        b"=x  \r\ny",
        QuotedPrintableError::IncompleteHexOctet,
    ),
    (
        "LF behind a letter",
        b"a\n",
        QuotedPrintableError::InvalidByte,
    ),
    (
        "LF before a letter",
        b"\na",
        QuotedPrintableError::InvalidByte,
    ),
    (
        "CR within a line",
        b"a\ra",
        QuotedPrintableError::InvalidByte,
    ),
    ("CR at the end", b"aa\r", QuotedPrintableError::InvalidByte),
    (
        "two CRs and an LF",
        b"a\r\r\n",
        QuotedPrintableError::InvalidByte,
    ),
    (
        "bytes past ASCII",
        b"\xc3\xbf",
        QuotedPrintableError::InvalidByte,
    ),
    ("DEL", b"a\x7f", QuotedPrintableError::InvalidByte),
    (
        "an invalid byte behind a line that is too long",
        b"12345678901234567890123456789012345678901234567890123456789012345678901234567\x00",
        QuotedPrintableError::InvalidByte,
    ),
    (
        "an invalid byte behind a wrong escape",
        b"=3m\r\n\x00",
        QuotedPrintableError::InvalidByte,
    ),
    (
        "a wrong escape before a line that is too long",
        b"=3m\r\n12345678901234567890123456789012345678901234567890123456789012345678901234567",
        QuotedPrintableError::InvalidHexOctet,
    ),
    (
        "a line that is too long, with a wrong escape",
        b"=3m12345678901234567890123456789012345678901234567890123456789012345678901234567",
        QuotedPrintableError::LineTooLong,
    ),
    (
        "the first of two faulty escapes",
        b"=3d=3m",
        QuotedPrintableError::LowercaseHexOctet,
    ),
    (
        "one lowercase digit and one letter that is none",
        b"=ag",
        QuotedPrintableError::InvalidHexOctet,
    ),
    (
        "a faulty escape before the end's fault",
        b"x\r\n=3d=",
        QuotedPrintableError::LowercaseHexOctet,
    ),
];

const TEXT_ROWS: [Row; 20] = [
    ("empty", b"", b""),
    (
        "76 letters and one",
        b"XXXXXXXXXXXXXXXXXXXXXXXXXXXXXXXXXXXXXXXXXXXXXXXXXXXXXXXXXXXXXXXXXXXXXXXXXXXXY",
        b"XXXXXXXXXXXXXXXXXXXXXXXXXXXXXXXXXXXXXXXXXXXXXXXXXXXXXXXXXXXXXXXXXXXXXXXXXXX=\r\nXY",
    ),
    (
        "76 letters",
        b"XXXXXXXXXXXXXXXXXXXXXXXXXXXXXXXXXXXXXXXXXXXXXXXXXXXXXXXXXXXXXXXXXXXXXXXXXXXX",
        b"XXXXXXXXXXXXXXXXXXXXXXXXXXXXXXXXXXXXXXXXXXXXXXXXXXXXXXXXXXXXXXXXXXXXXXXXXXXX",
    ),
    ("two CRs, LF", b"a\r\r\nb", b"a=0D\r\nb"),
    (
        "bytes past ASCII and an equals sign",
        b"hello, \xe2\x82\xac zone!",
        b"hello, =E2=82=AC zone!",
    ),
    ("CR", b"\r", b"=0D"),
    ("two CRs", b"\r\r", b"=0D=0D"),
    ("CR and an equals sign", b"\r=", b"=0D=3D"),
    ("two spaces", b"  ", b" =20"),
    (
        "a space before a line break",
        b"this \r\nhas",
        b"this=20\r\nhas",
    ),
    (
        "77 letters and one",
        b"XXXXXXXXXXXXXXXXXXXXXXXXXXXXXXXXXXXXXXXXXXXXXXXXXXXXXXXXXXXXXXXXXXXXXXXXXXXXXY",
        b"XXXXXXXXXXXXXXXXXXXXXXXXXXXXXXXXXXXXXXXXXXXXXXXXXXXXXXXXXXXXXXXXXXXXXXXXXXX=\r\nXXY",
    ),
    (
        "72 letters, an escape, a letter",
        b"XXXXXXXXXXXXXXXXXXXXXXXXXXXXXXXXXXXXXXXXXXXXXXXXXXXXXXXXXXXXXXXXXXXXXXXX\x00Y",
        b"XXXXXXXXXXXXXXXXXXXXXXXXXXXXXXXXXXXXXXXXXXXXXXXXXXXXXXXXXXXXXXXXXXXXXXXX=00Y",
    ),
    (
        "73 letters, an escape, a letter",
        b"XXXXXXXXXXXXXXXXXXXXXXXXXXXXXXXXXXXXXXXXXXXXXXXXXXXXXXXXXXXXXXXXXXXXXXXXX\x00Y",
        b"XXXXXXXXXXXXXXXXXXXXXXXXXXXXXXXXXXXXXXXXXXXXXXXXXXXXXXXXXXXXXXXXXXXXXXXXX=\r\n=00Y",
    ),
    (
        "74 letters, an escape, a letter",
        b"XXXXXXXXXXXXXXXXXXXXXXXXXXXXXXXXXXXXXXXXXXXXXXXXXXXXXXXXXXXXXXXXXXXXXXXXXX\x00Y",
        b"XXXXXXXXXXXXXXXXXXXXXXXXXXXXXXXXXXXXXXXXXXXXXXXXXXXXXXXXXXXXXXXXXXXXXXXXXX=\r\n=00Y",
    ),
    (
        "75 letters, an escape, a letter",
        b"XXXXXXXXXXXXXXXXXXXXXXXXXXXXXXXXXXXXXXXXXXXXXXXXXXXXXXXXXXXXXXXXXXXXXXXXXXX\x00Y",
        b"XXXXXXXXXXXXXXXXXXXXXXXXXXXXXXXXXXXXXXXXXXXXXXXXXXXXXXXXXXXXXXXXXXXXXXXXXXX=\r\n=00Y",
    ),
    (
        "a break between two escapes",
        b"XXXXXXXXXXXXXXXXXXXXXXXXXXXXXXXXXXXXXXXXXXXXXXXXXXXXXXXXXXXXXXXXXXXXXX=X==Y",
        b"XXXXXXXXXXXXXXXXXXXXXXXXXXXXXXXXXXXXXXXXXXXXXXXXXXXXXXXXXXXXXXXXXXXXXX=3DX=\r\n=3D=3DY",
    ),
    (
        "75 letters, a space, a line break",
        b"XXXXXXXXXXXXXXXXXXXXXXXXXXXXXXXXXXXXXXXXXXXXXXXXXXXXXXXXXXXXXXXXXXXXXXXXXXX \r\n",
        b"XXXXXXXXXXXXXXXXXXXXXXXXXXXXXXXXXXXXXXXXXXXXXXXXXXXXXXXXXXXXXXXXXXXXXXXXXXX=\r\n=20\r\n",
    ),
    (
        "75 letters and a tab",
        b"XXXXXXXXXXXXXXXXXXXXXXXXXXXXXXXXXXXXXXXXXXXXXXXXXXXXXXXXXXXXXXXXXXXXXXXXXXX\t",
        b"XXXXXXXXXXXXXXXXXXXXXXXXXXXXXXXXXXXXXXXXXXXXXXXXXXXXXXXXXXXXXXXXXXXXXXXXXXX=\r\n=09",
    ),
    (
        "76 letters and a line break",
        b"XXXXXXXXXXXXXXXXXXXXXXXXXXXXXXXXXXXXXXXXXXXXXXXXXXXXXXXXXXXXXXXXXXXXXXXXXXXX\r\nY",
        b"XXXXXXXXXXXXXXXXXXXXXXXXXXXXXXXXXXXXXXXXXXXXXXXXXXXXXXXXXXXXXXXXXXXXXXXXXXXX\r\nY",
    ),
    ("LF", b"a\nb", b"a=0Ab"),
];

const BINARY_ROWS: [Row; 3] = [
    ("a line break", b"foo\r\n", b"foo=0D=0A"),
    ("a space and a line break", b" \r\n", b"=20=0D=0A"),
    (
        "fifteen line breaks",
        b"\r\n\r\n\r\n\r\n\r\n\r\n\r\n\r\n\r\n\r\n\r\n\r\n\r\n\r\n\r\n",
        b"=0D=0A=0D=0A=0D=0A=0D=0A=0D=0A=0D=0A=0D=0A=0D=0A=0D=0A=0D=0A=0D=0A=0D=0A=0D=\r\n\
          =0A=0D=0A=0D=0A",
    ),
];

// Decodes a row.
fn check_decode(rt: &impl Abort, alloc: Global, mode: ParseMode, row: Row) -> Result<(), Fail> {
    let (name, input, want) = row;
    let decoded = decode(alloc, input, mode)?;
    same(rt, &decoded.as_slice(), &want, &name);
    Ok(())
}

// Decodes a row that has a fault.
fn check_fault(
    rt: &impl Abort,
    alloc: Global,
    name: &str,
    input: &[u8],
    want: QuotedPrintableError,
) {
    let answer = decode(alloc, input, ParseMode::Strict);
    same(rt, &answer, &Err(QpError::Quoted(want)), &name);
}

#[test]
fn decodes_rows(rt: HostRuntime) -> Result<(), Fail> {
    for row in &ROWS {
        check_decode(&rt, rt.alloc(), ParseMode::Robust, *row)?;
    }
    for row in &STRICT_ROWS {
        check_decode(&rt, rt.alloc(), ParseMode::Strict, *row)?;
    }
    for row in &FAULTS {
        check_fault(&rt, rt.alloc(), row.0, row.1, row.2.clone()?);
    }
    Ok(())
}

// Encodes a row by both calls for text.
fn check_text(rt: &impl Abort, alloc: Global, row: Row) -> Result<(), Fail> {
    let (name, input, want) = row;
    let text = encode_to_str(alloc, input)?;
    same(rt, &text.as_bytes(), &want, &name);
    let bytes = encode(alloc, input)?;
    same(rt, &bytes.as_slice(), &want, &name);
    Ok(())
}

// Encodes a row by both calls for anything.
fn check_binary(rt: &impl Abort, alloc: Global, row: Row) -> Result<(), Fail> {
    let (name, input, want) = row;
    let text = encode_binary_to_str(alloc, input)?;
    same(rt, &text.as_bytes(), &want, &name);
    let bytes = encode_binary(alloc, input)?;
    same(rt, &bytes.as_slice(), &want, &name);
    Ok(())
}

#[test]
fn encodes_rows(rt: HostRuntime) -> Result<(), Fail> {
    for row in &TEXT_ROWS {
        check_text(&rt, rt.alloc(), *row)?;
    }
    for row in &BINARY_ROWS {
        check_binary(&rt, rt.alloc(), *row)?;
    }
    Ok(())
}

// Decodes by these options; where nothing is wanted, the line is too long.
fn check_decode_by(
    rt: &impl Abort,
    alloc: Global,
    options: Options,
    input: &[u8],
    want: Option<&[u8]>,
) -> Result<(), Fail> {
    let answer = decode_with_options(alloc, input, options);
    match want {
        Some(want) => same(rt, &answer?.as_slice(), &want, &input),
        None => {
            let fault = QpError::Quoted(QuotedPrintableError::LineTooLong);
            same(rt, &answer, &Err(fault), &input);
        }
    }
    Ok(())
}

// Encodes by these options.
fn check_encode_by(
    rt: &impl Abort,
    alloc: Global,
    options: Options,
    input: &[u8],
    want: &[u8],
) -> Result<(), Fail>
    requires { 6 ≤ line_limit options }
{
    let text = encode_with_options(alloc, input, options)?;
    same(rt, &text.as_bytes(), &want, &input);
    Ok(())
}

#[test]
fn takes_options(rt: HostRuntime) -> Result<(), Fail> {
    let robust = Options::default()
        .line_length_limit(998)
        .input_mode(InputMode::Binary)
        .parse_mode(ParseMode::Robust);
    check_decode_by(&rt, rt.alloc(), robust, b"=41\n", Some(b"A\r\n"))?;
    let strict = Options::default().parse_mode(ParseMode::Strict);
    let seven = strict.clone()?.line_length_limit(7);
    check_decode_by(&rt, rt.alloc(), seven, b"1234567\r\n", Some(b"1234567\r\n"))?;
    let six = strict.line_length_limit(6);
    check_decode_by(&rt, rt.alloc(), six, b"1234567\r\n", None)?;
    let least = Options::default().line_length_limit(6);
    check_encode_by(&rt, rt.alloc(), least, b"\x00\x00\x00", b"=00=\r\n=00=00")?;
    let binary = Options::default().input_mode(InputMode::Binary);
    check_encode_by(&rt, rt.alloc(), binary, b"foo\r\n", b"foo=0D=0A")?;
    Ok(())
}

const MESSAGES: [(QuotedPrintableError, &str); 5] = [
    (
        QuotedPrintableError::InvalidByte,
        "A unallowed byte was found in the quoted-printable input",
    ),
    (
        QuotedPrintableError::LineTooLong,
        "A line length in the quoted-printed input exceeded 76 bytes",
    ),
    (
        QuotedPrintableError::IncompleteHexOctet,
        "A '=' followed by only one character was found in the input",
    ),
    (
        QuotedPrintableError::InvalidHexOctet,
        "A '=' followed by non-hex characters was found in the input",
    ),
    (
        QuotedPrintableError::LowercaseHexOctet,
        "A '=' was followed by lowercase hex characters",
    ),
];

// The text of a fault, and of the error that holds it.
fn check_message(
    rt: &impl Abort,
    alloc: Global,
    fault: QuotedPrintableError,
    want: &str,
) -> Result<(), Fail> {
    let text = fault.to_string(alloc)?;
    same(rt, &text.as_str(), &want, &want);
    let text = QpError::Quoted(fault).to_string(alloc)?;
    same(rt, &text.as_str(), &want, &want);
    Ok(())
}

#[test]
fn shows_errors(rt: HostRuntime) -> Result<(), Fail> {
    for row in &MESSAGES {
        check_message(&rt, rt.alloc(), row.0.clone()?, row.1)?;
    }
    let text = QpError::Memory.to_string(rt.alloc())?;
    same(&rt, &text.as_str(), &"no memory", &"memory");
    Ok(())
}

// An item of the slow encoder below.
#[derive(Clone, Copy)]
enum Item {
    Break,
    Plain(u8),
    Escaped(u8),
}

// The items of an input, as a list.
fn slow_items(alloc: Global, input: &[u8], text: bool) -> Result<Vec<Item>, AllocError> {
    let mut items = Vec::new(alloc);
    let mut skip = false;
    for (i, byte) in input.iter().enumerate() {
        if skip {
            skip = false;
            continue;
        }
        let next = input.get(i.saturating_add(1)).copied();
        let second = input.get(i.saturating_add(2)).copied();
        if *byte == b'\r' && next == Some(b'\n') {
            skip = true;
            if text {
                items.push(Item::Break)?;
            } else {
                items.push(Item::Escaped(b'\r'))?;
                items.push(Item::Escaped(b'\n'))?;
            }
            continue;
        }
        let ends = next.is_none() || (next == Some(b'\r') && second == Some(b'\n'));
        let item = match *byte {
            b'\t' | b' ' if !ends => Item::Plain(*byte),
            b'!'..=b'<' | b'>'..=b'~' => Item::Plain(*byte),
            _ => Item::Escaped(*byte),
        };
        items.push(item)?;
    }
    Ok(items)
}

// Items in lines, each looked at with the one behind it.
fn slow_layout(alloc: Global, items: &[Item], limit: usize) -> Result<Vec<u8>, AllocError> {
    let mut out = Vec::new(alloc);
    let mut used = 0usize;
    for (i, item) in items.iter().enumerate() {
        let more = match items.get(i.saturating_add(1)) {
            None | Some(Item::Break) => false,
            Some(_) => true,
        };
        let width = match item {
            Item::Break => 0usize,
            Item::Plain(_) => 1,
            Item::Escaped(_) => 3,
        };
        let reach = used.saturating_add(width);
        if width > 0 && (reach > limit || (reach == limit && more)) {
            out.extend_from_slice(b"=\r\n")?;
            used = 0;
        }
        used = used.saturating_add(width);
        match item {
            Item::Break => {
                out.extend_from_slice(b"\r\n")?;
                used = 0;
            }
            Item::Plain(byte) => out.push(*byte)?,
            Item::Escaped(byte) => {
                let digits = b"0123456789ABCDEF";
                out.push(b'=')?;
                out.push(digits[usize::from(*byte / 16)])?;
                out.push(digits[usize::from(*byte % 16)])?;
            }
        }
    }
    Ok(out)
}

// Pieces of quoted-printable text that are whole, cut, faulty, blank or long.
const PIECES: [&[u8]; 16] = [
    b"=4D",
    b"=\r\n",
    b"=3d",
    b"=m4",
    b"=",
    b" ",
    b"\t",
    b"\r\n",
    b"\r\n",
    b"\n",
    b"\r",
    b"\xc3",
    b"a",
    b"word",
    b"=C3=A9",
    b"a run of more than thirty-two letters",
];

// Pieces one after another, of which the first `kinds` come.
fn mixed_pieces(alloc: Global, count: usize, kinds: u32, seed: u32) -> Result<Vec<u8>, AllocError> {
    let mut text = Vec::new(alloc);
    let mut state = seed;
    for _ in 0..count {
        state = state.wrapping_mul(1_664_525).wrapping_add(1_013_904_223);
        let piece = (state >> 24) % 16;
        if piece < kinds || piece > 11 {
            text.extend_from_slice(PIECES[piece as usize])?;
        }
    }
    Ok(text)
}

// Whether both decoders read `text` as the slow ones do.
fn reads_as_slow(alloc: Global, text: &[u8], limit: usize) -> Result<bool, AllocError> {
    let value = slow_value(alloc, text)?;
    let want = match slow_fault(alloc, text, limit)? {
        Some(fault) => Err(QpError::Quoted(fault)),
        None => Ok(value.clone()?),
    };
    let options = Options::default().line_length_limit(limit);
    let robust = decode_with_options(alloc, text, options.clone()?);
    let strict = decode_with_options(alloc, text, options.parse_mode(ParseMode::Strict));
    Ok(robust == Ok(value) && strict == want)
}

// Decodes a text by both, cut at each place.
fn check_cuts(rt: &impl Abort, alloc: Global, text: &[u8]) -> Result<(), Fail> {
    for end in 0..=text.len() {
        let cut = &text[..end.min(text.len())];
        same(rt, &reads_as_slow(alloc, cut, 40)?, &true, &cut);
    }
    Ok(())
}

#[test]
fn decodes_as_the_slow_decoders(rt: HostRuntime) -> Result<(), Fail> {
    for seed in 0..300u32 {
        let kinds = [2, 9, 12];
        let text = mixed_pieces(rt.alloc(), 14, kinds[(seed % 3) as usize], seed)?;
        check_cuts(&rt, rt.alloc(), &text)?;
    }
    Ok(())
}

// Decodes a line that begins with so many letters.
fn check_long(rt: &impl Abort, alloc: Global, len: usize) -> Result<(), Fail> {
    let mut text = vec![in alloc; b'a'; len]?;
    text.extend_from_slice(b"=4D and more =\r\nthan that\r\n")?;
    same(rt, &reads_as_slow(alloc, &text, 5000)?, &true, &len);
    same(rt, &reads_as_slow(alloc, &text, 4080)?, &true, &len);
    Ok(())
}

#[test]
fn decodes_a_line_longer_than_the_room(rt: HostRuntime) -> Result<(), Fail> {
    for len in 4060..4110usize {
        check_long(&rt, rt.alloc(), len)?;
    }
    Ok(())
}

// Whether `input` is encoded as the slow encoder does it, and read back.
fn encodes_as_slow(
    alloc: Global,
    input: &[u8],
    limit: usize,
    text: bool,
) -> Result<bool, AllocError>
    requires { 6 ≤ limit }
{
    let items = slow_items(alloc, input, text)?;
    let want = slow_layout(alloc, &items, limit)?;
    let mode = if text {
        InputMode::Text
    } else {
        InputMode::Binary
    };
    let options = Options::default().line_length_limit(limit).input_mode(mode);
    let encoded = encode_with_options(alloc, input, options.clone()?)?;
    let strict = options.parse_mode(ParseMode::Strict);
    let same = match decode_with_options(alloc, encoded.as_bytes(), strict) {
        Ok(back) => back.as_slice() == input,
        Err(_) => false,
    };
    Ok(same && encoded.as_bytes() == want.as_slice())
}

// Encodes an input, cut at each place, in both modes.
fn check_encoded(rt: &impl Abort, alloc: Global, input: &[u8], limit: usize) -> Result<(), Fail>
    requires { 6 ≤ limit }
{
    for end in 0..=input.len() {
        let cut = &input[..end.min(input.len())];
        same(rt, &encodes_as_slow(alloc, cut, limit, true)?, &true, &cut);
        same(rt, &encodes_as_slow(alloc, cut, limit, false)?, &true, &cut);
    }
    Ok(())
}

#[test]
fn encodes_as_the_slow_encoder(rt: HostRuntime) -> Result<(), Fail> {
    for seed in 0..300u32 {
        let input = mixed_pieces(rt.alloc(), 14, 12, seed)?;
        check_encoded(&rt, rt.alloc(), &input, 6 + (seed % 75) as usize)?;
    }
    Ok(())
}
