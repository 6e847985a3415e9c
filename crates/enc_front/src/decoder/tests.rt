use super::*;
use crate::encoding::SingleName;
use crate::tables::IndexKind;
use crate::testing::same;
use CoderResult::{InputEmpty, OutputFull};
use Encoding::*;
use Made::*;
use std::alloc::Global;
use std::process::Abort;
use std::test::Fail;

// How a decoder is made.
#[derive(Clone, Copy, Debug)]
enum Made {
    New,
    WithBomRemoval,
    WithoutBomHandling,
}

// A decoder that is made so.
fn make<'t>(rt: &impl Abort, made: Made, encoding: Encoding, tables: &'t Tables) -> Decoder<'t> {
    assert!(rt; tables.has(encoding));
    match made {
        Made::New => Decoder::new(encoding, tables),
        Made::WithBomRemoval => Decoder::new_with_bom_removal(encoding, tables),
        Made::WithoutBomHandling => Decoder::new_without_bom_handling(encoding, tables),
    }
}

// Decodes a piece in calls with room for four bytes, and appends its text.
fn decode_piece(
    rt: &impl Abort,
    decoder: &mut Decoder,
    piece: &[u8],
    last: bool,
    text: &mut Vec<u8>,
) -> Result<(), Fail> {
    let mut dst = [0; 4];
    let mut rest = piece;
    for _ in 0..100 {
        assert!(rt; !decoder.is_finished());
        let (result, read, written, _) = decoder.decode_to_utf8(rest, &mut dst, last);
        text.extend_from_slice(&dst[..written])?;
        rest = &rest[read..];
        if let CoderResult::InputEmpty = result {
            same(rt, &decoder.is_finished(), &last, &piece);
            return Ok(());
        }
    }
    Err("no end")?
}

// How a decoder is made, its encoding, the bytes, their text, and the encoding at the end.
type Row = (Made, Encoding, &'static [u8], &'static str, Encoding);

const ROWS: [Row; 41] = [
    // parts of a mark, alone and before other bytes
    (
        New,
        Windows1252,
        b"\xef\xbb\x61",
        "\u{ef}\u{bb}a",
        Windows1252,
    ),
    (New, Windows1252, b"\xfe\x61", "\u{fe}a", Windows1252),
    (New, Windows1252, b"\xff", "\u{ff}", Windows1252),
    (New, Big5, b"\xef\xbb\x61", "\u{fffd}a", Big5),
    (New, Utf16Le, b"\xfe\xfea\0", "\u{fefe}a", Utf16Le),
    // marks
    (New, Windows1252, b"\xef\xbb\xbf\xc3\xa9", "\u{e9}", Utf8),
    (New, Utf8, b"\xef\xbb\xbf\xef\xbb\xbf", "\u{feff}", Utf8),
    (New, Gb18030, b"\xff\xfea\0", "a", Utf16Le),
    (New, Iso2022Jp, b"\xfe\xff\0a", "a", Utf16Be),
    (WithBomRemoval, Utf8, b"\xef\xbb\xbfa", "a", Utf8),
    (
        WithBomRemoval,
        Utf16Be,
        b"\xff\xfe\0a",
        "\u{fffe}a",
        Utf16Be,
    ),
    (
        WithBomRemoval,
        Windows1252,
        b"\xef\xbb\xbf",
        "\u{ef}\u{bb}\u{bf}",
        Windows1252,
    ),
    (
        WithoutBomHandling,
        Utf8,
        b"\xef\xbb\xbfa",
        "\u{feff}a",
        Utf8,
    ),
    // malformed units, and others that are cut by the end
    (New, Utf16Le, b"\x00\xd8A\0", "\u{fffd}A", Utf16Le),
    (New, Utf16Be, b"\xd8\x00A", "\u{fffd}", Utf16Be),
    (New, Utf8, b"\xed\xa0\x80", "\u{fffd}\u{fffd}\u{fffd}", Utf8),
    (New, Utf8, b"\xe2\x82A", "\u{fffd}A", Utf8),
    (New, Utf8, b"\xf0\x90", "\u{fffd}", Utf8),
    (New, UserDefined, b"\x7f\x80", "\x7f\u{f780}", UserDefined),
    // by an index
    (
        New,
        Single(SingleName::Koi8R),
        b"a\x80\x81",
        "a\u{2500}\u{fffd}",
        Single(SingleName::Koi8R),
    ),
    (New, Iso8859_8I, b"\xe0\xe1", "\u{5d0}\u{fffd}", Iso8859_8I),
    (
        New,
        Gb18030,
        b"\x81\x30\x81\x41",
        "\u{fffd}0\u{4e04}",
        Gb18030,
    ),
    (New, Gb18030, b"\x90\x30\x81\x30", "\u{10000}", Gb18030),
    (New, Gbk, b"\x80\xa7\xa8", "\u{20ac}\u{416}", Gbk),
    (New, EucKr, b"\xac\xa8", "\u{416}", EucKr),
    (New, Big5, b"\xc7\xfa", "\u{416}", Big5),
    (New, Big5, b"\x88\x62", "\u{ca}\u{304}", Big5),
    (New, Big5, b"\x81\x80", "\u{fffd}", Big5),
    (New, Big5, b"\x81\x40", "\u{fffd}@", Big5),
    (New, ShiftJis, b"\x84\x47", "\u{416}", ShiftJis),
    (New, ShiftJis, b"\x81\x20", "\u{fffd} ", ShiftJis),
    (
        New,
        EucJp,
        b"\xa7\xa8\x8f\xa2\xa1",
        "\u{416}\u{4e02}",
        EucJp,
    ),
    (New, EucJp, b"\x8f\xa1\x41", "\u{fffd}A", EucJp),
    // the sets of ISO-2022-JP, and escapes behind escapes, cut, and unknown
    (
        New,
        Iso2022Jp,
        b"\x1b\x24\x42\x24\x22\x1b\x28\x42",
        "\u{3042}",
        Iso2022Jp,
    ),
    (
        New,
        Iso2022Jp,
        b"\x1b\x28\x4a\x5c\x7e",
        "\u{a5}\u{203e}",
        Iso2022Jp,
    ),
    (New, Iso2022Jp, b"\x1b\x28\x49\x31", "\u{ff71}", Iso2022Jp),
    (
        New,
        Iso2022Jp,
        b"\x1b\x28\x42\x1b\x28\x42\x61",
        "\u{fffd}a",
        Iso2022Jp,
    ),
    (New, Iso2022Jp, b"\x1b\x24\x61", "\u{fffd}$a", Iso2022Jp),
    (
        New,
        Iso2022Jp,
        b"\x1b\x24\x42\x24\x0a\x61",
        "\u{fffd}\u{fffd}",
        Iso2022Jp,
    ),
    (
        New,
        Iso2022Jp,
        b"\x1b\x24\x42\x1b\x24",
        "\u{fffd}\u{fffd}",
        Iso2022Jp,
    ),
    (
        New,
        Iso2022Jp,
        b"\x1b\x24\x42\x24\x1b\x28\x42\x61",
        "\u{fffd}a",
        Iso2022Jp,
    ),
];

// An index of each kind that the rows need, by few pairs of a place and a scalar.
const INDEXES: [(IndexKind, &[(u32, u32)]); 8] = [
    (IndexKind::Big5, &[(1133, 0x4E00), (11142, 0x416)]),
    (IndexKind::EucKr, &[(8273, 0x416)]),
    (IndexKind::Jis0208, &[(283, 0x3042), (571, 0x416)]),
    (IndexKind::Jis0212, &[(94, 0x4E02)]),
    (IndexKind::Gb18030, &[(1, 0x4E04), (7323, 0x416)]),
    (IndexKind::Gb18030Ranges, &[(0, 0x80), (189_000, 0x1_0000)]),
    (IndexKind::Single(SingleName::Koi8R), &[(0, 0x2500)]),
    (IndexKind::Single(SingleName::Iso8859_8), &[(0x60, 0x5D0)]),
];

// Tables with these indexes.
pub(crate) fn indexed(alloc: Global) -> Result<Tables, Fail> {
    let mut tables = Tables::new();
    for index in &INDEXES {
        let (kind, pairs) = *index;
        tables.add(alloc, kind, pairs).map_err(|_| "no index")?;
    }
    Ok(tables)
}

// Decodes bytes that are cut at two places, and compares the text and the encoding at the end.
fn check_cut(
    rt: &impl Abort,
    alloc: Global,
    mut decoder: Decoder,
    bytes: &[u8],
    cuts: (usize, usize),
    want: (&str, Encoding),
) -> Result<(), Fail> {
    let (first, second) = cuts;
    assert!(rt; first <= second);
    assert!(rt; second <= bytes.len());
    let mut text = Vec::new(alloc);
    decode_piece(rt, &mut decoder, &bytes[..first], false, &mut text)?;
    decode_piece(rt, &mut decoder, &bytes[first..second], false, &mut text)?;
    decode_piece(rt, &mut decoder, &bytes[second..], true, &mut text)?;
    let name = (bytes, first, second);
    same(rt, &text.as_slice(), &want.0.as_bytes(), &name);
    same(rt, &decoder.encoding(), &want.1, &name);
    Ok(())
}

// Decodes the bytes of a row at any two cuts.
fn check_cuts(
    rt: &impl Abort,
    alloc: Global,
    tables: &Tables,
    made: (Made, Encoding),
    bytes: &[u8],
    want: (&str, Encoding),
) -> Result<(), Fail> {
    for second in 0..=bytes.len() {
        for first in 0..second {
            let decoder = make(rt, made.0, made.1, tables);
            check_cut(rt, alloc, decoder, bytes, (first, second), want)?;
        }
    }
    Ok(())
}

#[test]
fn decodes_the_same_at_any_two_cuts(rt: HostRuntime) -> Result<(), Fail> {
    let tables = indexed(rt.alloc())?;
    for row in &ROWS {
        let (made, encoding, bytes, text, then) = *row;
        check_cuts(
            &rt,
            rt.alloc(),
            &tables,
            (made, encoding),
            bytes,
            (text, then),
        )?;
    }
    Ok(())
}

// A call without replacement, and what it answers.
fn check_raw(
    rt: &impl Abort,
    decoder: &mut Decoder,
    src: &[u8],
    last: bool,
    want: (DecoderResult, usize, usize),
) {
    assert!(rt; !decoder.is_finished());
    assert!(rt; !decoder.owes());
    let mut dst = [0; 4];
    let answer = decoder.decode_to_utf8_without_replacement(src, &mut dst, last);
    same(rt, &answer, &want, &src);
}

#[test]
fn tells_malformed_units(rt: HostRuntime) {
    let tables = Tables::new();
    let mut decoder = Decoder::new(Encoding::Utf16Le, &tables);
    let held = (DecoderResult::InputEmpty, 2, 0);
    check_raw(&rt, &mut decoder, b"\x00\xd8", false, held);
    let malformed = (DecoderResult::Malformed(2, 2), 2, 0);
    check_raw(&rt, &mut decoder, b"A\0", false, malformed);
    assert!(rt; !decoder.is_finished());
    assert!(rt; !decoder.owes());
    let mut units = [0; 2];
    let end = decoder.decode_to_utf16_without_replacement(b"", &mut units, true);
    same(&rt, &end, &(DecoderResult::InputEmpty, 0, 1), &"end");
    same(&rt, &units[0], &0x41, &"end");
    assert!(rt; decoder.is_finished());
}

// What lies behind the count is free, and shows here that a decoder calls the driver that copies
// runs of ASCII.
#[test]
fn copies_runs_of_ascii(rt: HostRuntime) -> Result<(), Fail> {
    let mut tables = Tables::new();
    tables
        .add(rt.alloc(), IndexKind::EucKr, &[])
        .map_err(|_| "no index")?;
    assert!(rt; tables.has(Encoding::EucKr));
    let mut decoder = Decoder::new_without_bom_handling(Encoding::EucKr, &tables);
    assert!(rt; !decoder.is_finished());
    assert!(rt; !decoder.owes());
    let mut dst = [0; 16];
    let src = b"abc\xffxxxxxxxxxxxx";
    let answer = decoder.decode_to_utf8_without_replacement(src, &mut dst, true);
    same(
        &rt,
        &answer,
        &(DecoderResult::Malformed(1, 0), 4, 3),
        &"malformed",
    );
    same(&rt, &dst[5], &b'x', &"behind");
    Ok(())
}

// A call to UTF-8 with so much room: what it answers and writes, and what the decoder owes then.
fn check_call(
    rt: &impl Abort,
    decoder: &mut Decoder,
    src: &[u8],
    room: usize,
    last: bool,
    want: (CoderResult, usize, &[u8], bool, bool),
) {
    assert!(rt; !decoder.is_finished());
    assert!(rt; room <= 4);
    let mut dst = [0; 4];
    let (result, read, written, replaced) = decoder.decode_to_utf8(src, &mut dst[..room], last);
    let got = (result, read, &dst[..written], replaced, decoder.owes());
    same(rt, &got, &want, &room);
}

// Bytes of a call, its room, whether it is the last, and what it answers and writes, and what the
// decoder owes then.
type Call = (
    &'static [u8],
    usize,
    bool,
    (CoderResult, usize, &'static [u8], bool, bool),
);

const CALLS: [Call; 3] = [
    (b"\xc3", 4, false, (InputEmpty, 1, b"", false, false)),
    (b"", 2, true, (OutputFull, 0, b"", false, true)),
    (b"", 3, true, (InputEmpty, 0, b"\xef\xbf\xbd", true, false)),
];

#[test]
fn owes_what_has_no_room(rt: HostRuntime) {
    let tables = Tables::new();
    let mut decoder = Decoder::new_without_bom_handling(Encoding::Utf8, &tables);
    for call in &CALLS {
        let (src, room, last, want) = *call;
        check_call(&rt, &mut decoder, src, room, last, want);
    }
    assert!(rt; decoder.is_finished());
}

// A last call to UTF-16 with so much room: what it answers and writes, and what the decoder owes
// then.
fn check_units_call(
    rt: &impl Abort,
    decoder: &mut Decoder,
    src: &[u8],
    room: usize,
    want: (CoderResult, usize, &[u16], bool, bool),
) {
    assert!(rt; !decoder.is_finished());
    assert!(rt; room <= 1);
    let mut dst = [0; 1];
    let (result, read, written, replaced) = decoder.decode_to_utf16(src, &mut dst[..room], true);
    let got = (result, read, &dst[..written], replaced, decoder.owes());
    same(rt, &got, &want, &room);
}

#[test]
fn owes_what_has_no_room_in_utf_16(rt: HostRuntime) {
    let tables = Tables::new();
    let mut decoder = Decoder::new(Encoding::Utf8, &tables);
    let full = (OutputFull, 1, [].as_slice(), false, true);
    check_units_call(&rt, &mut decoder, b"\xffa", 0, full);
    let one = (OutputFull, 0, [0xFFFD].as_slice(), true, false);
    check_units_call(&rt, &mut decoder, b"a", 1, one);
}

// Decodes bytes that are cut at a place to UTF-16, and compares the code units.
fn check_units(
    rt: &impl Abort,
    tables: &Tables,
    encoding: Encoding,
    bytes: &[u8],
    cut: usize,
    want: &[u16],
) {
    assert!(rt; cut <= bytes.len());
    assert!(rt; tables.has(encoding));
    let mut decoder = Decoder::new(encoding, tables);
    let mut dst = [0; 6];
    let (_, read, first, _) = decoder.decode_to_utf16(&bytes[..cut], &mut dst, false);
    let name = (bytes, cut);
    same(rt, &read, &cut, &name);
    let (result, _, second, _) = decoder.decode_to_utf16(&bytes[cut..], &mut dst[first..], true);
    same(rt, &result, &CoderResult::InputEmpty, &name);
    same(rt, &&dst[..first + second], &want, &name);
}

// An encoding, bytes, and their text as code units.
type UnitsRow = (Encoding, &'static [u8], &'static [u16]);

const UNITS: [UnitsRow; 11] = [
    (Utf16Le, b"\x00\xd8A\0", &[0xFFFD, 0x41]),
    (Utf8, b"\xed\xa0\x80", &[0xFFFD, 0xFFFD, 0xFFFD]),
    (Utf8, b"\xe2\x82A", &[0xFFFD, 0x41]),
    (Utf8, b"\xf0\x90", &[0xFFFD]),
    (
        Utf8,
        b"\xff\xfe\x3d\xd8\x00\xdea\0",
        &[0xD83D, 0xDE00, 0x61],
    ),
    (
        Windows1252,
        b"\xef\xbb\xbf\xf0\x9f\x98\x80",
        &[0xD83D, 0xDE00],
    ),
    (EucKr, b"\xac\xa8", &[0x416]),
    (Big5, b"\x88\x62", &[0xCA, 0x304]),
    (EucJp, b"\xa7\xa8\x8f\xa2\xa1", &[0x416, 0x4E02]),
    (
        Gb18030,
        b"\x90\x30\x81\x30\xa7\xa8",
        &[0xD800, 0xDC00, 0x416],
    ),
    (Iso2022Jp, b"\x1b\x24\x42\x24\x22", &[0x3042]),
];

#[test]
fn writes_utf_16_at_every_cut(rt: HostRuntime) -> Result<(), Fail> {
    let tables = indexed(rt.alloc())?;
    for row in &UNITS {
        let (encoding, bytes, want) = *row;
        for cut in 0..=bytes.len() {
            check_units(&rt, &tables, encoding, bytes, cut, want);
        }
    }
    Ok(())
}
