use super::*;
use crate::tables::IndexKind;
use crate::testing::same;
use EncoderResult::*;
use std::alloc::Global;
use std::process::Abort;
use std::test::Fail;

// Encodes text from UTF-8, and compares the answer and the bytes.
fn check(
    rt: &impl Abort,
    tables: &Tables,
    encoding: Encoding,
    text: &str,
    bytes: &[u8],
    end: EncoderResult,
) {
    assert!(rt; Encoder::can(encoding));
    assert!(rt; tables.has(encoding));
    let mut dst = [0; 8];
    let mut encoder = Encoder::new(encoding, tables);
    let answer = encoder.encode_from_utf8_without_replacement(text, &mut dst, true);
    same(rt, &answer, &(end, text.len(), bytes.len()), &text);
    same(rt, &&dst[..answer.2], &bytes, &text);
}

// An index of each kind that the rows need, by few pairs of a place and a scalar.
const INDEXES: [(IndexKind, &[(u32, u32)]); 5] = [
    (IndexKind::EucKr, &[(8273, 0x416)]),
    (IndexKind::Jis0208, &[(571, 0x416)]),
    (IndexKind::Jis0212, &[]),
    (IndexKind::Gb18030, &[]),
    (IndexKind::Gb18030Ranges, &[(0, 0x80), (189_000, 0x1_0000)]),
];

// Those of gb18030, whose rows give the euro sign two bytes.
const EURO: [(IndexKind, &[(u32, u32)]); 2] = [
    (IndexKind::Gb18030, &[(6432, 0x20AC)]),
    (IndexKind::Gb18030Ranges, &[(0, 0x80), (189_000, 0x1_0000)]),
];

// Tables with these indexes.
fn indexed(alloc: Global, indexes: &[(IndexKind, &'static [(u32, u32)])]) -> Result<Tables, Fail> {
    let mut tables = Tables::new();
    for index in indexes {
        let (kind, pairs) = *index;
        tables.add(alloc, kind, pairs).map_err(|_| "no index")?;
    }
    Ok(tables)
}

// An encoding, text, its bytes, and how the call ends.
type Row = (Encoding, &'static str, &'static [u8], EncoderResult);

const ROWS: [Row; 12] = [
    (Encoding::Utf8, "a\u{e9}", b"a\xc3\xa9", InputEmpty),
    (
        Encoding::Utf16Le,
        "\u{1f600}",
        b"\xf0\x9f\x98\x80",
        InputEmpty,
    ),
    (Encoding::Windows1252, "a\u{20ac}", b"a\x80", InputEmpty),
    (Encoding::Windows1252, "\u{416}", b"", Unmappable('\u{416}')),
    (Encoding::UserDefined, "\u{f780}", b"\x80", InputEmpty),
    (Encoding::Gbk, "\u{20ac}", b"\x80", InputEmpty),
    (Encoding::Gbk, "\u{80}", b"", Unmappable('\u{80}')),
    (Encoding::Gb18030, "\u{80}", b"\x81\x30\x81\x30", InputEmpty),
    (Encoding::EucJp, "\u{a5}", b"\x5c", InputEmpty),
    (Encoding::EucJp, "\u{ff61}", b"\x8e\xa1", InputEmpty),
    (Encoding::EucJp, "\u{416}", b"\xa7\xa8", InputEmpty),
    (Encoding::EucKr, "\u{416}", b"\xac\xa8", InputEmpty),
];

#[test]
fn writes_bytes(rt: HostRuntime) -> Result<(), Fail> {
    let tables = indexed(rt.alloc(), &INDEXES)?;
    for row in &ROWS {
        let (encoding, text, bytes, end) = *row;
        check(&rt, &tables, encoding, text, bytes, end);
    }
    let euro = indexed(rt.alloc(), &EURO)?;
    let bytes = b"\xa2\xe3".as_slice();
    check(&rt, &euro, Encoding::Gb18030, "\u{20ac}", bytes, InputEmpty);
    Ok(())
}

// Encodes text from UTF-16, and compares the answer and the bytes.
fn check_units(
    rt: &impl Abort,
    encoder: &mut Encoder,
    units: &[u16],
    end: EncoderResult,
    read: usize,
    bytes: &[u8],
) {
    let mut dst = [0; 4];
    let answer = encoder.encode_from_utf16_without_replacement(units, &mut dst, true);
    same(rt, &answer, &(end, read, bytes.len()), &units);
    same(rt, &&dst[..answer.2], &bytes, &units);
}

#[test]
fn reads_utf_16(rt: HostRuntime) {
    let tables = Tables::new();
    let mut encoder = Encoder::new(Encoding::Windows1252, &tables);
    let wrong = Unmappable('\u{fffd}');
    check_units(&rt, &mut encoder, &[0xD800, 0x61], wrong, 1, b"");
    check_units(&rt, &mut encoder, &[0x61, 0x20AC], InputEmpty, 2, b"a\x80");
}

// An encoding, and whether it has an encoder.
const ENCODERS: [(Encoding, bool); 4] = [
    (Encoding::Big5, false),
    (Encoding::ShiftJis, false),
    (Encoding::Iso2022Jp, false),
    (Encoding::Iso8859_8I, true),
];

#[test]
fn has_no_encoder_of_three(rt: HostRuntime) {
    for row in &ENCODERS {
        let (encoding, can) = *row;
        same(&rt, &Encoder::can(encoding), &can, &encoding);
    }
}
