//! The bytes of scalars in each code, as Python's codecs write them.

use crate::codes::euc_jp::EucJp;
use crate::codes::euc_kr::EucKr;
use crate::codes::gb18030::Gb18030;
use crate::codes::single_byte::SingleByte;
use crate::codes::user_defined::UserDefined;
use crate::codes::utf8::Utf8Code;
use crate::codes::utf16::Utf16Code;
use crate::codes::windows_1252::Windows1252;
use crate::encode::EncodeCode;
use crate::testing::{Alphas, OneRow, same};
use enc_handles::endian::LittleEndian;
use std::process::Abort;

// A scalar and its bytes, none where it has none.
type Row = (char, &'static [u8]);

fn check_scalar<C: EncodeCode>(rt: &impl Abort, code: &C, scalar: char, wanted: &[u8]) {
    match code.bytes_of(scalar) {
        Some(bytes) => same(rt, &bytes.as_slice(), &wanted, &scalar),
        None => same(rt, &wanted.is_empty(), &true, &scalar),
    }
}

// The rows of a code whose scalars have at most `max` bytes.
fn check_bytes<C: EncodeCode>(rt: &impl Abort, code: &C, max: usize, rows: &[Row]) {
    same(rt, &code.max(), &max, &"most bytes");
    for row in rows {
        let (scalar, wanted) = *row;
        check_scalar(rt, code, scalar, wanted);
    }
}

const LATIN: [Row; 6] = [
    ('a', b"a"),
    ('\u{20ac}', b"\x80"),
    ('\u{81}', b"\x81"),
    ('\u{178}', b"\x9f"),
    ('\u{ff}', b"\xff"),
    ('\u{416}', b""),
];

const OWN: [Row; 4] = [
    ('a', b"a"),
    ('\u{f780}', b"\x80"),
    ('\u{f7ff}', b"\xff"),
    ('\u{f800}', b""),
];

const ALPHAS: [Row; 3] = [('a', b"a"), ('\u{3b1}', b"\x80"), ('\u{80}', b"")];

#[test]
fn one_byte(rt: HostRuntime) {
    check_bytes(&rt, &Windows1252::new(), 1, &LATIN);
    check_bytes(&rt, &UserDefined::new(), 1, &OWN);
    check_bytes(&rt, &SingleByte::new(&Alphas), 1, &ALPHAS);
}

const KOREAN: [Row; 3] = [('a', b"a"), ('\u{416}', b"\xac\xa8"), ('\u{80}', b"")];

const JAPANESE: [Row; 6] = [
    ('\u{416}', b"\xa7\xa8"),
    ('\u{a5}', b"\\"),
    ('\u{203e}', b"~"),
    ('\u{ff61}', b"\x8e\xa1"),
    ('\u{ff9f}', b"\x8e\xdf"),
    ('\u{2212}', b""),
];

#[test]
fn two_bytes(rt: HostRuntime) {
    check_bytes(&rt, &EucKr::new(&OneRow { place: 8273 }), 2, &KOREAN);
    let row = OneRow { place: 571 };
    check_bytes(&rt, &EucJp::new(&row, &row), 2, &JAPANESE);
}

const GBK: [Row; 4] = [
    ('\u{416}', b"\xa7\xa8"),
    ('\u{20ac}', b"\x80"),
    ('\u{e5e5}', b""),
    ('\u{3b1}', b""),
];

const GB18030: [Row; 3] = [
    ('\u{416}', b"\xa7\xa8"),
    ('\u{3b1}', b"\x81\x30\x81\x30"),
    ('\u{20ac}', b""),
];

const UTF_8: [Row; 4] = [
    ('a', b"a"),
    ('\u{e9}', b"\xc3\xa9"),
    ('\u{20ac}', b"\xe2\x82\xac"),
    ('\u{1f600}', b"\xf0\x9f\x98\x80"),
];

#[test]
fn one_to_four_bytes(rt: HostRuntime) {
    let row = OneRow { place: 7323 };
    check_bytes(&rt, &Gb18030::new(&row, &Alphas, true), 4, &GBK);
    check_bytes(&rt, &Gb18030::new(&row, &Alphas, false), 4, &GB18030);
    check_bytes(&rt, &Utf8Code::new(), 4, &UTF_8);
    check_bytes(&rt, &Utf16Code::<LittleEndian>::new(), 4, &UTF_8);
}
