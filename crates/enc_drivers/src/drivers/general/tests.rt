//! The general driver on streams in pieces.

use crate::code::Code;
use crate::codes::euc_kr::EucKr;
use crate::codes::iso_2022_jp::Iso2022Jp;
use crate::codes::single_byte::SingleByte;
use crate::codes::utf8::Utf8Code;
use crate::codes::utf16::Utf16Code;
use crate::codes::windows_1252::Windows1252;
use crate::drivers::general::GeneralDriver;
use crate::testing::{Alphas, Nothing, Told, check_by_units, same};
use DecoderResult::*;
use enc_handles::endian::{BigEndian, LittleEndian};
use enc_handles::results::DecoderResult;
use std::process::Abort;
use std::test::Fail;

// How a call ended, what it read and what it wrote.
type Answer = (DecoderResult, usize, usize);

// Decodes a piece into this room.
fn check_call<C: Code>(
    rt: &impl Abort,
    driver: &mut GeneralDriver<C>,
    piece: &[u8],
    dst: &mut [u8],
    last: bool,
    wanted: Answer,
) {
    let answer = driver.decode_to_utf8_raw(piece, dst, last);
    same(rt, &answer, &wanted, &piece);
}

#[test]
fn holds_the_code_unit_behind_a_lead(rt: HostRuntime) {
    let mut driver = GeneralDriver::new(Utf16Code::<LittleEndian>::new());
    let mut dst = [0; 10];
    check_call(
        &rt,
        &mut driver,
        b"\x00\xd8",
        &mut dst,
        false,
        (InputEmpty, 2, 0),
    );
    check_call(
        &rt,
        &mut driver,
        b"A\0",
        &mut dst,
        false,
        (Malformed(2, 2), 2, 0),
    );
    check_call(&rt, &mut driver, b"", &mut dst, true, (InputEmpty, 0, 1));
    same(&rt, &dst[0], &b'A', &"text");
}

// Two pieces, and the answer to the second one, whose last number of a malformed unit counts what
// is held behind it.
type Cut = (&'static [u8], &'static [u8], Answer);

fn check_held<C: Code + Drop>(
    rt: &impl Abort,
    code: C,
    first: &[u8],
    second: &[u8],
    wanted: Answer,
) {
    let mut driver = GeneralDriver::new(code);
    let mut dst = [0; 10];
    let begun = (InputEmpty, first.len(), 0);
    check_call(rt, &mut driver, first, &mut dst, false, begun);
    check_call(rt, &mut driver, second, &mut dst, false, wanted);
}

const UTF_8: [Cut; 5] = [
    (b"", b"\xffabc", (Malformed(1, 0), 1, 0)),
    (b"\xc3", b"abc", (Malformed(1, 1), 1, 0)),
    (b"\xf0", b"\x8fab", (Malformed(1, 1), 1, 0)),
    (b"\xe2\x82", b"abc", (Malformed(2, 1), 1, 0)),
    (b"\xf0\x9f", b"\x98abc", (Malformed(3, 1), 2, 0)),
];

const LITTLE: [Cut; 1] = [(b"\x00", b"\xd8A\0B\0", (Malformed(2, 2), 3, 0))];

const BIG: [Cut; 2] = [
    (b"\xd8", b"\x00\0A\0B", (Malformed(2, 2), 3, 0)),
    (b"\xdc", b"\x00\0A", (Malformed(2, 0), 1, 0)),
];

const NONE: [Cut; 1] = [(b"", b"\x80abc", (Malformed(1, 0), 1, 0))];

#[test]
fn reads_no_byte_behind_what_decides(rt: HostRuntime) {
    for row in &UTF_8 {
        let (first, second, wanted) = *row;
        check_held(&rt, Utf8Code::new(), first, second, wanted);
    }
    for row in &LITTLE {
        let (first, second, wanted) = *row;
        check_held(&rt, Utf16Code::<LittleEndian>::new(), first, second, wanted);
    }
    for row in &BIG {
        let (first, second, wanted) = *row;
        check_held(&rt, Utf16Code::<BigEndian>::new(), first, second, wanted);
    }
    for row in &NONE {
        let (first, second, wanted) = *row;
        check_held(&rt, SingleByte::new(&Nothing), first, second, wanted);
    }
}

#[test]
fn ends_without_room(rt: HostRuntime) {
    let mut driver = GeneralDriver::new(Utf8Code::new());
    check_call(&rt, &mut driver, b"", &mut [], true, (InputEmpty, 0, 0));
}

// Decodes bytes as UTF-8 to UTF-16 in one call.
fn check_utf16(rt: &impl Abort, bytes: &[u8], dst: &mut [u16], wanted: Answer) {
    let mut driver = GeneralDriver::new(Utf8Code::new());
    let answer = driver.decode_to_utf16_raw(bytes, dst, true);
    same(rt, &answer, &wanted, &bytes);
}

#[test]
fn too_little_room(rt: HostRuntime) {
    let mut driver = GeneralDriver::new(Utf8Code::new());
    let mut bytes = [0; 3];
    check_call(
        &rt,
        &mut driver,
        b"ab\xc3\xa9",
        &mut bytes,
        true,
        (OutputFull, 2, 2),
    );
    let mut units = [0; 1];
    check_utf16(&rt, b"\xf0\x9f\x98\x80", &mut units, (OutputFull, 0, 0));
    check_utf16(&rt, b"\xc3\xa9", &mut units, (InputEmpty, 2, 1));
    same(&rt, &units[0], &0xe9, &"unit");
}

#[test]
fn to_utf_16(rt: HostRuntime) {
    let mut units = [0; 6];
    let bytes = b"a\xe2\x82\xac\xf0\x9f\x98\x80";
    check_utf16(&rt, bytes, &mut units, (InputEmpty, 8, 4));
    same(&rt, &units, &[0x61, 0x20ac, 0xd83d, 0xde00, 0, 0], &"units");
}

const TEXT: &[u8] =
    b"abcdefghijklmnopqrst\xc3\xa9\xe2\x82\xac\xf0\x9f\x98\x80\xff\xe2\x82A\xf0\x9f\x98";

const BYTES: &[u8] = b"abcdefghijklmnopqrst\xe9\x80\x9f<=>uvwxyz\xff\xff";

const PAIRS: &[u8] = b"abcdefghijklmnopqrst\xb0\xa1\xb0A<\xff\xb0\xa1\xb0\xffuvw\xb0";

const ESCAPES: &[u8] = b"ab\x1b$B$\"0!\x1b(Jc\\~\x1b(I1\x1b(B\x1b$Bxyz\x1b$$A";

#[test]
fn copies_are_as_unit_by_unit(rt: HostRuntime) -> Result<(), Fail> {
    let alloc = rt.alloc();
    check_by_units(&rt, alloc, Utf8Code::new(), &Utf8Code::new(), TEXT)?;
    check_by_units(&rt, alloc, Windows1252::new(), &Windows1252::new(), BYTES)?;
    let single = SingleByte::new(&Nothing);
    check_by_units(&rt, alloc, SingleByte::new(&Nothing), &single, BYTES)?;
    let korean = EucKr::new(&Alphas);
    check_by_units(&rt, alloc, EucKr::new(&Alphas), &korean, PAIRS)?;
    let none = EucKr::new(&Nothing);
    check_by_units(&rt, alloc, EucKr::new(&Nothing), &none, PAIRS)?;
    let japanese = Iso2022Jp::new(&Alphas);
    check_by_units(&rt, alloc, Iso2022Jp::new(&Alphas), &japanese, ESCAPES)
}

const LITTLE_UNITS: &[u8] =
    b"a\0b\0\xe9\0\xac\x20\x3d\xd8\0\xde\0\xdcc\0\0\xd8d\0\0\xd8\x01\xd8\0\xdce\0\0\xd8f";

const BIG_UNITS: &[u8] =
    b"\0a\0b\0\xe9\x20\xac\xd8\x3d\xde\0\xdc\0\0c\xd8\0\0d\xd8\0\xd8\x01\xdc\0\0e\xd8\0f";

#[test]
fn units_of_sixteen_bits_are_as_unit_by_unit(rt: HostRuntime) -> Result<(), Fail> {
    let alloc = rt.alloc();
    let little = Utf16Code::<LittleEndian>::new();
    check_by_units(&rt, alloc, Utf16Code::new(), &little, LITTLE_UNITS)?;
    let big = Utf16Code::<BigEndian>::new();
    check_by_units(&rt, alloc, Utf16Code::new(), &big, BIG_UNITS)
}

const SINGLE: &[u8] = b"\x80\x80\x80\x80\x80 \x80\x80\x80\x80\x80\x80\x80A\x81\x80";

const KOREAN: &[u8] = b"\xb0\xa1\xb0\xa1\xb0\xa1 \xb0\xa1b\xb0\xa1\xff\xb0\xa1\xb0";

// Entries that an index tells, eight bytes at a time and one scalar at a time, between others.
#[test]
fn copies_what_an_index_tells(rt: HostRuntime) -> Result<(), Fail> {
    let told = Told::new();
    let single = SingleByte::new(&told);
    check_by_units(&rt, rt.alloc(), SingleByte::new(&told), &single, SINGLE)?;
    let korean = EucKr::new(&told);
    check_by_units(&rt, rt.alloc(), EucKr::new(&told), &korean, KOREAN)
}
