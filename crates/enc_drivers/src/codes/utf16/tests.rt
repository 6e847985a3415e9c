//! The steps of UTF-16 in both byte orders, by the standard's decoder, and texts at every cut.

use crate::codes::utf16::Utf16Code;
use crate::testing::Want::*;
use crate::testing::{Front, Text, check_cuts, check_steps};
use enc_handles::endian::{BigEndian, LittleEndian};
use std::test::Fail;

const LITTLE: [Front; 8] = [
    (b"A", More, Bad(1)),
    (b"A\0", One('A', 2), One('A', 2)),
    (b"\x00\xd8", More, Bad(2)),
    (b"\x00\xd8A", More, Bad(3)),
    (b"\x00\xd8A\0", Bad(2), Bad(2)),
    (b"\x00\xd8\x00\xd8", Bad(2), Bad(2)),
    (
        b"\x3d\xd8\x00\xde",
        One('\u{1f600}', 4),
        One('\u{1f600}', 4),
    ),
    (b"\x00\xdc", Bad(2), Bad(2)),
];

const BIG: [Front; 8] = [
    (b"\xd8", More, Bad(1)),
    (b"\0A", One('A', 2), One('A', 2)),
    (b"\xd8\x00", More, Bad(2)),
    (b"\xd8\x00A", More, Bad(3)),
    (b"\xd8\x00\xdc", More, Bad(3)),
    (b"\xd8\x00\0A", Bad(2), Bad(2)),
    (
        b"\xd8\x3d\xde\x00",
        One('\u{1f600}', 4),
        One('\u{1f600}', 4),
    ),
    (b"\xff\xff\xdc", One('\u{ffff}', 2), One('\u{ffff}', 2)),
];

#[test]
fn steps(rt: HostRuntime) {
    check_steps(&rt, &Utf16Code::<LittleEndian>::new(), &LITTLE);
    check_steps(&rt, &Utf16Code::<BigEndian>::new(), &BIG);
}

const LITTLE_TEXTS: [Text; 1] = [(b"\x00\xd8A\0\x3d\xd8\x00\xde", "\u{fffd}A\u{1f600}", &[2])];

const BIG_TEXTS: [Text; 1] = [(b"\0A\xd8\x00A", "A\u{fffd}", &[3])];

#[test]
fn every_cut(rt: HostRuntime) -> Result<(), Fail> {
    let little = Utf16Code::<LittleEndian>::new();
    check_cuts(&rt, rt.alloc(), little, &LITTLE_TEXTS)?;
    check_cuts(&rt, rt.alloc(), Utf16Code::<BigEndian>::new(), &BIG_TEXTS)
}
