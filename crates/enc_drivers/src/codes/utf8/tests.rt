//! The steps of UTF-8, by the standard's decoder, and texts at every cut.

use crate::codes::utf8::Utf8Code;
use crate::testing::Want::*;
use crate::testing::{Front, Text, check_cuts, check_steps};
use std::test::Fail;

const STEPS: [Front; 24] = [
    (b"A", One('A', 1), One('A', 1)),
    (b"\x7f\xff", One('\x7f', 1), One('\x7f', 1)),
    (b"\xc3", More, Bad(1)),
    (b"\xc3\xa9", One('\u{e9}', 2), One('\u{e9}', 2)),
    (b"\xc3A", Bad(1), Bad(1)),
    (b"\xc0", Bad(1), Bad(1)),
    (b"\xc1\xbf", Bad(1), Bad(1)),
    (b"\x80", Bad(1), Bad(1)),
    (b"\xe0", More, Bad(1)),
    (b"\xe0\x9f", Bad(1), Bad(1)),
    (b"\xe0\xa0", More, Bad(2)),
    (b"\xe2\x82", More, Bad(2)),
    (b"\xe2\x82A", Bad(2), Bad(2)),
    (b"\xe2\x82\xac", One('\u{20ac}', 3), One('\u{20ac}', 3)),
    (b"\xed\x9f", More, Bad(2)),
    (b"\xed\xa0", Bad(1), Bad(1)),
    (b"\xf0", More, Bad(1)),
    (b"\xf0\x8f", Bad(1), Bad(1)),
    (b"\xf0\x9f", More, Bad(2)),
    (b"\xf0\x9f\x98", More, Bad(3)),
    (b"\xf0\x9f\x98A", Bad(3), Bad(3)),
    (
        b"\xf0\x9f\x98\x80",
        One('\u{1f600}', 4),
        One('\u{1f600}', 4),
    ),
    (b"\xf4\x90", Bad(1), Bad(1)),
    (b"\xf5", Bad(1), Bad(1)),
];

#[test]
fn steps(rt: HostRuntime) {
    check_steps(&rt, &Utf8Code::new(), &STEPS);
}

const TEXTS: [Text; 6] = [
    (b"", "", b""),
    (b"\xed\xa0\x80", "\u{fffd}\u{fffd}\u{fffd}", &[1, 1, 1]),
    (b"\xe2\x82A", "\u{fffd}A", &[2]),
    (b"\xf0\x90", "\u{fffd}", &[2]),
    (b"\xf0\x9f\x98\xf0\x9f\x98\x80", "\u{fffd}\u{1f600}", &[3]),
    (
        b"Gr\xc3\xbc\xc3\x9fe \xe2\x82\xac \xf0\x9f\x98\x80\xff!",
        "Gr\u{fc}\u{df}e \u{20ac} \u{1f600}\u{fffd}!",
        &[1],
    ),
];

#[test]
fn every_cut(rt: HostRuntime) -> Result<(), Fail> {
    check_cuts(&rt, rt.alloc(), Utf8Code::new(), &TEXTS)
}
