//! The steps of Big5, and texts at every cut.

use crate::codes::big5::Big5;
use crate::testing::Want::*;
use crate::testing::{Alphas, Front, Nothing, OneRow, Text, check_cuts, check_steps};
use std::test::Fail;

const NONE: [Front; 10] = [
    (b"A", One('A', 1), One('A', 1)),
    (b"\x7f\xff", One('\x7f', 1), One('\x7f', 1)),
    (b"\x80", Bad(1), Bad(1)),
    (b"\xff", Bad(1), Bad(1)),
    (b"\x81", More, Bad(1)),
    (b"\xfe", More, Bad(1)),
    (b"\x81\x40", Bad(1), Bad(1)),
    (b"\x81\x7f", Bad(1), Bad(1)),
    (b"\x81\x80", Bad(2), Bad(2)),
    (b"\x81\xa1A", Bad(2), Bad(2)),
];

const GREEK: [Front; 8] = [
    (b"\x81\x3f", Bad(1), Bad(1)),
    (b"\x81\x40", One('\u{3b1}', 2), One('\u{3b1}', 2)),
    (b"\x81\x7e", One('\u{3b1}', 2), One('\u{3b1}', 2)),
    (b"\x81\x7f", Bad(1), Bad(1)),
    (b"\x81\xa0", Bad(2), Bad(2)),
    (b"\x81\xa1", One('\u{3b1}', 2), One('\u{3b1}', 2)),
    (b"\xfe\xfe", One('\u{3b1}', 2), One('\u{3b1}', 2)),
    (b"\xfe\xff", Bad(2), Bad(2)),
];

#[test]
fn steps(rt: HostRuntime) {
    check_steps(&rt, &Big5::new(&Nothing), &NONE);
    check_steps(&rt, &Big5::new(&Alphas), &GREEK);
}

const NONE_TEXTS: [Text; 3] = [
    (b"\x81\x80", "\u{fffd}", &[2]),
    (b"\x81\x40", "\u{fffd}@", &[1]),
    (b"a\x80b\x81", "a\u{fffd}b\u{fffd}", &[1, 1]),
];

const MARKED: [Text; 1] = [(
    b"\x88\x62\x88\x64\x88\xa3\x88\xa5",
    "\u{ca}\u{304}\u{ca}\u{30c}\u{ea}\u{304}\u{ea}\u{30c}",
    b"",
)];

const ONE: [Text; 1] = [(
    b"\xc7\xfaA\xc7\xf9\xc7A",
    "\u{416}A\u{fffd}\u{fffd}A",
    &[2, 1],
)];

#[test]
fn every_cut(rt: HostRuntime) -> Result<(), Fail> {
    check_cuts(&rt, rt.alloc(), Big5::new(&Nothing), &NONE_TEXTS)?;
    check_cuts(&rt, rt.alloc(), Big5::new(&Nothing), &MARKED)?;
    check_cuts(&rt, rt.alloc(), Big5::new(&Alphas), &MARKED)?;
    let row = OneRow { place: 11142 };
    check_cuts(&rt, rt.alloc(), Big5::new(&row), &ONE)
}
