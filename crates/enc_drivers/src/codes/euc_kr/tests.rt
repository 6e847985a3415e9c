//! The steps of EUC-KR, and texts at every cut.

use crate::codes::euc_kr::EucKr;
use crate::testing::Want::*;
use crate::testing::{Alphas, Front, Nothing, OneRow, Text, check_cuts, check_steps};
use std::test::Fail;

const NONE: [Front; 7] = [
    (b"A", One('A', 1), One('A', 1)),
    (b"\x80", Bad(1), Bad(1)),
    (b"\xff", Bad(1), Bad(1)),
    (b"\x81", More, Bad(1)),
    (b"\xfe", More, Bad(1)),
    (b"\x81\x41", Bad(1), Bad(1)),
    (b"\x81\x81A", Bad(2), Bad(2)),
];

const GREEK: [Front; 6] = [
    (b"\x81\x40", Bad(1), Bad(1)),
    (b"\x81\x41", One('\u{3b1}', 2), One('\u{3b1}', 2)),
    (b"\x81\x7f", One('\u{3b1}', 2), One('\u{3b1}', 2)),
    (b"\x81\x80", One('\u{3b1}', 2), One('\u{3b1}', 2)),
    (b"\xfe\xfe", One('\u{3b1}', 2), One('\u{3b1}', 2)),
    (b"\xfe\xff", Bad(2), Bad(2)),
];

#[test]
fn steps(rt: HostRuntime) {
    check_steps(&rt, &EucKr::new(&Nothing), &NONE);
    check_steps(&rt, &EucKr::new(&Alphas), &GREEK);
}

const NONE_TEXTS: [Text; 3] = [
    (b"\xb0\xa1", "\u{fffd}", &[2]),
    (b"\xb0A", "\u{fffd}A", &[1]),
    (b"a\x80b\xb0", "a\u{fffd}b\u{fffd}", &[1, 1]),
];

const ONE: [Text; 1] = [(
    b"\xac\xa8A\xac\xa9\xacA",
    "\u{416}A\u{fffd}\u{fffd}A",
    &[2, 1],
)];

#[test]
fn every_cut(rt: HostRuntime) -> Result<(), Fail> {
    check_cuts(&rt, rt.alloc(), EucKr::new(&Nothing), &NONE_TEXTS)?;
    let row = OneRow { place: 8273 };
    check_cuts(&rt, rt.alloc(), EucKr::new(&row), &ONE)
}
