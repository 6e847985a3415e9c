//! The steps of EUC-JP, and texts at every cut.

use crate::codes::euc_jp::EucJp;
use crate::testing::Want::*;
use crate::testing::{Alphas, Front, Nothing, OneRow, Text, check_cuts, check_steps};
use std::test::Fail;

const NONE: [Front; 18] = [
    (b"A", One('A', 1), One('A', 1)),
    (b"\x7f\xa1", One('\x7f', 1), One('\x7f', 1)),
    (b"\x80", Bad(1), Bad(1)),
    (b"\x8d", Bad(1), Bad(1)),
    (b"\x90", Bad(1), Bad(1)),
    (b"\xa0", Bad(1), Bad(1)),
    (b"\xff", Bad(1), Bad(1)),
    (b"\x8e", More, Bad(1)),
    (b"\x8e\xa1", One('\u{ff61}', 2), One('\u{ff61}', 2)),
    (b"\x8e\xdf\xff", One('\u{ff9f}', 2), One('\u{ff9f}', 2)),
    (b"\x8e\xe0", Bad(2), Bad(2)),
    (b"\x8eA", Bad(1), Bad(1)),
    (b"\xa1\xa1", Bad(2), Bad(2)),
    (b"\x8f", More, Bad(1)),
    (b"\x8f\x8f", Bad(2), Bad(2)),
    (b"\x8f\xa1", More, Bad(2)),
    (b"\x8f\xa1\x80", Bad(3), Bad(3)),
    (b"\x8f\xa1A", Bad(2), Bad(2)),
];

const GREEK: [Front; 7] = [
    (b"\xa1", More, Bad(1)),
    (b"\xa1\xa1", One('\u{3b1}', 2), One('\u{3b1}', 2)),
    (b"\xfe\xfe", One('\u{3b1}', 2), One('\u{3b1}', 2)),
    (b"\xa1\xff", Bad(2), Bad(2)),
    (b"\xa1\x7f", Bad(1), Bad(1)),
    (b"\x8e\xe0", Bad(2), Bad(2)),
    (b"\x8f\xa1\xfe", One('\u{3b1}', 3), One('\u{3b1}', 3)),
];

#[test]
fn steps(rt: HostRuntime) {
    check_steps(&rt, &EucJp::new(&Nothing, &Nothing), &NONE);
    check_steps(&rt, &EucJp::new(&Alphas, &Alphas), &GREEK);
}

const NONE_TEXTS: [Text; 3] = [
    (b"\x8f\xa1A", "\u{fffd}A", &[2]),
    (b"\x8f\xa1\xa1A", "\u{fffd}A", &[3]),
    (b"a\x8e\xb1\x8f\xa1", "a\u{ff71}\u{fffd}", &[2]),
];

const TEXT: [Text; 1] = [(
    b"\xa7\xa8\x8f\xa7\xa9\xa7\xa9\x8f\xa7\xa8",
    "\u{416}\u{416}\u{fffd}\u{fffd}",
    &[2, 3],
)];

#[test]
fn every_cut(rt: HostRuntime) -> Result<(), Fail> {
    let none = EucJp::new(&Nothing, &Nothing);
    check_cuts(&rt, rt.alloc(), none, &NONE_TEXTS)?;
    let one = OneRow { place: 571 };
    let other = OneRow { place: 572 };
    check_cuts(&rt, rt.alloc(), EucJp::new(&one, &other), &TEXT)
}
