//! The steps of Shift_JIS, and texts at every cut.

use crate::codes::shift_jis::ShiftJis;
use crate::testing::Want::*;
use crate::testing::{Alphas, Front, Nothing, OneRow, Text, check_cuts, check_steps};
use std::test::Fail;

const NONE: [Front; 14] = [
    (b"A", One('A', 1), One('A', 1)),
    (b"\x80\x40", One('\u{80}', 1), One('\u{80}', 1)),
    (b"\xa0", Bad(1), Bad(1)),
    (b"\xa1", One('\u{ff61}', 1), One('\u{ff61}', 1)),
    (b"\xdf\xdf", One('\u{ff9f}', 1), One('\u{ff9f}', 1)),
    (b"\xfd", Bad(1), Bad(1)),
    (b"\x81", More, Bad(1)),
    (b"\xfc", More, Bad(1)),
    (b"\x81\x40", Bad(1), Bad(1)),
    (b"\x81\x80", Bad(2), Bad(2)),
    (b"\xf0\x40", One('\u{e000}', 2), One('\u{e000}', 2)),
    (b"\xf0\x80", One('\u{e03f}', 2), One('\u{e03f}', 2)),
    (b"\xf9\xfc", One('\u{e757}', 2), One('\u{e757}', 2)),
    (b"\xfa\x40", Bad(1), Bad(1)),
];

const GREEK: [Front; 8] = [
    (b"\x81\x3f", Bad(1), Bad(1)),
    (b"\x81\x40", One('\u{3b1}', 2), One('\u{3b1}', 2)),
    (b"\x9f\x7e", One('\u{3b1}', 2), One('\u{3b1}', 2)),
    (b"\xe0\x7f", Bad(1), Bad(1)),
    (b"\xe0\x80", One('\u{3b1}', 2), One('\u{3b1}', 2)),
    (b"\xf0\x40", One('\u{e000}', 2), One('\u{e000}', 2)),
    (b"\xfc\xfc", One('\u{3b1}', 2), One('\u{3b1}', 2)),
    (b"\xfc\xfd", Bad(2), Bad(2)),
];

#[test]
fn steps(rt: HostRuntime) {
    check_steps(&rt, &ShiftJis::new(&Nothing), &NONE);
    check_steps(&rt, &ShiftJis::new(&Alphas), &GREEK);
}

const TEXTS: [Text; 3] = [
    (b"\x81\x20", "\u{fffd} ", &[1]),
    (b"\x81\xfd", "\u{fffd}", &[2]),
    (b"a\x80\xb1\x81", "a\u{80}\u{ff71}\u{fffd}", &[1]),
];

const ONE: [Text; 1] = [(
    b"\x84\x47A\x84\x48\x84\xff",
    "\u{416}A\u{fffd}H\u{fffd}",
    &[1, 2],
)];

#[test]
fn every_cut(rt: HostRuntime) -> Result<(), Fail> {
    check_cuts(&rt, rt.alloc(), ShiftJis::new(&Nothing), &TEXTS)?;
    check_cuts(&rt, rt.alloc(), ShiftJis::new(&Alphas), &TEXTS)?;
    let row = OneRow { place: 571 };
    check_cuts(&rt, rt.alloc(), ShiftJis::new(&row), &ONE)
}
