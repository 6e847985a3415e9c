//! The steps of windows-1252, and a text at every cut.

use crate::codes::windows_1252::Windows1252;
use crate::testing::Want::*;
use crate::testing::{Front, Text, check_cuts, check_steps};
use std::test::Fail;

const STEPS: [Front; 5] = [
    (b"A", One('A', 1), One('A', 1)),
    (b"\x80", One('\u{20ac}', 1), One('\u{20ac}', 1)),
    (b"\x81\x80", One('\u{81}', 1), One('\u{81}', 1)),
    (b"\x9f", One('\u{178}', 1), One('\u{178}', 1)),
    (b"\xff", One('\u{ff}', 1), One('\u{ff}', 1)),
];

#[test]
fn steps(rt: HostRuntime) {
    check_steps(&rt, &Windows1252::new(), &STEPS);
}

const TEXTS: [Text; 1] = [(b"\x80A\x81\xff", "\u{20ac}A\u{81}\u{ff}", b"")];

#[test]
fn every_cut(rt: HostRuntime) -> Result<(), Fail> {
    check_cuts(&rt, rt.alloc(), Windows1252::new(), &TEXTS)
}
