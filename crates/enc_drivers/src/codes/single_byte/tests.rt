//! The steps of encodings of one byte a scalar over an index, and a text at every cut.

use crate::codes::single_byte::SingleByte;
use crate::testing::Want::*;
use crate::testing::{Alphas, Front, Nothing, Text, check_cuts, check_steps};
use std::test::Fail;

const NONE: [Front; 2] = [
    (b"A", One('A', 1), One('A', 1)),
    (b"\x80\x80", Bad(1), Bad(1)),
];

const GREEK: [Front; 2] = [
    (b"\x7f", One('\x7f', 1), One('\x7f', 1)),
    (b"\xff", One('\u{3b1}', 1), One('\u{3b1}', 1)),
];

#[test]
fn steps(rt: HostRuntime) {
    check_steps(&rt, &SingleByte::new(&Nothing), &NONE);
    check_steps(&rt, &SingleByte::new(&Alphas), &GREEK);
}

const TEXTS: [Text; 1] = [(b"a\x80b", "a\u{fffd}b", &[1])];

#[test]
fn every_cut(rt: HostRuntime) -> Result<(), Fail> {
    check_cuts(&rt, rt.alloc(), SingleByte::new(&Nothing), &TEXTS)
}
