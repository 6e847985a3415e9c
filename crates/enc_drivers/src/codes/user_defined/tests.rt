//! The steps of x-user-defined, and a text at every cut.

use crate::codes::user_defined::UserDefined;
use crate::testing::Want::*;
use crate::testing::{Front, Text, check_cuts, check_steps};
use std::test::Fail;

const STEPS: [Front; 3] = [
    (b"\x7f", One('\x7f', 1), One('\x7f', 1)),
    (b"\x80", One('\u{f780}', 1), One('\u{f780}', 1)),
    (b"\xff", One('\u{f7ff}', 1), One('\u{f7ff}', 1)),
];

#[test]
fn steps(rt: HostRuntime) {
    check_steps(&rt, &UserDefined::new(), &STEPS);
}

const TEXTS: [Text; 1] = [(b"\x7f\x80\xff", "\x7f\u{f780}\u{f7ff}", b"")];

#[test]
fn every_cut(rt: HostRuntime) -> Result<(), Fail> {
    check_cuts(&rt, rt.alloc(), UserDefined::new(), &TEXTS)
}
