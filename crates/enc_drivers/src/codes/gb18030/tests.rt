//! The steps of gb18030 and GBK, and texts at every cut.

ghost use Rattle.std.specs.Prelude.{◌≡◌, ◌==◌, if◌then◌else◌, None, Some};
ghost use Rattle.std.proofs.Common.{rules};

use crate::codes::gb18030::Gb18030;
use crate::lookup::Lookup;
use crate::testing::Want::*;
use crate::testing::{Alphas, Front, Nothing, OneRow, Text, check_cuts, check_steps};
use std::test::Fail;

// An index with U+4E04 at place 1.
struct Ideograph;

impl Lookup for Ideograph {
    ghost places = { λ index place. (if place == 1 then Some 0x4E04 else None) };

    ghost scalars = { λ index place. Prim.search rules };

    fn at(&self, place: u32) -> Option<char> {
        if place == 1 { Some('\u{4e04}') } else { None }
    }
}

// The ends of the ranges past U+FFFF.
struct Ends;

impl Lookup for Ends {
    ghost places = { λ index place. (if place == 189000 then Some 0x10000
        else (if place == 1237575 then Some 0x10FFFF else None)) };

    ghost scalars = { λ index place. Prim.search rules };

    fn at(&self, place: u32) -> Option<char> {
        if place == 189_000 {
            Some('\u{10000}')
        } else if place == 1_237_575 {
            Some('\u{10ffff}')
        } else {
            None
        }
    }
}

const NONE: [Front; 17] = [
    (b"A", One('A', 1), One('A', 1)),
    (b"\x80\x81", One('\u{20ac}', 1), One('\u{20ac}', 1)),
    (b"\xff", Bad(1), Bad(1)),
    (b"\x81", More, Bad(1)),
    (b"\xfe", More, Bad(1)),
    (b"\x81A", Bad(1), Bad(1)),
    (b"\x81\x3a", Bad(1), Bad(1)),
    (b"\x81\x7f", Bad(1), Bad(1)),
    (b"\x81\x80", Bad(2), Bad(2)),
    (b"\x81\xff", Bad(2), Bad(2)),
    (b"\x81\x30", More, Bad(2)),
    (b"\x81\x30\x80", Bad(1), Bad(1)),
    (b"\x81\x30\xff", Bad(1), Bad(1)),
    (b"\x81\x39\xfe", More, Bad(3)),
    (b"\x81\x30\x81\x2f", Bad(1), Bad(1)),
    (b"\x81\x30\x81\x3a", Bad(1), Bad(1)),
    (b"\xfe\x39\xfe\x39", Bad(4), Bad(4)),
];

const GREEK: [Front; 6] = [
    (b"\x81\x40", One('\u{3b1}', 2), One('\u{3b1}', 2)),
    (b"\x81\x7e", One('\u{3b1}', 2), One('\u{3b1}', 2)),
    (b"\x81\x7f", Bad(1), Bad(1)),
    (b"\xfe\x80", One('\u{3b1}', 2), One('\u{3b1}', 2)),
    (b"\xfe\xfe", One('\u{3b1}', 2), One('\u{3b1}', 2)),
    (b"\x81\x30\x81\x30", Bad(4), Bad(4)),
];

#[test]
fn steps(rt: HostRuntime) {
    check_steps(&rt, &Gb18030::new(&Nothing, &Nothing, false), &NONE);
    check_steps(&rt, &Gb18030::new(&Nothing, &Nothing, true), &NONE);
    check_steps(&rt, &Gb18030::new(&Alphas, &Nothing, false), &GREEK);
}

const FAILED: [Text; 1] = [(b"\x81\x30\x81\x41", "\u{fffd}0\u{4e04}", &[1])];

const ENDS: [Text; 3] = [
    (b"\x90\x30\x81\x30", "\u{10000}", b""),
    (
        b"\xe3\x32\x9a\x35\xe3\x32\x9a\x36",
        "\u{10ffff}\u{fffd}",
        &[4],
    ),
    (b"\x80\x90\x30\x81", "\u{20ac}\u{fffd}", &[3]),
];

const ONE: [Text; 1] = [(
    b"\xa7\xa8A\xa7\xa9\xa7A",
    "\u{416}A\u{fffd}\u{fffd}A",
    &[2, 1],
)];

#[test]
fn every_cut(rt: HostRuntime) -> Result<(), Fail> {
    let ideograph = Gb18030::new(&Ideograph, &Nothing, false);
    check_cuts(&rt, rt.alloc(), ideograph, &FAILED)?;
    let ends = Gb18030::new(&Nothing, &Ends, false);
    check_cuts(&rt, rt.alloc(), ends, &ENDS)?;
    let row = OneRow { place: 7323 };
    check_cuts(&rt, rt.alloc(), Gb18030::new(&row, &Nothing, true), &ONE)
}
