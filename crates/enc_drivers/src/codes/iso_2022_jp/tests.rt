//! The steps of ISO-2022-JP in its modes, and texts at every cut.

ghost use Rattle.std.specs.Prelude.{◌≡◌, ◌<◌, ◌≤◌, ◌==◌, if◌then◌else◌, None, Some};
ghost use Rattle.std.proofs.Common.{rules};

use crate::code::Step;
use crate::codes::iso_2022_jp::Iso2022Jp;
use crate::drivers::general::GeneralDriver;
use crate::lookup::Lookup;
use crate::testing::{Text, check_cut, check_step};
use crate::{Item, JisSet, Mode};
use Item::{Malformed, One, Silent};
use JisSet::*;
use Mode::*;
use std::alloc::Global;
use std::process::Abort;
use std::test::Fail;

// An index with U+3042 at place 283.
struct Hiragana;

impl Lookup for Hiragana {
    ghost places = { λ index place. (if place == 283 then Some 0x3042 else None) };

    ghost scalars = { λ index place. Prim.search rules };

    fn at(&self, place: u32) -> Option<char> {
        if place == 283 { Some('\u{3042}') } else { None }
    }
}

// A mode, a front, whether it is decided before the end, and the unit that it has there and at the
// end.
type Row = (Mode, &'static [u8], bool, (Item, u8, Mode));

const STEPS: [Row; 21] = [
    (Plain, b"A", true, (One('A'), 1, Within(Ascii))),
    (Within(Ascii), b"\x5c", true, (One('\\'), 1, Within(Ascii))),
    (
        AfterEscape(Roman),
        b"\x5c",
        true,
        (One('\u{a5}'), 1, Within(Roman)),
    ),
    (Within(Roman), b"\x0e", true, (Malformed, 1, Within(Roman))),
    (
        AfterEscape(Katakana),
        b"\x21",
        true,
        (One('\u{ff61}'), 1, Within(Katakana)),
    ),
    (
        Within(Katakana),
        b"\x60",
        true,
        (Malformed, 1, Within(Katakana)),
    ),
    (
        Within(Jis0208),
        b"\x24",
        false,
        (Malformed, 1, Within(Jis0208)),
    ),
    (
        Within(Jis0208),
        b"\x24\x1b",
        true,
        (Malformed, 1, Within(Jis0208)),
    ),
    (
        AfterEscape(Jis0208),
        b"\x24\x22",
        true,
        (One('\u{3042}'), 2, Within(Jis0208)),
    ),
    (
        Within(Jis0208),
        b"\x24\x7f",
        true,
        (Malformed, 2, Within(Jis0208)),
    ),
    (
        Within(Jis0208),
        b"\x20",
        true,
        (Malformed, 1, Within(Jis0208)),
    ),
    (Plain, b"\x1b", false, (Malformed, 1, Within(Ascii))),
    (
        Within(Roman),
        b"\x1b\x24",
        false,
        (Malformed, 1, Within(Roman)),
    ),
    (
        AfterEscape(Roman),
        b"\x1b\x28",
        false,
        (Malformed, 1, Within(Roman)),
    ),
    (
        Within(Roman),
        b"\x1b\x29",
        true,
        (Malformed, 1, Within(Roman)),
    ),
    (
        Plain,
        b"\x1b\x28\x42",
        true,
        (Silent, 3, AfterEscape(Ascii)),
    ),
    (
        Within(Ascii),
        b"\x1b\x28\x4a",
        true,
        (Silent, 3, AfterEscape(Roman)),
    ),
    (
        AfterEscape(Roman),
        b"\x1b\x28\x49",
        true,
        (Malformed, 3, AfterEscape(Katakana)),
    ),
    (
        Within(Katakana),
        b"\x1b\x24\x40",
        true,
        (Silent, 3, AfterEscape(Jis0208)),
    ),
    (
        AfterEscape(Jis0208),
        b"\x1b\x24\x42\x21",
        true,
        (Malformed, 3, AfterEscape(Jis0208)),
    ),
    (
        AfterEscape(Ascii),
        b"\x1b\x24\x28\x42",
        true,
        (Malformed, 1, Within(Ascii)),
    ),
];

#[test]
fn steps(rt: HostRuntime) {
    let code = Iso2022Jp::new(&Hiragana);
    for row in &STEPS {
        let (mode, front, decided, (item, length, next)) = *row;
        let unit = Step::Unit { item, length, next };
        let before = if decided { unit } else { Step::More };
        check_step(&rt, &code, mode, front, before, unit);
    }
}

const TEXTS: [Text; 12] = [
    (b"\x1b$B$\"\x1b(B", "\u{3042}", b""),
    (b"\x1b(J\x5c\x7e", "\u{a5}\u{203e}", b""),
    (b"\x1b(I1", "\u{ff71}", b""),
    (b"\x1b(B\x1b(Ba", "\u{fffd}a", &[3]),
    (b"\x1b$a", "\u{fffd}$a", &[1]),
    (b"\x1b$B$\na", "\u{fffd}\u{fffd}", &[2, 1]),
    (b"\x1b$B\x1b$", "\u{fffd}\u{fffd}", &[1, 1]),
    (b"\x1b$B$\x1b(Ba", "\u{fffd}a", &[1]),
    (
        b"a\x0e\x0f\x80\x1b",
        "a\u{fffd}\u{fffd}\u{fffd}\u{fffd}",
        &[1, 1, 1, 1],
    ),
    (b"\x1b$@$\"$#", "\u{3042}\u{fffd}", &[2]),
    (b"\x1b(I\x1b(", "\u{fffd}\u{ff68}", &[1]),
    (
        b"\x1b$B\x1b(B\x1b$@$\"",
        "\u{fffd}\u{fffd}\u{3042}",
        &[3, 3],
    ),
];

// Decodes a row in two pieces, at every cut, each time by a new driver.
fn check_text(
    rt: &impl Abort,
    alloc: Global,
    bytes: &[u8],
    wanted: &str,
    lengths: &[u8],
) -> Result<(), Fail> {
    for cut in 0..=bytes.len() {
        let mut driver = GeneralDriver::new(Iso2022Jp::new(&Hiragana));
        check_cut(rt, alloc, &mut driver, bytes.split_at(cut), wanted, lengths)?;
    }
    Ok(())
}

#[test]
fn every_cut(rt: HostRuntime) -> Result<(), Fail> {
    for row in &TEXTS {
        let (bytes, wanted, lengths) = *row;
        check_text(&rt, rt.alloc(), bytes, wanted, lengths)?;
    }
    Ok(())
}
