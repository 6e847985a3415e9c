//! Scalars read from texts in both forms.
use super::*;
use crate::testing::same;
use crate::unicode::NonAscii;
use std::process::Abort;

// A scalar, and the places before it, behind it and after it was put back.
type Read = (char, usize, usize, usize);

// The scalar behind `before` others, if there is one.
fn nth<T: TextSlice>(source: &mut CharSourceOver<T>, before: usize) -> Option<Read> {
    for _ in 0..before {
        if let Space::Available(handle) = source.check_available() {
            let (_scalar, unread) = handle.read();
            unread.commit();
        }
    }
    match source.check_available() {
        Space::Available(handle) => {
            let at = handle.consumed();
            let (scalar, unread) = handle.read();
            let end = unread.consumed();
            Some((scalar, at, end, unread.unread()))
        }
        Space::Full(_place) => None,
    }
}

// Code units, how many scalars are passed over, and what is read then.
const UTF16: [(&[u16], usize, Option<Read>); 8] = [
    (&[0xD800, 0x61], 0, Some(('\u{FFFD}', 0, 1, 0))),
    (&[0xD800, 0x61], 1, Some(('a', 1, 2, 1))),
    (&[0xD800, 0xD800, 0xDC00], 0, Some(('\u{FFFD}', 0, 1, 0))),
    (&[0xD800, 0xD800, 0xDC00], 1, Some(('\u{10000}', 1, 3, 1))),
    (&[0xDC00, 0xD800], 0, Some(('\u{FFFD}', 0, 1, 0))),
    (&[0xDC00, 0xD800], 1, Some(('\u{FFFD}', 1, 2, 1))),
    (&[0xDBFF, 0xDFFF], 0, Some(('\u{10FFFF}', 0, 2, 0))),
    (&[0xDBFF, 0xDFFF], 1, None),
];

fn check_utf16(rt: &impl Abort, units: &[u16], before: usize, wanted: Option<Read>) {
    let mut source = Utf16Source::new(units);
    same(rt, &nth(&mut source, before), &wanted, &units);
}

#[test]
fn an_unpaired_surrogate_is_read_as_the_replacement_character(rt: HostRuntime) {
    for row in &UTF16 {
        let (units, before, wanted) = *row;
        check_utf16(&rt, units, before, wanted);
    }
}

// How many scalars are passed over, and what is read then.
const UTF8: [(usize, Option<Read>); 5] = [
    (0, Some(('a', 0, 1, 0))),
    (1, Some(('\u{E4}', 1, 3, 1))),
    (2, Some(('\u{20AC}', 3, 6, 3))),
    (3, Some(('\u{1F600}', 6, 10, 6))),
    (4, None),
];

fn check_utf8(rt: &impl Abort, text: &str, before: usize, wanted: Option<Read>) {
    let mut source = Utf8Source::new(text);
    same(rt, &nth(&mut source, before), &wanted, &before);
}

#[test]
fn scalars_of_utf8(rt: HostRuntime) {
    for row in &UTF8 {
        let (before, wanted) = *row;
        check_utf8(&rt, "a\u{E4}\u{20AC}\u{1F600}", before, wanted);
    }
}

// The next scalar by its variant.
fn next_enum<T: TextSlice>(source: &mut CharSourceOver<T>) -> Option<Unicode> {
    match source.check_available() {
        Space::Available(handle) => Some(handle.read_enum().0),
        Space::Full(_place) => None,
    }
}

const VARIANTS: [Option<Unicode>; 4] = [
    Some(Unicode::Ascii(0x7F)),
    Some(Unicode::NonAscii(NonAscii::BmpExclAscii(0xFFFD))),
    Some(Unicode::NonAscii(NonAscii::Astral('\u{1F600}'))),
    None,
];

#[test]
fn scalars_by_variant(rt: HostRuntime) {
    let mut source = Utf16Source::new(&[0x7F, 0xDC00, 0xD83D, 0xDE00]);
    for variant in &VARIANTS {
        same(&rt, &next_enum(&mut source), variant, &"variant");
    }
}
