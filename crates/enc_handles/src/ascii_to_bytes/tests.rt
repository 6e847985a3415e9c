//! Copies of ASCII to a destination of bytes.
use super::*;
use crate::byte_destination::ByteDestination;
use crate::char_source::{Utf8Source, Utf16Source};
use crate::testing::same;
use std::process::Abort;

// How a copy stops: the result, and the places.
type Stop = (EncoderResult, usize, usize);

// How a copy of ASCII ended: the character past it with the bytes written, or how it stopped.
fn copied<T: TextSlice>(
    source: &mut CharSourceOver<T>,
    dst: &mut [u8],
) -> (Option<(NonAscii, usize)>, Option<Stop>) {
    let mut dest = ByteDestination::new(dst);
    match source.copy_ascii_to_check_space_two(&mut dest) {
        CopyAsciiResult::GoOn((character, handle)) => (Some((character, handle.written())), None),
        CopyAsciiResult::Stop(stop) => (None, Some(stop)),
    }
}

// Copies the units with a scalar past ASCII at this place.
fn check_past(rt: &impl Abort, units: &mut [u16], place: usize) {
    assert!(rt; place < units.len());
    units[place] = 0xE4;
    let mut dst = [0u8; 36];
    let mut source = Utf16Source::new(units);
    let wanted = (Some((NonAscii::BmpExclAscii(0xE4), place)), None);
    same(rt, &copied(&mut source, &mut dst), &wanted, &place);
    same(rt, &source.consumed(), &(place + 1), &place);
}

#[test]
fn ascii_goes_up_to_the_first_other_scalar(rt: HostRuntime) {
    for place in [0usize, 15, 16, 17, 33] {
        let mut units = [0x61u16; 34];
        check_past(&rt, &mut units, place);
    }
}

// A text, how many bytes there is room for, and how the copy stops.
const STOPS: [(&str, usize, Option<Stop>); 6] = [
    ("ab\u{E4}", 5, None),
    ("ab\u{E4}", 4, None),
    ("ab\u{E4}", 3, Some((EncoderResult::OutputFull, 2, 2))),
    ("ab\u{E4}", 1, Some((EncoderResult::OutputFull, 1, 1))),
    ("ab", 2, Some((EncoderResult::InputEmpty, 2, 2))),
    ("", 0, Some((EncoderResult::InputEmpty, 0, 0))),
];

fn check_stop(rt: &impl Abort, text: &str, room: usize, wanted: Option<Stop>) {
    let mut dst = [0u8; 5];
    assert!(rt; room <= 5);
    let mut source = Utf8Source::new(text);
    let (_past, stop) = copied(&mut source, &mut dst[..room]);
    same(rt, &stop, &wanted, &room);
}

#[test]
fn ascii_stops_where_the_room_or_the_source_ends(rt: HostRuntime) {
    for row in &STOPS {
        let (text, room, wanted) = *row;
        check_stop(&rt, text, room, wanted);
    }
    let mut dst = [0u8; 3];
    let mut source = Utf16Source::new(&[0x61, 0x62, 0xD83D, 0xDE00]);
    let wanted = (None, Some((EncoderResult::OutputFull, 2, 2)));
    same(&rt, &copied(&mut source, &mut dst), &wanted, &"a pair");
    same(&rt, &&dst[..2], &b"ab".as_slice(), &"text");
}
