//! Copies into small buffers: ASCII, UTF-8 and UTF-16.
use super::*;
use crate::byte_source::ByteSource;
use crate::endian::{BigEndian, LittleEndian};
use crate::testing::same;
use std::process::Abort;

#[test]
fn a_pair_outside_a_room(rt: HostRuntime) {
    let mut buffer = [0u8; 4];
    let mut dest = Utf8Destination::new(&mut buffer);
    dest.write_surrogate_pair(0xD83D, 0xDE00);
    same(&rt, &dest.written(), &4, &"written");
    same(&rt, &buffer, &[0xF0, 0x9F, 0x98, 0x80], &"text");
}

// How a copy of ASCII stops: the result, and the places.
type Stop = (DecoderResult, usize, usize);

// How a copy of ASCII stopped, if it did.
fn stopped<T: Drop>(copy: CopyAsciiResult<Stop, (u8, T)>) -> Option<Stop> {
    match copy {
        CopyAsciiResult::Stop(stop) => Some(stop),
        CopyAsciiResult::GoOn((_byte, _room)) => None,
    }
}

// How a copy stopped that looks for room for a scalar up to U+FFFF.
fn stopped_bmp<D: Destination>(dest: &mut D, source: &mut ByteSource) -> Option<Stop> {
    stopped(dest.copy_ascii_from_check_space_bmp(source))
}

// The same, for any scalar.
fn stopped_astral<D: Destination>(dest: &mut D, source: &mut ByteSource) -> Option<Stop> {
    stopped(dest.copy_ascii_from_check_space_astral(source))
}

#[test]
fn ascii_stops_where_the_source_or_the_room_ends(rt: HostRuntime) {
    let mut bytes = [0u8; 3];
    let mut narrow = Utf8Destination::new(&mut bytes);
    let stop = stopped_bmp(&mut narrow, &mut ByteSource::new(b"abc"));
    same(&rt, &stop, &Some((DecoderResult::InputEmpty, 3, 3)), &"abc");
    same(&rt, &bytes, b"abc", &"abc");
    let mut units = [0u16; 3];
    let mut wide = Utf16Destination::new(&mut units);
    let stop = stopped_astral(&mut wide, &mut ByteSource::new(b"abcd"));
    let wanted = Some((DecoderResult::OutputFull, 3, 3));
    same(&rt, &stop, &wanted, &"abcd");
    same(&rt, &units, &[0x61, 0x62, 0x63], &"abcd");
}

#[test]
fn ascii_goes_on_where_the_handle_fits(rt: HostRuntime) {
    let mut bytes = [0u8; 4];
    let mut narrow = Utf8Destination::new(&mut bytes);
    let mut source = ByteSource::new(&[0x61, 0x80, 0x80]);
    same(&rt, &stopped_bmp(&mut narrow, &mut source), &None, &"UTF-8");
    same(&rt, &source.consumed(), &2, &"UTF-8");
    let stop = stopped_astral(&mut narrow, &mut source);
    let wanted = Some((DecoderResult::OutputFull, 2, 1));
    same(&rt, &stop, &wanted, &"UTF-8");
    let mut units = [0u16; 2];
    let mut wide = Utf16Destination::new(&mut units);
    let stop = stopped_bmp(&mut wide, &mut ByteSource::new(&[0x61, 0x80]));
    same(&rt, &stop, &None, &"UTF-16");
    let stop = stopped_astral(&mut wide, &mut ByteSource::new(&[0x80]));
    let wanted = Some((DecoderResult::OutputFull, 0, 1));
    same(&rt, &stop, &wanted, &"UTF-16");
}

// How many bytes a copy of UTF-8 to UTF-8 reads, and how many it writes.
fn copied_utf8(src: &[u8], dst: &mut [u8]) -> (usize, usize) {
    let mut source = ByteSource::new(src);
    let mut dest = Utf8Destination::new(dst);
    dest.copy_utf8_up_to_invalid_from(&mut source);
    (source.consumed(), dest.written())
}

// The same to UTF-16.
fn copied_utf8_to_utf16(src: &[u8], dst: &mut [u16]) -> (usize, usize) {
    let mut source = ByteSource::new(src);
    let mut dest = Utf16Destination::new(dst);
    dest.copy_utf8_up_to_invalid_from(&mut source);
    (source.consumed(), dest.written())
}

// Bytes, and how many of them are copied.
const SEQUENCES: [(&[u8], usize); 20] = [
    (b"\x61\xC3\xA4\xE2\x82\xAC\xF0\x9F\x98\x80", 10),
    (b"\x61\xC3", 1),
    (b"\x61\xE2", 1),
    (b"\x61\xE2\x82", 1),
    (b"\x61\xF0", 1),
    (b"\x61\xF0\x9F", 1),
    (b"\x61\xF0\x9F\x98", 1),
    (b"\x61\xC3\x61", 1),
    (b"\x61\xF0\x9F\x61\x80", 1),
    (b"\xC3\xA4\xFF", 2),
    (b"\x80", 0),
    (b"\xC1\xBF", 0),
    (b"\xE0\x9F\x80", 0),
    (b"\xE2\x82\x61", 0),
    (b"\xED\xA0\x80", 0),
    (b"\xEF\xBF\xBD", 3),
    (b"\xF0\x8F\x80\x80", 0),
    (b"\xF4\x8F\xBF\xBF", 4),
    (b"\xF4\x90\x80\x80", 0),
    (b"\xF5\x80\x80\x80", 0),
];

// Copies to this room, and compares how many bytes are read and written.
fn check_utf8(rt: &impl Abort, src: &[u8], room: usize, copied: (usize, usize)) {
    let mut buffer = [0u8; 12];
    assert!(rt; room <= 12);
    same(rt, &copied_utf8(src, &mut buffer[..room]), &copied, &src);
}

#[test]
fn utf8_is_copied_up_to_an_invalid_sequence(rt: HostRuntime) {
    for row in &SEQUENCES {
        let (bytes, read) = *row;
        check_utf8(&rt, bytes, 12, (read, read));
    }
}

// Bytes, how many there is room for, and how many are copied.
const ROOMS: [(&[u8], usize, usize); 12] = [
    (b"\x61\xF0\x9F\x98\x80", 0, 0),
    (b"\x61\xF0\x9F\x98\x80", 1, 1),
    (b"\x61\xF0\x9F\x98\x80", 2, 1),
    (b"\x61\xF0\x9F\x98\x80", 3, 1),
    (b"\x61\xF0\x9F\x98\x80", 4, 1),
    (b"\x61\xF0\x9F\x98\x80", 5, 5),
    (b"\xC3\xA4\xE2\x82\xAC", 0, 0),
    (b"\xC3\xA4\xE2\x82\xAC", 1, 0),
    (b"\xC3\xA4\xE2\x82\xAC", 2, 2),
    (b"\xC3\xA4\xE2\x82\xAC", 3, 2),
    (b"\xC3\xA4\xE2\x82\xAC", 4, 2),
    (b"\xC3\xA4\xE2\x82\xAC", 5, 5),
];

// How many code units there is room for, and how many bytes are read and units written.
const UTF16_ROOMS: [(usize, (usize, usize)); 4] = [
    (0, (0, 0)),
    (1, (1, 1)),
    (2, (1, 1)),
    (3, (5, 3)),
];

fn check_utf8_to_utf16(rt: &impl Abort, src: &[u8], room: usize, copied: (usize, usize)) {
    let mut buffer = [0u16; 3];
    assert!(rt; room <= 3);
    let answer = copied_utf8_to_utf16(src, &mut buffer[..room]);
    same(rt, &answer, &copied, &room);
}

#[test]
fn utf8_is_copied_as_far_as_there_is_room(rt: HostRuntime) {
    for row in &ROOMS {
        let (bytes, room, read) = *row;
        check_utf8(&rt, bytes, room, (read, read));
    }
    for row in &UTF16_ROOMS {
        let (room, copied) = *row;
        check_utf8_to_utf16(&rt, b"\x61\xF0\x9F\x98\x80", room, copied);
    }
}

// What a copy of UTF-16 answers, how many bytes it reads and how many elements it writes.
type Copied = (Option<(usize, usize)>, usize, usize);

fn copied_utf16<E: Endian>(src: &[u8], dst: &mut [u8]) -> Copied {
    let mut source = ByteSource::new(src);
    let mut dest = Utf8Destination::new(dst);
    let answer = dest.copy_utf16_from::<E, _>(&mut source);
    (answer, source.consumed(), dest.written())
}

// The same to UTF-16.
fn copied_utf16_to_utf16<E: Endian>(src: &[u8], dst: &mut [u16]) -> Copied {
    let mut source = ByteSource::new(src);
    let mut dest = Utf16Destination::new(dst);
    let answer = dest.copy_utf16_from::<E, _>(&mut source);
    (answer, source.consumed(), dest.written())
}

// Code units, the less significant byte first, how many bytes there is room for, and the copy.
type Row = (&'static [u8], usize, Copied);

const TO_UTF8: [Row; 5] = [
    (b"\x61\0\xE4\0\x61", 8, (None, 4, 3)),
    (b"\x61\0\x3D\xD8", 8, (None, 2, 1)),
    (b"\0\xDC\x61\0", 8, (Some((2, 0)), 2, 0)),
    (b"\x3D\xD8\x61\0", 8, (Some((2, 0)), 2, 0)),
    (b"\x61\0", 3, (None, 0, 0)),
];

fn check_to_utf8(rt: &impl Abort, src: &[u8], room: usize, copied: Copied) {
    let mut buffer = [0u8; 8];
    assert!(rt; room <= 8);
    let answer = copied_utf16::<LittleEndian>(src, &mut buffer[..room]);
    same(rt, &answer, &copied, &src);
}

#[test]
fn utf16_is_copied_to_utf8(rt: HostRuntime) {
    for row in &TO_UTF8 {
        let (src, room, copied) = *row;
        check_to_utf8(&rt, src, room, copied);
    }
    let mut buffer = [0u8; 8];
    let copied = copied_utf16::<BigEndian>(&[0xD8, 0x3D, 0xDE, 0], &mut buffer);
    same(&rt, &copied, &(None, 4, 4), &"a pair");
    same(
        &rt,
        &&buffer[..4],
        &b"\xF0\x9F\x98\x80".as_slice(),
        &"a pair",
    );
}

const FREE: [Row; 9] = [
    (b"\x61\0\xE4\0\x62\0", 0, (None, 0, 0)),
    (b"\x61\0\xE4\0\x62\0", 3, (None, 0, 0)),
    (b"\x61\0\xE4\0\x62\0", 4, (None, 2, 1)),
    (b"\x61\0\xE4\0\x62\0", 5, (None, 4, 3)),
    (b"\x61\0\xE4\0\x62\0", 6, (None, 4, 3)),
    (b"\x61\0\xE4\0\x62\0", 7, (None, 6, 4)),
    (b"\x61\0\xE4\0\x62\0", 8, (None, 6, 4)),
    (b"\x61\0\0\xDC", 4, (None, 2, 1)),
    (b"\x61\0\0\xDC", 5, (Some((4, 1)), 4, 1)),
];

#[test]
fn a_copy_of_utf16_to_utf8_stops_below_four_free_bytes(rt: HostRuntime) {
    for row in &FREE {
        let (src, room, copied) = *row;
        check_to_utf8(&rt, src, room, copied);
    }
}

#[test]
fn utf16_is_copied_to_utf16(rt: HostRuntime) {
    let pair = [0, 0x61, 0xD8, 0x3D, 0xDE, 0];
    let mut buffer = [0u16; 3];
    let copied = copied_utf16_to_utf16::<BigEndian>(&pair, &mut buffer);
    same(&rt, &copied, &(None, 6, 3), &"a pair");
    same(&rt, &buffer, &[0x61, 0xD83D, 0xDE00], &"a pair");
    let copied = copied_utf16_to_utf16::<BigEndian>(&pair, &mut buffer[..2]);
    same(&rt, &copied, &(None, 2, 1), &"no room for the pair");
    let copied = copied_utf16_to_utf16::<BigEndian>(&[0, 0x61, 0xDE, 0], &mut buffer);
    same(&rt, &copied, &(Some((4, 1)), 4, 1), &"a trail alone");
}

#[test]
fn a_copy_of_ascii_stores_a_stride_before_it_tests(rt: HostRuntime) {
    let mut room = [0u8; 16];
    let mut dest = Utf8Destination::new(&mut room);
    let mut source = ByteSource::new(b"aaa\x80aaaaaaaaaaaa");
    same(&rt, &stopped_bmp(&mut dest, &mut source), &None, &"stop");
    same(&rt, &source.consumed(), &4, &"read");
    same(&rt, &room[5], &b'a', &"stored");
}

// How many bytes of ASCII a copy moves, one byte at a time.
fn plain_ascii(src: &[u8], room: usize) -> usize {
    for (i, byte) in src.iter().enumerate() {
        if i == room || *byte >= 0x80 {
            return i;
        }
    }
    src.len()
}

// How many bytes of whole sequences a copy moves, by one look at all that fits.
fn plain_utf8(src: &[u8], room: usize) -> usize {
    let len = src.len().min(room);
    match std::str::from_utf8(&src[..len]) {
        Ok(_) => len,
        Err(error) => error.valid_up_to(),
    }
}

// Texts of ASCII, of each length of sequence, and malformed ones: a byte past the table, a tail
// alone, a surrogate, a cut sequence, each before, in and behind strides.
const TEXTS: [&[u8]; 12] = [
    b"",
    b"plain",
    b"sixteen letters.",
    b"thirty-two letters of ASCII here, and then some of the next stride, up to here",
    b"aaaaaaaaaaaaaaaaaaaaaaaaaaaaaaa\xC3\xA4aaaaaaaaaaaaaaaaaaaaaaaaaaaaaaaaaaaaa",
    b"\xD0\xB4\xD0\xBE\xD0\xB1\xD1\x80\xD1\x8B\xD0\xB9 \
    \xD0\xB4\xD0\xB5\xD0\xBD\xD1\x8C, \xD0\xBC\xD0\xB8\xD1\x80",
    b"\xEA\xB0\x80\xEA\xB0\x81a\xEA\xB0\x82\xF0\x9F\x98\x80\xF0\x9F\x98\x81b\xE2\x82\xAC",
    b"aaaaaaaaaaaaaaaa\xFFaaaaaaaaaaaaaaaaaaaaaaaaaaaaaaaaaaaa",
    b"aaaaaaaaaaaaaaaaaaaaaaaaaaaaaaaaa\x80aaaaaaaaaaa",
    b"\xC3\xA4\xC3\xA4\xC3\xA4\xED\xA0\x80\xC3\xA4",
    b"\xF0\x9F\x98\x80\xF0\x9F\x98\x80\xF0\x9F\x98",
    b"\xFF\xFFa\xFFa",
];

// Compares each copy with the plain one.
fn check_fast(rt: &impl Abort, src: &[u8], room: usize) {
    let mut bytes = [0u8; 40];
    let mut units = [0u16; 40];
    assert!(rt; room <= 40);
    let ascii = plain_ascii(src, room);
    let mut narrow = &mut bytes[..room];
    same(rt, &narrow.copy_ascii_at(0, src), &ascii, &src);
    let mut wide = &mut units[..room];
    same(rt, &wide.copy_ascii_at(0, src), &ascii, &src);
    let whole = plain_utf8(src, room);
    let copied = copied_utf8(src, &mut bytes[..room]);
    same(rt, &copied, &(whole, whole), &src);
}

// The same at each room.
fn check_rooms(rt: &impl Abort, src: &[u8]) {
    for room in 0..41 {
        check_fast(rt, src, room);
    }
}

#[test]
fn fast_copies_move_what_plain_ones_do(rt: HostRuntime) {
    for text in &TEXTS {
        let text = *text;
        for cut in 0..41 {
            check_rooms(&rt, &text[..text.len().min(cut)]);
        }
    }
}

const UNITS: [u8; 16] = *b"\x61\0\xE4\0\x34\x04\0\xAC\x20\0\x41\0\x42\0\x43\0";

const THEIR_TEXT: [u8; 12] = *b"\x61\xC3\xA4\xD0\xB4\xEA\xB0\x80\x20\x41\x42\x43";

#[test]
fn blocks_of_utf16_are_copied(rt: HostRuntime) {
    let mut buffer = [0u8; 28];
    let copied = copied_utf16::<LittleEndian>(&UNITS, &mut buffer);
    same(&rt, &copied, &(None, 16, 12), &"copied");
    same(&rt, &&buffer[..12], &THEIR_TEXT.as_slice(), &"text");
}
