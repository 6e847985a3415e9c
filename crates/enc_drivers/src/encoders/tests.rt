//! The encode calls: each at every room, and in two pieces.
ghost use Rattle.std.specs.Prelude.{◌≡◌};
ghost use Rattle.std.specs.Str.{chars};
ghost use Rattle.enc_handles.specs.Scalars.{scalars16, is_seam8, is_seam16};
ghost use Rattle.enc_drivers.specs.Encode.{IsAsciiCompatible, MapsNoAstral};
ghost use Rattle.enc_drivers.specs.Encodes.{EncodesRaw};

use crate::codes::euc_kr::{self, EucKr};
use crate::codes::windows_1252::{self, Windows1252};
use crate::encode::EncodeCode;
use crate::encoders::{
    ascii_compatible_bmp_encode_from_utf8_raw, ascii_compatible_bmp_encode_from_utf16_raw,
    ascii_compatible_encode_from_utf8_raw, ascii_compatible_encode_from_utf16_raw,
    encode_from_utf8_raw, encode_from_utf16_raw, utf8_encode_from_utf8_raw,
};
use crate::testing::{OneRow, same};
use EncoderResult::*;
use enc_handles::results::EncoderResult;
use std::process::Abort;

#[test]
fn unmappable_scalars(rt: HostRuntime) {
    let mut dst = [0; 4];
    let code = Windows1252::new();
    let first = encode_from_utf8_raw(&code, "\u{416}", &mut dst, true);
    same(&rt, &first, &(Unmappable('\u{416}'), 2, 0), &"a letter");
    let lone = encode_from_utf16_raw(&code, &[0xd800, 0x61], &mut dst, true);
    same(&rt, &lone, &(Unmappable('\u{fffd}'), 1, 0), &"half a pair");
}

// The copy of ASCII stores a stride before it looks at it: behind the bytes stands what followed in
// the source.
#[test]
fn copies_ascii_by_strides(rt: HostRuntime) {
    windows_1252::encoder_keeps_ascii();
    let mut dst = [0; 16];
    let text = "abc\u{416}xxxxxxxxxxxx";
    let code = Windows1252::new();
    let stop = ascii_compatible_encode_from_utf8_raw(&code, text, &mut dst, true);
    same(&rt, &stop, &(Unmappable('\u{416}'), 5, 3), &"stop");
    same(&rt, &(dst[0], dst[1], dst[2]), &(b'a', b'b', b'c'), &"text");
    same(&rt, &dst[5], &b'x', &"behind");
}

// A text, the room for it, how its copy ends, and behind how many bytes.
type CopyRow = (&'static str, usize, EncoderResult, usize);

const COPIES: [CopyRow; 6] = [
    ("a", 0, OutputFull, 0),
    ("a\u{e9}", 2, OutputFull, 1),
    ("a\u{20ac}", 3, OutputFull, 1),
    ("a\u{1f600}", 4, OutputFull, 1),
    ("a\u{1f600}", 5, InputEmpty, 5),
    ("", 0, InputEmpty, 0),
];

fn check_copy(rt: &impl Abort, text: &str, room: usize, end: EncoderResult, count: usize) {
    let mut dst = [0; 8];
    let answer = utf8_encode_from_utf8_raw(text, &mut dst[..room.min(8)], true);
    same(rt, &answer, &(end, count, count), &text);
    let written = &dst[..answer.2];
    same(rt, &written, &&text.as_bytes()[..answer.1], &text);
}

#[test]
fn copies_whole_characters_of_utf8(rt: HostRuntime) {
    for row in &COPIES {
        let (text, room, end, count) = *row;
        check_copy(&rt, text, room, end, count);
    }
}

// The three calls from UTF-8.
fn call_utf8<C: EncodeCode>(
    call: usize,
    code: &C,
    src: &str,
    dst: &mut [u8],
) -> (EncoderResult, usize, usize)
    requires ascii { IsAsciiCompatible (C.bytes code.now) }
    requires bmp { MapsNoAstral (C.bytes code.now) }
    ensures { EncodesRaw chars is_seam8 (C.bytes code.now) C.max src.now dst.old dst.new result }
{
    match call {
        0 => encode_from_utf8_raw(code, src, dst, false),
        1 => ascii_compatible_encode_from_utf8_raw(code, src, dst, false),
        _ => ascii_compatible_bmp_encode_from_utf8_raw(code, src, dst, false),
    }
}

// The three calls from UTF-16.
fn call_utf16<C: EncodeCode>(
    call: usize,
    code: &C,
    src: &[u16],
    dst: &mut [u8],
) -> (EncoderResult, usize, usize)
    requires ascii { IsAsciiCompatible (C.bytes code.now) }
    requires bmp { MapsNoAstral (C.bytes code.now) }
    ensures { EncodesRaw scalars16 is_seam16 (C.bytes code.now) C.max
        src.now dst.old dst.new result }
{
    match call {
        0 => encode_from_utf16_raw(code, src, dst, false),
        1 => ascii_compatible_encode_from_utf16_raw(code, src, dst, false),
        _ => ascii_compatible_bmp_encode_from_utf16_raw(code, src, dst, false),
    }
}

// What a piece gave is the front of what is wanted: where it wasn't read to its end, less room is
// left than a scalar may need.
fn check_front(
    rt: &impl Abort,
    wanted: &[u8],
    given: &[u8],
    end: EncoderResult,
    room: usize,
    max: usize,
) {
    same(rt, &wanted.starts_with(given), &true, &(wanted, room));
    let full = room.saturating_sub(given.len()) < max;
    same(rt, &(full || end == InputEmpty), &true, &(wanted, room));
}

// What two pieces gave: the bytes, where both were read, and else a front of them.
fn check_pieces(
    rt: &impl Abort,
    wanted: &[u8],
    first: (EncoderResult, &[u8]),
    second: (EncoderResult, &[u8]),
    room: usize,
    max: usize,
) {
    check_front(rt, wanted, first.1, first.0, room, max);
    if first.0 != InputEmpty {
        return;
    }
    let behind = &wanted[first.1.len().min(wanted.len())..];
    check_front(rt, behind, second.1, second.0, room, max);
    if second.0 == InputEmpty {
        same(rt, &second.1, &behind, &(wanted, room));
    }
}

// Two pieces of UTF-8 by one of the calls.
fn check_utf8<C: EncodeCode>(
    rt: &impl Abort,
    code: &C,
    call: usize,
    pieces: (&str, &str),
    wanted: &[u8],
    room: usize,
)
    requires ascii { IsAsciiCompatible (C.bytes code.now) }
    requires bmp { MapsNoAstral (C.bytes code.now) }
{
    let mut one = [0; 8];
    let mut two = [0; 8];
    let first = call_utf8(call, code, pieces.0, &mut one[..room.min(8)]);
    let second = call_utf8(call, code, pieces.1, &mut two[..room.min(8)]);
    let given = (first.0, &one[..first.2]);
    check_pieces(
        rt,
        wanted,
        given,
        (second.0, &two[..second.2]),
        room,
        code.max(),
    );
}

// Two pieces of UTF-16 by one of the calls.
fn check_utf16<C: EncodeCode>(
    rt: &impl Abort,
    code: &C,
    call: usize,
    pieces: (&[u16], &[u16]),
    wanted: &[u8],
    room: usize,
)
    requires ascii { IsAsciiCompatible (C.bytes code.now) }
    requires bmp { MapsNoAstral (C.bytes code.now) }
{
    let mut one = [0; 8];
    let mut two = [0; 8];
    let first = call_utf16(call, code, pieces.0, &mut one[..room.min(8)]);
    let second = call_utf16(call, code, pieces.1, &mut two[..room.min(8)]);
    let given = (first.0, &one[..first.2]);
    check_pieces(
        rt,
        wanted,
        given,
        (second.0, &two[..second.2]),
        room,
        code.max(),
    );
}

// One call in one room, over a text in both forms in two pieces, at every cut.
fn check_cuts<C: EncodeCode>(
    rt: &impl Abort,
    code: &C,
    call: usize,
    text: (&str, &[u16]),
    wanted: &[u8],
    room: usize,
)
    requires ascii { IsAsciiCompatible (C.bytes code.now) }
    requires bmp { MapsNoAstral (C.bytes code.now) }
{
    for cut in 0..=text.0.len() {
        if text.0.is_char_boundary(cut) {
            check_utf8(rt, code, call, text.0.split_at(cut), wanted, room);
        }
    }
    for cut in 0..=text.1.len() {
        check_utf16(rt, code, call, text.1.split_at(cut), wanted, room);
    }
}

// Each call at each room.
fn check_rooms<C: EncodeCode>(rt: &impl Abort, code: &C, text: (&str, &[u16]), wanted: &[u8])
    requires ascii { IsAsciiCompatible (C.bytes code.now) }
    requires bmp { MapsNoAstral (C.bytes code.now) }
{
    for room in 0..=8 {
        for call in 0..3 {
            check_cuts(rt, code, call, text, wanted, room);
        }
    }
}

// A text in both forms.
type Text = (&'static str, &'static [u16]);

const LATIN: Text = ("a\u{e9}<z\u{20ac}", &[0x61, 0xe9, 0x3c, 0x7a, 0x20ac]);

const KOREAN: Text = ("a\u{416}<z\u{416}", &[0x61, 0x416, 0x3c, 0x7a, 0x416]);

#[test]
fn each_call_at_each_room(rt: HostRuntime) {
    windows_1252::encoder_keeps_ascii();
    windows_1252::encoder_without_astral();
    check_rooms(&rt, &Windows1252::new(), LATIN, b"a\xe9<z\x80");
    euc_kr::encoder_keeps_ascii();
    euc_kr::encoder_without_astral();
    let index = OneRow { place: 8273 };
    check_rooms(&rt, &EucKr::new(&index), KOREAN, b"a\xac\xa8<z\xac\xa8");
}
