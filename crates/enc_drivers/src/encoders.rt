//! The calls that encode a text's next piece, from UTF-8 or from UTF-16: one body for any code, one
//! for codes that keep ASCII, whose runs it copies, and a copy where UTF-8 stays UTF-8.
ghost use Rattle.std.specs.Prelude.{◌≡◌, ◌≤◌, ◌<◌, [], ◌∷◌, length, IfOk, IfSome};
ghost use Rattle.std.specs.Char.{IsScalar};
ghost use Rattle.enc_handles.specs.Utf8.{AreScalars};
ghost use Rattle.enc_handles.specs.Reading.{left};
ghost use Rattle.std.specs.Str.{chars};
ghost use Rattle.enc_handles.specs.Unicode.{non_ascii_scalar};
ghost use Rattle.enc_handles.specs.ByteDestination.{writing};
ghost use Rattle.enc_handles.specs.CharSource.{reading, unread_place};
ghost use Rattle.enc_handles.specs.Scalars.{scalars16, is_seam8, is_seam16};
ghost use Rattle.enc_drivers.specs.Encode.{IsAsciiCompatible, MapsNoAstral};
ghost use Rattle.enc_drivers.specs.Encodes.{EncodesRaw, unmappable_of};
ghost use Rattle.enc_drivers.specs.Codes.Utf8.{utf8_bytes_of};
ghost use Rattle.enc_drivers.specs.Encoding.{Encodes, EndsEncoding, EndsOrEncodes, EndsEncodingIf};
ghost use Rattle.enc_drivers.specs.Encoding.{CopiesAscii, ReadsNext, Writes, scalars_left};
ghost use Rattle.enc_drivers.specs.Encoding.{unmappable_if_ends, result_if_err};

use crate::encode::EncodeCode;
use enc_handles::byte_buffer::ByteBuffer;
use enc_handles::byte_destination::{ByteDestination, ByteDestinationOver};
use enc_handles::char_source::{CharSourceOver, Utf8Source, Utf16Source};
use enc_handles::results::EncoderResult;
use enc_handles::space::{CopyAsciiResult, Space};
use enc_handles::text_slice::TextSlice;
use enc_handles::unicode::NonAscii;

#[cfg(test)]
mod tests;

// The next scalar, or none where none is left.
#[inline(always)]
fn read<T: TextSlice>(source: &mut CharSourceOver<T>) -> Option<char>
    ensures { ReadsNext T.scalars (reading source.old) (reading source.new)
        (unread_place source.new) result }
{
    match source.check_available() {
        Space::Available(handle) => {
            let (scalar, _source) = handle.read();
            Some(scalar)
        }
        Space::Full(_) => None,
    }
}

// Writes a byte where it is free.
#[inline(always)]
fn write_one<D: ByteBuffer>(dest: &mut ByteDestinationOver<D>, first: u8) -> bool
    ensures { Writes (writing dest.old) (writing dest.new) (first ∷ []) result }
{
    match dest.check_space_one() {
        Space::Available(room) => {
            room.write_one(first);
            true
        }
        Space::Full(_) => false,
    }
}

// Writes two bytes where they are free.
#[inline(always)]
fn write_two<D: ByteBuffer>(dest: &mut ByteDestinationOver<D>, first: u8, second: u8) -> bool
    ensures { Writes (writing dest.old) (writing dest.new) (first ∷ second ∷ []) result }
{
    match dest.check_space_two() {
        Space::Available(room) => {
            room.write_two(first, second);
            true
        }
        Space::Full(_) => false,
    }
}

// Writes three bytes where they are free.
#[inline(always)]
fn write_three<D: ByteBuffer>(
    dest: &mut ByteDestinationOver<D>,
    first: u8,
    second: u8,
    third: u8,
) -> bool
    ensures { Writes (writing dest.old) (writing dest.new) (first ∷ second ∷ third ∷ []) result }
{
    match dest.check_space_three() {
        Space::Available(room) => {
            room.write_three(first, second, third);
            true
        }
        Space::Full(_) => false,
    }
}

// Writes four bytes where they are free.
#[inline(always)]
fn write_four<D: ByteBuffer>(
    dest: &mut ByteDestinationOver<D>,
    first: u8,
    second: u8,
    third: u8,
    fourth: u8,
) -> bool
    ensures { Writes (writing dest.old) (writing dest.new)
        (first ∷ second ∷ third ∷ fourth ∷ []) result }
{
    match dest.check_space_four() {
        Space::Available(room) => {
            room.write_four(first, second, third, fourth);
            true
        }
        Space::Full(_) => false,
    }
}

// Writes one to four bytes where they are free.
#[inline(always)]
fn write<D: ByteBuffer>(dest: &mut ByteDestinationOver<D>, bytes: &[u8]) -> bool
    requires some { 1 ≤ length bytes.now }
    requires four { length bytes.now ≤ 4 }
    ensures { Writes (writing dest.old) (writing dest.new) bytes.now result }
{
    if bytes.len() == 1 {
        return write_one(dest, bytes[0]);
    }
    if bytes.len() == 2 {
        return write_two(dest, bytes[0], bytes[1]);
    }
    if bytes.len() == 3 {
        return write_three(dest, bytes[0], bytes[1], bytes[2]);
    }
    write_four(dest, bytes[0], bytes[1], bytes[2], bytes[3])
}

// Encodes the next scalar and answers it, or ends the call.
#[inline(always)]
fn encode_scalar<T: TextSlice, D: ByteBuffer, C: EncodeCode>(
    code: &C,
    source: &mut CharSourceOver<T>,
    dest: &mut ByteDestinationOver<D>,
) -> Result<char, EncoderResult>
    ensures goes { Encodes T.scalars (C.bytes code.now) (reading source.old) (reading source.new)
        (writing dest.old) (writing dest.new) (unmappable_if_ends (result_if_err result)) }
    ensures ends { EndsOrEncodes T.scalars (C.bytes code.now) C.max
        (reading source.old) (reading source.new) (writing dest.new) (result_if_err result) }
{
    let Some(scalar) = read(source) else {
        return Err(EncoderResult::InputEmpty);
    };
    let Some(bytes) = code.bytes_of(scalar) else {
        return Err(EncoderResult::Unmappable(scalar));
    };
    if !write(dest, bytes.as_slice()) {
        source.unread();
        return Err(EncoderResult::OutputFull);
    }
    Ok(scalar)
}

// Encodes scalar after scalar.
fn encode<T: TextSlice, D: ByteBuffer, C: EncodeCode>(
    code: &C,
    source: &mut CharSourceOver<T>,
    dest: &mut ByteDestinationOver<D>,
) -> EncoderResult
    ensures goes { Encodes T.scalars (C.bytes code.now) (reading source.old) (reading source.new)
        (writing dest.old) (writing dest.new) (unmappable_of result) }
    ensures ends { EndsEncoding (C.bytes code.now) C.max (reading source.new)
        (writing dest.new) result }
{
    loop {
        match encode_scalar(code, source, dest) {
            Ok(_) => {}
            Err(result) => return result,
        }
    }
}

// The scalar of a character past ASCII.
#[inline(always)]
fn scalar_of(character: NonAscii) -> char
    requires { IsScalar (non_ascii_scalar character) }
    ensures { result ≡ non_ascii_scalar character }
{
    match character {
        NonAscii::BmpExclAscii(bmp) => char::from_u32(u32::from(bmp)).unwrap(),
        NonAscii::Astral(scalar) => scalar,
    }
}

// Copies ASCII, and reads the scalar past it where four bytes are free.
#[inline(always)]
fn copy_ascii<T: TextSlice, D: ByteBuffer>(
    source: &mut CharSourceOver<T>,
    dest: &mut ByteDestinationOver<D>,
) -> Option<char>
    requires { AreScalars (T.scalars (left (reading source.old))) }
    ensures { CopiesAscii T.scalars (reading source.old) (reading source.new)
        (writing dest.old) (writing dest.new) result }
{
    match dest.copy_ascii_from_check_space_four(source) {
        CopyAsciiResult::Stop(_) => None,
        CopyAsciiResult::GoOn((character, _room)) => Some(scalar_of(character)),
    }
}

// Copies ASCII, and encodes the scalar past it where four bytes are free for it, which it answers.
#[inline(always)]
fn encode_run<T: TextSlice, D: ByteBuffer, C: EncodeCode>(
    code: &C,
    source: &mut CharSourceOver<T>,
    dest: &mut ByteDestinationOver<D>,
) -> Result<Option<char>, EncoderResult>
    requires ascii { IsAsciiCompatible (C.bytes code.now) }
    requires scalars { AreScalars (T.scalars (left (reading source.old))) }
    ensures goes { Encodes T.scalars (C.bytes code.now) (reading source.old) (reading source.new)
        (writing dest.old) (writing dest.new) (unmappable_if_ends (result_if_err result)) }
    ensures ends { EndsEncodingIf (C.bytes code.now) C.max (reading source.new)
        (writing dest.new) (result_if_err result) }
    ensures fewer { IfOk result (λ scalar. IfSome scalar (λ _.
        scalars_left T.scalars (reading source.new)
        < scalars_left T.scalars (reading source.old))) }
{
    let Some(scalar) = copy_ascii(source, dest) else {
        return Ok(None);
    };
    match code.bytes_of(scalar) {
        Some(bytes) => {
            write(dest, bytes.as_slice());
            Ok(Some(scalar))
        }
        None => Err(EncoderResult::Unmappable(scalar)),
    }
}

// Where the letters past ASCII end that stand alone among ASCII, as in text in Latin script.
const LATIN_END: char = '\u{250}';

// Copies ASCII and encodes the scalar past it in turn, up to a scalar that stands among its like.
#[inline(always)]
fn encode_runs<T: TextSlice, D: ByteBuffer, C: EncodeCode>(
    code: &C,
    source: &mut CharSourceOver<T>,
    dest: &mut ByteDestinationOver<D>,
) -> Option<EncoderResult>
    requires ascii { IsAsciiCompatible (C.bytes code.now) }
    requires scalars { AreScalars (T.scalars (left (reading source.old))) }
    ensures goes { Encodes T.scalars (C.bytes code.now) (reading source.old) (reading source.new)
        (writing dest.old) (writing dest.new) (unmappable_if_ends result) }
    ensures ends { EndsEncodingIf (C.bytes code.now) C.max (reading source.new)
        (writing dest.new) result }
{
    loop {
        match encode_run(code, source, dest) {
            Ok(Some(scalar)) => {
                if scalar >= LATIN_END {
                    return None;
                }
            }
            Ok(None) => return None,
            Err(result) => return Some(result),
        }
    }
}

// Whether a scalar is ASCII of which a run may follow.
#[inline(always)]
fn begins_run(scalar: char) -> bool {
    '\u{60}' <= scalar && scalar < '\u{80}'
}

// Encodes scalar after scalar, up to one that begins a run of ASCII.
#[inline(always)]
fn encode_characters<T: TextSlice, D: ByteBuffer, C: EncodeCode>(
    code: &C,
    source: &mut CharSourceOver<T>,
    dest: &mut ByteDestinationOver<D>,
) -> Option<EncoderResult>
    ensures goes { Encodes T.scalars (C.bytes code.now) (reading source.old) (reading source.new)
        (writing dest.old) (writing dest.new) (unmappable_if_ends result) }
    ensures ends { EndsOrEncodes T.scalars (C.bytes code.now) C.max
        (reading source.old) (reading source.new) (writing dest.new) result }
{
    loop {
        match encode_scalar(code, source, dest) {
            Ok(scalar) => {
                if begins_run(scalar) {
                    return None;
                }
            }
            Err(result) => return Some(result),
        }
    }
}

// Encodes runs of ASCII in one go, and the scalars between them one after another.
fn encode_ascii<T: TextSlice, D: ByteBuffer, C: EncodeCode>(
    code: &C,
    source: &mut CharSourceOver<T>,
    dest: &mut ByteDestinationOver<D>,
) -> EncoderResult
    requires ascii { IsAsciiCompatible (C.bytes code.now) }
    requires scalars { AreScalars (T.scalars (left (reading source.old))) }
    ensures goes { Encodes T.scalars (C.bytes code.now) (reading source.old) (reading source.new)
        (writing dest.old) (writing dest.new) (unmappable_of result) }
    ensures ends { EndsEncoding (C.bytes code.now) C.max (reading source.new)
        (writing dest.new) result }
{
    loop {
        match encode_runs(code, source, dest) {
            Some(result) => return result,
            None => {}
        }
        match encode_characters(code, source, dest) {
            Some(result) => return result,
            None => {}
        }
    }
}

/// Encodes UTF-8: reads scalars of `src`, writes their bytes to the front of `dst`, and answers how
/// many bytes it read and how many it wrote.
///
/// `InputEmpty`: all of `src` was read. `OutputFull`: fewer bytes are free than a scalar of the
/// encoding may have, and something is left. `Unmappable`: the scalar was read last, and has no
/// bytes. `dst` behind the bytes written is free to change. `last` changes nothing, since an
/// encoder holds nothing between two calls (Encoding Standard, section 4.1).
pub fn encode_from_utf8_raw<C: EncodeCode>(
    code: &C,
    src: &str,
    dst: &mut [u8],
    last: bool,
) -> (EncoderResult, usize, usize)
    ensures { EncodesRaw chars is_seam8 (C.bytes code.now) C.max src.now dst.old dst.new result }
{
    let _ = last;
    let mut source = Utf8Source::new(src);
    let mut dest = ByteDestination::new(dst);
    let result = encode(code, &mut source, &mut dest);
    (result, source.consumed(), dest.written())
}

/// Encodes UTF-16, as `encode_from_utf8_raw`; what is read is counted in code units. An unpaired
/// surrogate is read as U+FFFD, a leading one at the end of `src` too, and no call stops within a
/// pair: cut a stream between characters.
pub fn encode_from_utf16_raw<C: EncodeCode>(
    code: &C,
    src: &[u16],
    dst: &mut [u8],
    last: bool,
) -> (EncoderResult, usize, usize)
    ensures { EncodesRaw scalars16 is_seam16 (C.bytes code.now) C.max
        src.now dst.old dst.new result }
{
    let _ = last;
    let mut source = Utf16Source::new(src);
    let mut dest = ByteDestination::new(dst);
    let result = encode(code, &mut source, &mut dest);
    (result, source.consumed(), dest.written())
}

/// `encode_from_utf8_raw` for an encoding in which each ASCII scalar is itself: runs of ASCII are
/// copied in one go.
pub fn ascii_compatible_encode_from_utf8_raw<C: EncodeCode>(
    code: &C,
    src: &str,
    dst: &mut [u8],
    last: bool,
) -> (EncoderResult, usize, usize)
    requires { IsAsciiCompatible (C.bytes code.now) }
    ensures { EncodesRaw chars is_seam8 (C.bytes code.now) C.max src.now dst.old dst.new result }
{
    let _ = last;
    let mut source = Utf8Source::new(src);
    let mut dest = ByteDestination::new(dst);
    let result = encode_ascii(code, &mut source, &mut dest);
    (result, source.consumed(), dest.written())
}

/// `encode_from_utf16_raw` for an encoding in which each ASCII scalar is itself: runs of ASCII are
/// copied in one go.
pub fn ascii_compatible_encode_from_utf16_raw<C: EncodeCode>(
    code: &C,
    src: &[u16],
    dst: &mut [u8],
    last: bool,
) -> (EncoderResult, usize, usize)
    requires { IsAsciiCompatible (C.bytes code.now) }
    ensures { EncodesRaw scalars16 is_seam16 (C.bytes code.now) C.max
        src.now dst.old dst.new result }
{
    let _ = last;
    let mut source = Utf16Source::new(src);
    let mut dest = ByteDestination::new(dst);
    let result = encode_ascii(code, &mut source, &mut dest);
    (result, source.consumed(), dest.written())
}

/// `ascii_compatible_encode_from_utf8_raw` for an encoding that has no scalar above U+FFFF.
pub fn ascii_compatible_bmp_encode_from_utf8_raw<C: EncodeCode>(
    code: &C,
    src: &str,
    dst: &mut [u8],
    last: bool,
) -> (EncoderResult, usize, usize)
    requires ascii { IsAsciiCompatible (C.bytes code.now) }
    requires bmp { MapsNoAstral (C.bytes code.now) }
    ensures { EncodesRaw chars is_seam8 (C.bytes code.now) C.max src.now dst.old dst.new result }
{
    ascii_compatible_encode_from_utf8_raw(code, src, dst, last)
}

/// `ascii_compatible_encode_from_utf16_raw` for an encoding that has no scalar above U+FFFF.
pub fn ascii_compatible_bmp_encode_from_utf16_raw<C: EncodeCode>(
    code: &C,
    src: &[u16],
    dst: &mut [u8],
    last: bool,
) -> (EncoderResult, usize, usize)
    requires ascii { IsAsciiCompatible (C.bytes code.now) }
    requires bmp { MapsNoAstral (C.bytes code.now) }
    ensures { EncodesRaw scalars16 is_seam16 (C.bytes code.now) C.max
        src.now dst.old dst.new result }
{
    ascii_compatible_encode_from_utf16_raw(code, src, dst, last)
}

/// `encode_from_utf8_raw` for UTF-8 itself, which is copied in one go, up to a character that has
/// no room as a whole.
pub fn utf8_encode_from_utf8_raw(
    src: &str,
    dst: &mut [u8],
    last: bool,
) -> (EncoderResult, usize, usize)
    ensures { EncodesRaw chars is_seam8 utf8_bytes_of 4 src.now dst.old dst.new result }
{
    let _ = last;
    let fitting = src.floor_char_boundary(dst.len());
    dst[..fitting].copy_from_slice(&src.as_bytes()[..fitting]);
    if fitting < src.len() {
        return (EncoderResult::OutputFull, fitting, fitting);
    }
    (EncoderResult::InputEmpty, fitting, fitting)
}
