//! UTF-8 (Encoding Standard, sections 8.1.1, UTF-8 decoder, and 8.1.2, UTF-8 encoder; the Unicode
//! Standard, table 3-7).
ghost use Rattle.std.specs.Prelude.{◌≡◌, ◌<◌, ◌≤◌, length, slice_index, ◌&&◌, ◌||◌, ◌==◌, not};
ghost use Rattle.std.specs.Prelude.{encode_utf8, ℕ, List, ◌++◌};
ghost use Rattle.enc_drivers.specs.Steps.{Steps};
ghost use Rattle.enc_handles.specs.Utf8.{byte_in, begins_two, begins_three, begins_four};
ghost use Rattle.enc_handles.specs.Utf8.{sequence_len, sequence_scalar};
ghost use Rattle.enc_drivers.specs.Codes.Utf8.{begins_pair, two_of_three, two_of_four};
ghost use Rattle.enc_drivers.specs.Codes.Utf8.{malformed_len, utf8_unit, utf8_bytes_of};
ghost use Rattle.enc_drivers.specs.Codes.Utf8.{IsLongestBegun};
ghost use Rattle.std.specs.Char.{IsScalar};
ghost use Rattle.enc_drivers.specs.Units.{IsCode, scalar_at};
ghost use Rattle.enc_drivers.specs.Encode.{IsAsciiCompatible, ReadsBack};
ghost use Rattle.enc_drivers.specs.declared.unit.Mode.{Mode};

use crate::code::{Bulk, Code, Step};
use crate::encode::{EncodeCode, Encoded};
use crate::steps::{cut, malformed};
use crate::{Item, Mode};
use enc_handles::utf8::{byte_in, sequence_len, sequence_scalar};

#[cfg(test)]
mod tests;

/// The code of UTF-8.
#[derive(Clone, Copy, Debug, PartialEq, Eq)]
pub struct Utf8Code;

impl Utf8Code {
    /// The code.
    pub fn new() -> Utf8Code
        ensures units { ⟦<Utf8Code as Code>⟧.unit result ≡ utf8_unit }
        ensures bytes { ⟦<Utf8Code as EncodeCode>⟧.bytes result ≡ utf8_bytes_of }
    {
        Utf8Code
    }
}

impl Code for Utf8Code {
    ghost use Rattle.enc_drivers.specs.Lemmas.Utf8Law.{utf8_law};

    ghost unit = { λ code. utf8_unit };

    #[inline(always)]
    fn step(&self, mode: Mode, front: &[u8], last: bool) -> Step {
        if begins_none(front) {
            return malformed(mode, 1);
        }
        step(mode, front, last)
    }

    fn bulk(&self) -> Bulk {
        Bulk::Utf8
    }

    #[inline(always)]
    fn scalar(&self, bytes: &[u8]) -> Option<(char, usize)> {
        if begins_none(bytes) {
            return None;
        }
        let length = sequence_len(bytes);
        if length == 0 {
            return None;
        }
        Some((sequence_char(bytes, length), length))
    }

    ghost laws = { λ code. utf8_law };
}

// What a front tells of the unit there.
#[inline(always)]
fn step(mode: Mode, front: &[u8], last: bool) -> Step
    requires some { 0 < length front.now }
    requires few { length front.now ≤ 4 }
    ensures { Steps utf8_unit mode front.now last result }
{
    let whole = sequence_len(front);
    if whole > 0 {
        return Step::Unit {
            item: Item::One(sequence_char(front, whole)),
            length: whole as u8,
            next: mode,
        };
    }
    let wrong = malformed_len(front);
    if goes_on(front, wrong) {
        return cut(mode, wrong, last);
    }
    malformed(mode, wrong)
}

// Whether the first byte begins no sequence.
#[inline(always)]
fn begins_none(front: &[u8]) -> bool
    ensures { result ≡ (not (byte_in front.now 0 0x00 0x7F)
        && not (byte_in front.now 0 0xC2 0xF4)) }
{
    !byte_in(front, 0, 0x00, 0x7F) && !byte_in(front, 0, 0xC2, 0xF4)
}

// Whether the bytes, of which so many are malformed alone, all begin one sequence.
#[inline(always)]
fn goes_on(front: &[u8], wrong: u8) -> bool
    ensures { result ≡ (wrong == length front.now && byte_in front.now 0 0xC2 0xF4) }
{
    usize::from(wrong) == front.len() && byte_in(front, 0, 0xC2, 0xF4)
}

// How many bytes begin a sequence that isn't there as a whole, and at least one.
#[inline(always)]
#[tactic(auto, unfolding(crate::specs::Codes::Utf8::malformed_len))]
fn malformed_len(front: &[u8]) -> u8
    ensures { result ≡ malformed_len front.now }
{
    let begins_four = two_of_four(front);
    if begins_four && byte_in(front, 2, 0x80, 0xBF) {
        3
    } else if begins_four || two_of_three(front) {
        2
    } else {
        1
    }
}

// Whether the first two bytes of a sequence of three are at the front.
#[inline(always)]
fn two_of_three(front: &[u8]) -> bool
    ensures { result ≡ two_of_three front.now }
{
    begins_pair(front, 0xE0, 0xE0, 0xA0, 0xBF)
        || begins_pair(front, 0xE1, 0xEC, 0x80, 0xBF)
        || begins_pair(front, 0xED, 0xED, 0x80, 0x9F)
        || begins_pair(front, 0xEE, 0xEF, 0x80, 0xBF)
}

// Whether the first two bytes of a sequence of four are at the front.
#[inline(always)]
fn two_of_four(front: &[u8]) -> bool
    ensures { result ≡ two_of_four front.now }
{
    begins_pair(front, 0xF0, 0xF0, 0x90, 0xBF)
        || begins_pair(front, 0xF1, 0xF3, 0x80, 0xBF)
        || begins_pair(front, 0xF4, 0xF4, 0x80, 0x8F)
}

// Whether a first byte and a second one are at the front.
#[inline(always)]
fn begins_pair(front: &[u8], low: u8, high: u8, second_low: u8, second_high: u8) -> bool
    ensures { result ≡ begins_pair front.now low high second_low second_high }
{
    byte_in(front, 0, low, high) && byte_in(front, 1, second_low, second_high)
}

// The scalar of the well-formed sequence at the front, which has so many bytes.
#[inline(always)]
fn sequence_char(front: &[u8], length: usize) -> char
    requires length { length ≡ sequence_len front.now }
    requires some { 0 < length }
    ensures { result ≡ sequence_scalar front.now }
{
    char::from_u32(sequence_scalar(front, length)).unwrap()
}

impl EncodeCode for Utf8Code {
    ghost use Rattle.enc_drivers.specs.Codes.Utf8.{utf8_bytes_of};
    ghost use Rattle.enc_drivers.specs.Lemmas.EncoderLaws.{utf8_encoder};

    ghost bytes = { λ code. utf8_bytes_of };

    ghost max = { 4 };

    #[inline(always)]
    fn max(&self) -> usize {
        4
    }

    #[inline(always)]
    #[tactic(auto, unfolding(crate::specs::Codes::Utf8::utf8_bytes_of))]
    fn bytes_of(&self, scalar: char) -> Option<Encoded> {
        Some(utf8_of(scalar))
    }

    ghost laws = { λ code. utf8_encoder };
}

// The UTF-8 of a scalar.
#[inline(always)]
pub(crate) fn utf8_of(scalar: char) -> Encoded
    ensures { result ≡ encode_utf8 scalar }
{
    let code = u32::from(scalar);
    if code < 0x80 {
        return Encoded::one(code as u8);
    }
    if code < 0x800 {
        return two(code);
    }
    if code < 0x1_0000 {
        return three(code);
    }
    four(code)
}

// The UTF-8 of a scalar from U+0080 to U+07FF.
#[inline(always)]
fn two(code: u32) -> Encoded
    requires low { 0x80 ≤ code }
    requires high { code < 0x800 }
    ensures { result ≡ encode_utf8 code }
{
    Encoded::two((0xC0 + code / 0x40) as u8, (0x80 + code % 0x40) as u8)
}

// The UTF-8 of a scalar from U+0800 to U+FFFF.
#[inline(always)]
fn three(code: u32) -> Encoded
    requires low { 0x800 ≤ code }
    requires high { code < 0x1_0000 }
    ensures { result ≡ encode_utf8 code }
{
    Encoded::three(
        (0xE0 + code / 0x1000) as u8,
        (0x80 + code / 0x40 % 0x40) as u8,
        (0x80 + code % 0x40) as u8,
    )
}

// The UTF-8 of a scalar above U+FFFF.
#[inline(always)]
fn four(code: u32) -> Encoded
    requires low { 0x1_0000 ≤ code }
    requires high { code < 0x11_0000 }
    ensures { result ≡ encode_utf8 code }
{
    Encoded::four(
        (0xF0 + code / 0x4_0000) as u8,
        (0x80 + code / 0x1000 % 0x40) as u8,
        (0x80 + code / 0x40 % 0x40) as u8,
        (0x80 + code % 0x40) as u8,
    )
}

/// A unit of UTF-8 has one to four bytes, its text at most three bytes for each, and the first four
/// bytes of a rest decide it.
pub fn is_code()
    ensures { IsCode utf8_unit }
{}

/// What UTF-8 writes of a scalar is read as that scalar, whatever follows: the sequences of the
/// table are the UTF-8 of the scalars.
pub fn sequences_of_scalars()
    ensures { (mode : Mode) (scalar : ℕ) (rest : List ℕ) → IsScalar scalar →
        utf8_unit mode (encode_utf8 scalar ++ rest)
        ≡ scalar_at mode scalar (length (encode_utf8 scalar)) }
{}

/// A malformed unit covers the longest front of the rest that begins some well-formed sequence, and
/// at least one byte.
pub fn malformed_units()
    ensures { (bytes : List ℕ) → 0 < length bytes → sequence_len bytes ≡ 0
        → IsLongestBegun bytes (malformed_len bytes) }
{}

/// What the encoder writes of a scalar is read as that scalar, whatever follows.
pub fn scalars_read_back()
    ensures { (scalar : ℕ) → IsScalar scalar → ReadsBack utf8_unit utf8_bytes_of scalar }
{}

/// An ASCII scalar has itself as its one byte.
pub fn encoder_keeps_ascii()
    ensures { IsAsciiCompatible utf8_bytes_of }
{}
