//! windows-1252 (Encoding Standard, sections 9.1, single-byte decoder, and 9.2, single-byte
//! encoder, and index windows-1252).
ghost use Rattle.std.specs.Prelude.{◌≡◌, ◌<◌, ◌≤◌, ◌%◌, slice_index, ℕ};
ghost use Rattle.enc_drivers.specs.Codes.Windows1252.{windows_1252_scalar, windows_1252_unit};
ghost use Rattle.enc_drivers.specs.Codes.Windows1252.{windows_1252_bytes_of, windows_1252_table};
ghost use Rattle.enc_drivers.specs.Units.{IsCode};
ghost use Rattle.enc_drivers.specs.Encode.{IsAsciiCompatible, MapsNoAstral, ReadsBack};

use crate::code::{Bulk, Code, Step};
use crate::encode::{EncodeCode, Encoded};
use crate::{Item, Mode};

#[cfg(test)]
mod tests;

// The scalars at 80 to 9F.
const TABLE: [char; 32] = [
    '\u{20AC}', '\u{81}', '\u{201A}', '\u{192}', '\u{201E}', '\u{2026}', '\u{2020}', '\u{2021}',
    '\u{2C6}', '\u{2030}', '\u{160}', '\u{2039}', '\u{152}', '\u{8D}', '\u{17D}', '\u{8F}',
    '\u{90}', '\u{2018}', '\u{2019}', '\u{201C}', '\u{201D}', '\u{2022}', '\u{2013}', '\u{2014}',
    '\u{2DC}', '\u{2122}', '\u{161}', '\u{203A}', '\u{153}', '\u{9D}', '\u{17E}', '\u{178}',
];

/// The code of windows-1252: each byte is a scalar.
#[derive(Clone, Copy, Debug, PartialEq, Eq)]
pub struct Windows1252;

impl Windows1252 {
    /// The code.
    pub fn new() -> Windows1252
        ensures units { ⟦<Windows1252 as Code>⟧.unit result ≡ windows_1252_unit }
        ensures bytes { ⟦<Windows1252 as EncodeCode>⟧.bytes result ≡ windows_1252_bytes_of }
    {
        Windows1252
    }
}

impl Code for Windows1252 {
    ghost use Rattle.enc_drivers.specs.Lemmas.SingleByteLaw.{windows_1252_law};

    ghost unit = { λ code. windows_1252_unit };

    #[inline(always)]
    fn step(&self, mode: Mode, front: &[u8], last: bool) -> Step {
        let _ = last;
        Step::Unit {
            item: Item::One(scalar_of(front[0])),
            length: 1,
            next: mode,
        }
    }

    fn bulk(&self) -> Bulk {
        Bulk::Ascii
    }

    #[inline(always)]
    fn scalar(&self, bytes: &[u8]) -> Option<(char, usize)> {
        Some((scalar_of(bytes[0]), 1))
    }

    ghost laws = { λ code. windows_1252_law };
}

// The scalar of a byte.
#[tactic(auto, unfolding(crate::specs::Codes::Windows1252::windows_1252_scalar))]
fn scalar_of(byte: u8) -> char
    ensures { result ≡ windows_1252_scalar byte }
{
    if 0x80 <= byte && byte <= 0x9F {
        TABLE[usize::from(byte - 0x80)]
    } else {
        char::from(byte)
    }
}

// A place of `TABLE` by what is left of a scalar divided by 122, which no two of its scalars share.
const PLACES: [u8; 122] = [
    24, 0, 0, 0, 0, 0, 0, 1, 0, 0, 31, 0, 0, 0, 0, 14, 30, 0, 0, 13, 0, 15, 16, 0, 0, 0, 0, 0, 0,
    0, 0, 0, 0, 0, 0, 29, 3, 22, 23, 0, 0, 0, 17, 18, 2, 0, 19, 20, 4, 0, 6, 7, 21, 0, 0, 0, 5, 0,
    0, 0, 0, 0, 0, 0, 25, 0, 9, 0, 0, 0, 0, 0, 0, 0, 0, 11, 27, 0, 0, 0, 0, 0, 0, 0, 0, 0, 0, 0, 0,
    0, 0, 0, 0, 0, 12, 28, 0, 0, 0, 0, 8, 0, 0, 0, 0, 0, 0, 0, 10, 26, 0, 0, 0, 0, 0, 0, 0, 0, 0,
    0, 0, 0,
];

impl EncodeCode for Windows1252 {
    ghost use Rattle.enc_drivers.specs.Codes.Windows1252.{windows_1252_bytes_of};
    ghost use Rattle.enc_drivers.specs.Lemmas.EncoderLaws.{windows_1252_encoder};

    ghost bytes = { λ code. windows_1252_bytes_of };

    ghost max = { 1 };

    #[inline(always)]
    fn max(&self) -> usize {
        1
    }

    #[inline(always)]
    fn bytes_of(&self, scalar: char) -> Option<Encoded> {
        let code = u32::from(scalar);
        if code < 0x80 {
            return Some(Encoded::one(code as u8));
        }
        if 0xA0 <= code && code <= 0xFF {
            return Some(Encoded::one(code as u8));
        }
        let place = likely_place(code);
        if entry(place) == scalar {
            return Some(Encoded::one(0x80 + place));
        }
        None
    }

    ghost laws = { λ code. windows_1252_encoder };
}

// The only place of `TABLE` where the scalar may stand.
#[inline(always)]
fn likely_place(code: u32) -> u8
    ensures value { result ≡ slice_index PLACES (code % 122) }
    ensures within { result < 32 }
{
    PLACES[(code % 122) as usize]
}

// The scalar at a place of `TABLE`.
#[inline(always)]
fn entry(place: u8) -> char
    requires { place < 32 }
    ensures { result ≡ slice_index windows_1252_table place }
{
    TABLE[usize::from(place)]
}

/// A unit of windows-1252 has one to four bytes, its text at most three bytes for each, and the
/// first four bytes of a rest decide it.
pub fn is_code()
    ensures { IsCode windows_1252_unit }
{}

/// What the encoder writes of a scalar is read as that scalar, whatever follows.
pub fn scalars_read_back()
    ensures { (scalar : ℕ) → ReadsBack windows_1252_unit windows_1252_bytes_of scalar }
{}

/// An ASCII scalar has itself as its one byte.
pub fn encoder_keeps_ascii()
    ensures { IsAsciiCompatible windows_1252_bytes_of }
{}

/// No scalar above U+FFFF has bytes.
pub fn encoder_without_astral()
    ensures { MapsNoAstral windows_1252_bytes_of }
{}
