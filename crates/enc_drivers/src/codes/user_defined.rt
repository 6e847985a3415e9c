//! x-user-defined (Encoding Standard, sections 14.5.1, x-user-defined decoder, and 14.5.2,
//! x-user-defined encoder).
ghost use Rattle.std.specs.Prelude.{◌≡◌, ℕ};
ghost use Rattle.enc_drivers.specs.Codes.UserDefined.{user_defined_scalar, user_defined_unit};
ghost use Rattle.enc_drivers.specs.Codes.UserDefined.{user_defined_bytes_of};
ghost use Rattle.enc_drivers.specs.Units.{IsCode};
ghost use Rattle.enc_drivers.specs.Encode.{IsAsciiCompatible, MapsNoAstral, ReadsBack};

use crate::code::{Bulk, Code, Step};
use crate::encode::{EncodeCode, Encoded};
use crate::{Item, Mode};

#[cfg(test)]
mod tests;

/// The code of x-user-defined: each byte is a scalar, 80 to FF from U+F780 on.
#[derive(Clone, Copy, Debug, PartialEq, Eq)]
pub struct UserDefined;

impl UserDefined {
    /// The code.
    pub fn new() -> UserDefined
        ensures units { ⟦<UserDefined as Code>⟧.unit result ≡ user_defined_unit }
        ensures bytes { ⟦<UserDefined as EncodeCode>⟧.bytes result ≡ user_defined_bytes_of }
    {
        UserDefined
    }
}

impl Code for UserDefined {
    ghost use Rattle.enc_drivers.specs.Lemmas.SingleByteLaw.{user_defined_law};

    ghost unit = { λ code. user_defined_unit };

    #[inline(always)]
    fn step(&self, mode: Mode, front: &[u8], last: bool) -> Step {
        let _ = last;
        Step::Unit {
            item: Item::One(scalar_of(front[0])),
            length: 1,
            next: mode,
        }
    }

    fn bulk(&self) -> Bulk {
        Bulk::Ascii
    }

    #[inline(always)]
    fn scalar(&self, bytes: &[u8]) -> Option<(char, usize)> {
        Some((scalar_of(bytes[0]), 1))
    }

    ghost laws = { λ code. user_defined_law };
}

// The scalar of a byte.
#[tactic(auto, unfolding(crate::specs::Codes::UserDefined::user_defined_scalar))]
fn scalar_of(byte: u8) -> char
    ensures { result ≡ user_defined_scalar byte }
{
    if byte < 0x80 {
        char::from(byte)
    } else {
        char::from_u32(0xF780 + u32::from(byte - 0x80)).unwrap()
    }
}

impl EncodeCode for UserDefined {
    ghost use Rattle.enc_drivers.specs.Codes.UserDefined.{user_defined_bytes_of};
    ghost use Rattle.enc_drivers.specs.Lemmas.EncoderLaws.{user_defined_encoder};

    ghost bytes = { λ code. user_defined_bytes_of };

    ghost max = { 1 };

    #[inline(always)]
    fn max(&self) -> usize {
        1
    }

    #[inline(always)]
    #[tactic(auto, unfolding(crate::specs::Codes::UserDefined::user_defined_bytes_of))]
    fn bytes_of(&self, scalar: char) -> Option<Encoded> {
        let code = u32::from(scalar);
        if code < 0x80 {
            return Some(Encoded::one(code as u8));
        }
        if 0xF780 <= code && code <= 0xF7FF {
            return Some(Encoded::one((code - 0xF780 + 0x80) as u8));
        }
        None
    }

    ghost laws = { λ code. user_defined_encoder };
}

/// A unit of x-user-defined has one to four bytes, its text at most three bytes for each, and the
/// first four bytes of a rest decide it.
pub fn is_code()
    ensures { IsCode user_defined_unit }
{}

/// What the encoder writes of a scalar is read as that scalar, whatever follows.
pub fn scalars_read_back()
    ensures { (scalar : ℕ) →
        ReadsBack user_defined_unit user_defined_bytes_of scalar }
{}

/// An ASCII scalar has itself as its one byte.
pub fn encoder_keeps_ascii()
    ensures { IsAsciiCompatible user_defined_bytes_of }
{}

/// No scalar above U+FFFF has bytes.
pub fn encoder_without_astral()
    ensures { MapsNoAstral user_defined_bytes_of }
{}
