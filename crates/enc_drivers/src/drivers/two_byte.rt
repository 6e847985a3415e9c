//! The driver of a code of one and two bytes.
ghost use Rattle.std.specs.Prelude.{◌≡◌, [], encode_utf8};
ghost use Rattle.std.specs.Char.Escape.{encode_utf16};

use crate::code::Code;
use crate::drivers::general::GeneralDriver;
use enc_handles::results::DecoderResult;

#[cfg(test)]
mod tests;

/// A decoder of a code of one and two bytes over a stream in pieces. It doesn't replace malformed
/// units.
#[derive(Drop)]
pub struct TwoByteDriver<C: Code> {
    driver: GeneralDriver<C>,
}

impl<C: Code> TwoByteDriver<C> {
    ghost use Rattle.enc_drivers.specs.declared.unit.Mode.{Mode};
    ghost use Rattle.enc_drivers.specs.Decodes.{DecodesRaw};
    ghost use Rattle.enc_drivers.specs.Driver.{two_byte_standing, two_byte_unit};

    /// A driver at the start of a stream.
    pub fn new(code: C) -> Self
        ensures start { two_byte_standing result ≡ record { held = []; mode = Mode.Plain } }
        ensures same_code { two_byte_unit result ≡ C.unit code }
    {
        TwoByteDriver {
            driver: GeneralDriver::new(code),
        }
    }

    /// Decodes to UTF-8, as `GeneralDriver::decode_to_utf8_raw`.
    pub fn decode_to_utf8_raw(
        &mut self,
        src: &[u8],
        dst: &mut [u8],
        last: bool,
    ) -> (DecoderResult, usize, usize)
        ensures { DecodesRaw (two_byte_unit self.old) (two_byte_unit self.new) encode_utf8 4 last
            (two_byte_standing self.old) (two_byte_standing self.new)
            src.now dst.old dst.new result }
    {
        self.driver.decode_to_utf8_raw(src, dst, last)
    }

    /// Decodes to UTF-16, as `GeneralDriver::decode_to_utf16_raw`.
    pub fn decode_to_utf16_raw(
        &mut self,
        src: &[u8],
        dst: &mut [u16],
        last: bool,
    ) -> (DecoderResult, usize, usize)
        ensures { DecodesRaw (two_byte_unit self.old) (two_byte_unit self.new) encode_utf16 2 last
            (two_byte_standing self.old) (two_byte_standing self.new)
            src.now dst.old dst.new result }
    {
        self.driver.decode_to_utf16_raw(src, dst, last)
    }
}
