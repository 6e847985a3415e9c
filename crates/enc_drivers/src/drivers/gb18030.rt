//! The driver of gb18030.
ghost use Rattle.std.specs.Prelude.{◌≡◌, [], encode_utf8};
ghost use Rattle.std.specs.Char.Escape.{encode_utf16};

use crate::code::Code;
use crate::drivers::general::GeneralDriver;
use enc_handles::results::DecoderResult;

/// A decoder of gb18030 over a stream in pieces. It doesn't replace malformed units.
#[derive(Drop)]
pub struct Gb18030Driver<C: Code> {
    driver: GeneralDriver<C>,
}

impl<C: Code> Gb18030Driver<C> {
    ghost use Rattle.enc_drivers.specs.declared.unit.Mode.{Mode};
    ghost use Rattle.enc_drivers.specs.Decodes.{DecodesRaw};
    ghost use Rattle.enc_drivers.specs.Driver.{gb18030_standing, gb18030_unit};

    /// A driver at the start of a stream.
    pub fn new(code: C) -> Self
        ensures start { gb18030_standing result ≡ record { held = []; mode = Mode.Plain } }
        ensures same_code { gb18030_unit result ≡ C.unit code }
    {
        Gb18030Driver {
            driver: GeneralDriver::new(code),
        }
    }

    /// Decodes to UTF-8, as `GeneralDriver::decode_to_utf8_raw`.
    pub fn decode_to_utf8_raw(
        &mut self,
        src: &[u8],
        dst: &mut [u8],
        last: bool,
    ) -> (DecoderResult, usize, usize)
        ensures { DecodesRaw (gb18030_unit self.old) (gb18030_unit self.new) encode_utf8 4 last
            (gb18030_standing self.old) (gb18030_standing self.new) src.now dst.old dst.new result }
    {
        self.driver.decode_to_utf8_raw(src, dst, last)
    }

    /// Decodes to UTF-16, as `GeneralDriver::decode_to_utf16_raw`.
    pub fn decode_to_utf16_raw(
        &mut self,
        src: &[u8],
        dst: &mut [u16],
        last: bool,
    ) -> (DecoderResult, usize, usize)
        ensures { DecodesRaw (gb18030_unit self.old) (gb18030_unit self.new) encode_utf16 2 last
            (gb18030_standing self.old) (gb18030_standing self.new) src.now dst.old dst.new result }
    {
        self.driver.decode_to_utf16_raw(src, dst, last)
    }
}
