//! Encoders of text to bytes.
ghost use Rattle.std.specs.Prelude.{◌≡◌, true, IsTrue};
ghost use Rattle.std.specs.Str.{chars};
ghost use Rattle.enc_handles.specs.Scalars.{scalars16, is_seam8, is_seam16};
ghost use Rattle.enc_drivers.specs.Encodes.{EncodesRaw};
ghost use Rattle.enc_front.specs.Encoder.{has_encoder};
ghost use Rattle.enc_front.specs.Indexes.{indexes_of, known};

#[cfg(test)]
mod tests;

use crate::encoding::Encoding;
use crate::tables::Tables;
use crate::variant::{encode_from_utf8_raw, encode_from_utf16_raw};
use enc_handles::results::EncoderResult;

/// An encoder of text in pieces. It keeps nothing between two calls.
///
/// UTF-16LE and UTF-16BE are encoded as UTF-8 (Encoding Standard, section 4.3, "get an output
/// encoding").
#[derive(Drop)]
pub struct Encoder<'t> {
    tables: &'t Tables,
    encoding: Encoding,
    ghost can: { has_encoder encoding ≡ true },
    ghost has: { IsTrue (known encoding (indexes_of tables.now)) },
}

impl<'t> Encoder<'t> {
    ghost use Rattle.enc_front.specs.EncoderView.{encoding_to, indexes_to, bytes_to, most_to};

    /// Whether there is an encoder of `encoding`: of every one but Big5, Shift_JIS and ISO-2022-JP.
    pub fn can(encoding: Encoding) -> bool
        ensures { result ≡ has_encoder encoding }
    {
        encoding.has_encoder()
    }

    /// An encoder to `encoding`. There must be one, and `tables` must have what the encoding needs.
    pub fn new(encoding: Encoding, tables: &'t Tables) -> Encoder<'t>
        requires can { has_encoder encoding ≡ true }
        requires has { IsTrue (known encoding (indexes_of tables.now)) }
        ensures encoding { encoding_to result ≡ encoding }
        ensures indexes { indexes_to result ≡ indexes_of tables.now }
    {
        Encoder { tables, encoding }
    }

    /// Encodes UTF-8: reads characters of `src`, writes their bytes to the front of `dst`, and
    /// answers how many bytes it read and how many it wrote.
    ///
    /// `InputEmpty`: all of `src` was read. `OutputFull`: fewer bytes are free than a character may
    /// have, and something is left. `Unmappable`: this character was read last, and has no bytes;
    /// nothing is written for it. Bytes of `dst` behind those are free to change. `last` changes
    /// nothing.
    pub fn encode_from_utf8_without_replacement(
        &mut self,
        src: &str,
        dst: &mut [u8],
        last: bool,
    ) -> (EncoderResult, usize, usize)
        ensures encodes { EncodesRaw chars is_seam8 (bytes_to self.old) (most_to self.old)
            src.now dst.old dst.new result }
        ensures same { self.new ≡ self.old }
    {
        encode_from_utf8_raw(self.encoding, self.tables, src, dst, last)
    }

    /// Encodes UTF-16 as [`Encoder::encode_from_utf8_without_replacement`] does UTF-8; what is read
    /// is counted in code units. An unpaired surrogate is read as U+FFFD, a leading one at the end
    /// of `src` too, and no call stops within a pair: cut a stream between characters.
    pub fn encode_from_utf16_without_replacement(
        &mut self,
        src: &[u16],
        dst: &mut [u8],
        last: bool,
    ) -> (EncoderResult, usize, usize)
        ensures encodes { EncodesRaw scalars16 is_seam16 (bytes_to self.old) (most_to self.old)
            src.now dst.old dst.new result }
        ensures same { self.new ≡ self.old }
    {
        encode_from_utf16_raw(self.encoding, self.tables, src, dst, last)
    }
}
