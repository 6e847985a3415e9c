//! The codes of encodings: the driver of each, and its encoder.
ghost use Rattle.std.specs.Prelude.{◌≡◌, true, false, encode_utf8, IsTrue};
ghost use Rattle.std.specs.Char.Escape.{encode_utf16};
ghost use Rattle.std.specs.Str.{chars};
ghost use Rattle.enc_handles.specs.Scalars.{scalars16, is_seam8, is_seam16};
ghost use Rattle.enc_drivers.specs.Decodes.{DecodesRaw};
ghost use Rattle.enc_drivers.specs.Encodes.{EncodesRaw};
ghost use Rattle.enc_drivers.specs.Lookup.{HasNoAstral};
ghost use Rattle.enc_front.specs.DecoderSteps.{at_start};
ghost use Rattle.enc_front.specs.Encoder.{bytes_in, has_encoder, most_bytes};
ghost use Rattle.enc_front.specs.Index.{index_places, ranges_places};
ghost use Rattle.enc_front.specs.Indexes.{has_kind, indexes_of, known, places_in};
ghost use Rattle.enc_front.specs.Kinds.{is_bmp, is_ranges};
ghost use Rattle.enc_front.specs.Units.{unit};
ghost use Rattle.enc_front.specs.Variant.{unit_in, standing_in};

use crate::encoding::{Encoding, SingleName};
use crate::index::{Index, Ranges};
use crate::tables::{IndexKind, Tables};
use enc_drivers::codes::big5::Big5;
use enc_drivers::codes::euc_jp::EucJp;
use enc_drivers::codes::euc_kr::EucKr;
use enc_drivers::codes::gb18030::Gb18030;
use enc_drivers::codes::iso_2022_jp::Iso2022Jp;
use enc_drivers::codes::shift_jis::ShiftJis;
use enc_drivers::codes::single_byte::SingleByte;
use enc_drivers::codes::user_defined::UserDefined;
use enc_drivers::codes::utf8::Utf8Code;
use enc_drivers::codes::utf16::Utf16Code;
use enc_drivers::codes::windows_1252::Windows1252;
use enc_drivers::drivers::euc_jp::EucJpDriver;
use enc_drivers::drivers::gb18030::Gb18030Driver;
use enc_drivers::drivers::general::GeneralDriver;
use enc_drivers::drivers::two_byte::TwoByteDriver;
use enc_drivers::encoders::{
    ascii_compatible_bmp_encode_from_utf8_raw, ascii_compatible_bmp_encode_from_utf16_raw,
    ascii_compatible_encode_from_utf8_raw, ascii_compatible_encode_from_utf16_raw,
    utf8_encode_from_utf8_raw,
};
use enc_handles::endian::{BigEndian, LittleEndian};
use enc_handles::results::{DecoderResult, EncoderResult};

// A driver, by its type.
#[derive(Drop)]
pub(crate) enum VariantDecoder<'t> {
    Utf8(GeneralDriver<Utf8Code>),
    Utf16Be(GeneralDriver<Utf16Code<BigEndian>>),
    Utf16Le(GeneralDriver<Utf16Code<LittleEndian>>),
    Windows1252(GeneralDriver<Windows1252>),
    UserDefined(GeneralDriver<UserDefined>),
    SingleByte(GeneralDriver<SingleByte<'t, Index>>),
    Big5(TwoByteDriver<Big5<'t, Index>>),
    EucJp(EucJpDriver<EucJp<'t, Index>>),
    EucKr(TwoByteDriver<EucKr<'t, Index>>),
    Gb18030(Gb18030Driver<Gb18030<'t, Index, Ranges>>),
    Iso2022Jp(GeneralDriver<Iso2022Jp<'t, Index>>),
    ShiftJis(TwoByteDriver<ShiftJis<'t, Index>>),
}

// Calls the driver that is there.
macro_rules! on_driver {
    ($variant:expr, $driver:ident => $call:expr) => {
        match $variant {
            VariantDecoder::Utf8($driver) => $call,
            VariantDecoder::Utf16Be($driver) => $call,
            VariantDecoder::Utf16Le($driver) => $call,
            VariantDecoder::Windows1252($driver) => $call,
            VariantDecoder::UserDefined($driver) => $call,
            VariantDecoder::SingleByte($driver) => $call,
            VariantDecoder::Big5($driver) => $call,
            VariantDecoder::EucJp($driver) => $call,
            VariantDecoder::EucKr($driver) => $call,
            VariantDecoder::Gb18030($driver) => $call,
            VariantDecoder::Iso2022Jp($driver) => $call,
            VariantDecoder::ShiftJis($driver) => $call,
        }
    };
}

impl<'t> VariantDecoder<'t> {
    // The driver of an encoding at the start of a stream.
    pub(crate) fn new(encoding: Encoding, tables: &'t Tables) -> VariantDecoder<'t>
        requires { IsTrue (known encoding (indexes_of tables.now)) }
        ensures same_code { unit_in result ≡ unit encoding (indexes_of tables.now) }
        ensures start { standing_in result ≡ at_start }
    {
        match encoding {
            Encoding::Utf8 => VariantDecoder::Utf8(GeneralDriver::new(Utf8Code::new())),
            Encoding::Utf16Be => VariantDecoder::Utf16Be(GeneralDriver::new(Utf16Code::new())),
            Encoding::Utf16Le => VariantDecoder::Utf16Le(GeneralDriver::new(Utf16Code::new())),
            Encoding::Windows1252 => {
                VariantDecoder::Windows1252(GeneralDriver::new(Windows1252::new()))
            }
            Encoding::UserDefined => {
                VariantDecoder::UserDefined(GeneralDriver::new(UserDefined::new()))
            }
            Encoding::Single(name) => {
                let index = index_of(tables, IndexKind::Single(name));
                VariantDecoder::SingleByte(GeneralDriver::new(SingleByte::new(index)))
            }
            Encoding::Iso8859_8I => {
                let index = index_of(tables, IndexKind::Single(SingleName::Iso8859_8));
                VariantDecoder::SingleByte(GeneralDriver::new(SingleByte::new(index)))
            }
            Encoding::Gbk => {
                let index = index_of(tables, IndexKind::Gb18030);
                let ranges = ranges_of(tables);
                let code = Gb18030::new(index, ranges, true);
                VariantDecoder::Gb18030(Gb18030Driver::new(code))
            }
            Encoding::Gb18030 => {
                let index = index_of(tables, IndexKind::Gb18030);
                let ranges = ranges_of(tables);
                let code = Gb18030::new(index, ranges, false);
                VariantDecoder::Gb18030(Gb18030Driver::new(code))
            }
            Encoding::Big5 => {
                let index = index_of(tables, IndexKind::Big5);
                VariantDecoder::Big5(TwoByteDriver::new(Big5::new(index)))
            }
            Encoding::EucJp => {
                let jis0208 = index_of(tables, IndexKind::Jis0208);
                let jis0212 = index_of(tables, IndexKind::Jis0212);
                VariantDecoder::EucJp(EucJpDriver::new(EucJp::new(jis0208, jis0212)))
            }
            Encoding::Iso2022Jp => {
                let jis0208 = index_of(tables, IndexKind::Jis0208);
                VariantDecoder::Iso2022Jp(GeneralDriver::new(Iso2022Jp::new(jis0208)))
            }
            Encoding::ShiftJis => {
                let index = index_of(tables, IndexKind::Jis0208);
                VariantDecoder::ShiftJis(TwoByteDriver::new(ShiftJis::new(index)))
            }
            Encoding::EucKr => {
                let index = index_of(tables, IndexKind::EucKr);
                VariantDecoder::EucKr(TwoByteDriver::new(EucKr::new(index)))
            }
        }
    }

    // Decodes to UTF-8, as the driver does.
    pub(crate) fn decode_to_utf8_raw(
        &mut self,
        src: &[u8],
        dst: &mut [u8],
        last: bool,
    ) -> (DecoderResult, usize, usize)
        ensures { DecodesRaw (unit_in self.old) (unit_in self.new) encode_utf8 4 last
            (standing_in self.old) (standing_in self.new) src.now dst.old dst.new result }
    {
        on_driver!(self, driver => driver.decode_to_utf8_raw(src, dst, last))
    }

    // Decodes to UTF-16, as the driver does.
    pub(crate) fn decode_to_utf16_raw(
        &mut self,
        src: &[u8],
        dst: &mut [u16],
        last: bool,
    ) -> (DecoderResult, usize, usize)
        ensures { DecodesRaw (unit_in self.old) (unit_in self.new) encode_utf16 2 last
            (standing_in self.old) (standing_in self.new) src.now dst.old dst.new result }
    {
        on_driver!(self, driver => driver.decode_to_utf16_raw(src, dst, last))
    }
}

// The index of a kind, which is there.
fn index_of(tables: &Tables, kind: IndexKind) -> &Index
    requires flat { is_ranges kind ≡ false }
    requires there { has_kind (indexes_of tables.now) kind ≡ true }
    ensures index { index_places result.now ≡ places_in (indexes_of tables.now) kind }
    ensures bmp { is_bmp kind ≡ true → HasNoAstral (index_places result.now) }
{
    match tables.index(kind) {
        Some(index) => index,
        None => unreachable!(),
    }
}

// The ranges, which are there.
fn ranges_of(tables: &Tables) -> &Ranges
    requires { has_kind (indexes_of tables.now) IndexKind.Gb18030Ranges ≡ true }
    ensures { ranges_places result.now ≡ places_in (indexes_of tables.now) IndexKind.Gb18030Ranges }
{
    match tables.ranges() {
        Some(ranges) => ranges,
        None => unreachable!(),
    }
}

// Calls an encoder with the code of an encoding: `$any` where a scalar above U+FFFF may have bytes,
// else `$bmp`. `$utf8` is the call of UTF-8.
macro_rules! with_code {
    (
        $encoding:expr, $tables:expr, $utf8:expr, $any:ident, $bmp:ident,
        $src:expr, $dst:expr, $last:expr
    ) => {
        match $encoding {
            Encoding::Utf8 | Encoding::Utf16Be | Encoding::Utf16Le => $utf8,
            Encoding::Windows1252 => $bmp(&Windows1252::new(), $src, $dst, $last),
            Encoding::UserDefined => $bmp(&UserDefined::new(), $src, $dst, $last),
            Encoding::Single(name) => {
                let index = index_of($tables, IndexKind::Single(name));
                $bmp(&SingleByte::new(index), $src, $dst, $last)
            }
            Encoding::Iso8859_8I => {
                let index = index_of($tables, IndexKind::Single(SingleName::Iso8859_8));
                $bmp(&SingleByte::new(index), $src, $dst, $last)
            }
            Encoding::Gbk => {
                let index = index_of($tables, IndexKind::Gb18030);
                let ranges = ranges_of($tables);
                $any(&Gb18030::new(index, ranges, true), $src, $dst, $last)
            }
            Encoding::Gb18030 => {
                let index = index_of($tables, IndexKind::Gb18030);
                let ranges = ranges_of($tables);
                $any(&Gb18030::new(index, ranges, false), $src, $dst, $last)
            }
            Encoding::EucJp => {
                let jis0208 = index_of($tables, IndexKind::Jis0208);
                let jis0212 = index_of($tables, IndexKind::Jis0212);
                $bmp(&EucJp::new(jis0208, jis0212), $src, $dst, $last)
            }
            Encoding::EucKr => {
                let index = index_of($tables, IndexKind::EucKr);
                $bmp(&EucKr::new(index), $src, $dst, $last)
            }
            Encoding::Big5 | Encoding::ShiftJis | Encoding::Iso2022Jp => unreachable!(),
        }
    };
}

// Encodes UTF-8 by the code of an encoding.
#[tactic(auto, using(crate::proofs::EncoderLemmas::codes_keep))]
pub(crate) fn encode_from_utf8_raw(
    encoding: Encoding,
    tables: &Tables,
    src: &str,
    dst: &mut [u8],
    last: bool,
) -> (EncoderResult, usize, usize)
    requires can { has_encoder encoding ≡ true }
    requires has { IsTrue (known encoding (indexes_of tables.now)) }
    ensures { EncodesRaw chars is_seam8 (bytes_in encoding (indexes_of tables.now))
        (most_bytes encoding) src.now dst.old dst.new result }
{
    with_code!(
        encoding,
        tables,
        utf8_encode_from_utf8_raw(src, dst, last),
        ascii_compatible_encode_from_utf8_raw,
        ascii_compatible_bmp_encode_from_utf8_raw,
        src,
        dst,
        last
    )
}

// Encodes UTF-16 by the code of an encoding.
#[tactic(auto, using(crate::proofs::EncoderLemmas::codes_keep))]
pub(crate) fn encode_from_utf16_raw(
    encoding: Encoding,
    tables: &Tables,
    src: &[u16],
    dst: &mut [u8],
    last: bool,
) -> (EncoderResult, usize, usize)
    requires can { has_encoder encoding ≡ true }
    requires has { IsTrue (known encoding (indexes_of tables.now)) }
    ensures { EncodesRaw scalars16 is_seam16 (bytes_in encoding (indexes_of tables.now))
        (most_bytes encoding) src.now dst.old dst.new result }
{
    with_code!(
        encoding,
        tables,
        ascii_compatible_encode_from_utf16_raw(&Utf8Code::new(), src, dst, last),
        ascii_compatible_encode_from_utf16_raw,
        ascii_compatible_bmp_encode_from_utf16_raw,
        src,
        dst,
        last
    )
}
