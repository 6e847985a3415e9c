//! EUC-JP (Encoding Standard, section 12.1: 12.1.1, EUC-JP decoder, and 12.1.2, EUC-JP encoder).
ghost use Rattle.std.specs.Prelude.{◌≡◌, ◌<◌, ◌≤◌, ◌&&◌, ◌==◌, true, ℕ, List, ◌∷◌, ◌++◌};
ghost use Rattle.enc_drivers.specs.Lookup.{IsEntryOf, Places, FindsScalars, HasNoAstral};
ghost use Rattle.enc_drivers.specs.Codes.EucJp.{in_row, is_euc_jp_lead, row_scalar, euc_jp_scalar};
ghost use Rattle.enc_drivers.specs.Codes.EucJp.{euc_jp_unit, euc_jp_bytes_of, euc_jp_bytes};
ghost use Rattle.enc_drivers.specs.Codes.EucJp.{minus_as_hyphen};
ghost use Rattle.enc_drivers.specs.Units.{IsCode, scalar_at};
ghost use Rattle.enc_drivers.specs.Encode.{IsAsciiCompatible, MapsNoAstral, ReadsBack};
ghost use Rattle.enc_drivers.specs.declared.unit.Mode.{Mode};

use crate::Mode;
use crate::code::{Bulk, Code, Step};
use crate::codes::sequence::{one, sequence};
use crate::encode::{EncodeCode, Encoded};
use crate::lookup::Lookup;
use crate::steps::{cut, malformed};

#[cfg(test)]
mod tests;

/// The code of EUC-JP over the indexes jis0208 and jis0212.
#[derive(Drop)]
pub struct EucJp<'t, L: Lookup> {
    jis0208: &'t L,
    jis0212: &'t L,
}

impl<'t, L: Lookup> EucJp<'t, L> {
    /// The code over two indexes.
    pub fn new(jis0208: &'t L, jis0212: &'t L) -> EucJp<'t, L>
        ensures units { ⟦<EucJp<'t, L> as Code>⟧.unit result
            ≡ euc_jp_unit (L.places jis0208.now) (L.places jis0212.now) }
        ensures bytes { ⟦<EucJp<'t, L> as EncodeCode>⟧.bytes result
            ≡ euc_jp_bytes_of (L.places jis0208.now) }
    {
        EucJp { jis0208, jis0212 }
    }
}

impl<'t, L: Lookup> Code for EucJp<'t, L> {
    ghost use Rattle.enc_drivers.specs.Lemmas.EucJpLaw.{euc_jp_law};

    ghost unit = { λ code. euc_jp_unit (L.places code.jis0208.now) (L.places code.jis0212.now) };

    #[inline(always)]
    fn step(&self, mode: Mode, front: &[u8], last: bool) -> Step {
        let lead = front[0];
        if lead < 0x80 {
            return one(mode, char::from(lead), 1);
        }
        if !is_lead(lead) {
            return malformed(mode, 1);
        }
        if front.len() < 2 {
            return cut(mode, 1, last);
        }
        let second = front[1];
        if !names_jis0212(lead, second) {
            return sequence(mode, two_byte_scalar(self.jis0208, lead, second), 2, second);
        }
        if front.len() < 3 {
            return cut(mode, 2, last);
        }
        let third = front[2];
        sequence(mode, row_scalar(self.jis0212, second, third), 3, third)
    }

    fn bulk(&self) -> Bulk {
        Bulk::Ascii
    }

    // Of the scalars in jis0208.
    #[inline(always)]
    fn entry(&self, first: u8, second: u8) -> u32 {
        if !is_in_row(first) {
            return 0;
        }
        if !is_in_row(second) {
            return 0;
        }
        row_entry(self.jis0208, first, second)
    }

    // Of one and two bytes.
    #[inline(always)]
    fn scalar(&self, bytes: &[u8]) -> Option<(char, usize)> {
        let lead = bytes[0];
        if lead < 0x80 {
            return Some((char::from(lead), 1));
        }
        if !is_lead(lead) {
            return None;
        }
        if bytes.len() < 2 {
            return None;
        }
        let second = bytes[1];
        if names_jis0212(lead, second) {
            return None;
        }
        match two_byte_scalar(self.jis0208, lead, second) {
            Some(scalar) => Some((scalar, 2)),
            None => None,
        }
    }

    ghost laws = { λ code. euc_jp_law (L.places code.jis0208.now) (L.places code.jis0212.now)
        (L.scalars code.jis0208.now) (L.scalars code.jis0212.now) };
}

// Whether a byte begins a sequence.
fn is_lead(byte: u8) -> bool
    ensures { result ≡ is_euc_jp_lead byte }
{
    byte == 0x8E || byte == 0x8F || is_in_row(byte)
}

// Whether a byte is one of a scalar's in an index.
fn is_in_row(byte: u8) -> bool
    ensures { result ≡ in_row byte }
{
    0xA1 <= byte && byte <= 0xFE
}

// Whether two bytes begin a sequence of three.
fn names_jis0212(lead: u8, second: u8) -> bool
    ensures { result ≡ (lead == 0x8F && in_row second) }
{
    lead == 0x8F && is_in_row(second)
}

// The scalar of a sequence of two bytes.
#[inline(always)]
#[tactic(auto, unfolding(crate::specs::Codes::EucJp::euc_jp_scalar))]
fn two_byte_scalar<L: Lookup>(jis0208: &L, lead: u8, second: u8) -> Option<char>
    ensures { result ≡ euc_jp_scalar (L.places jis0208.now) lead second }
{
    if lead == 0x8E && 0xA1 <= second && second <= 0xDF {
        return Some(char::from_u32(0xFF61 + u32::from(second - 0xA1)).unwrap());
    }
    row_scalar(jis0208, lead, second)
}

// The entry of the scalar of two bytes of a row in an index, or 0.
#[inline(always)]
#[tactic(auto, unfolding(crate::specs::Codes::EucJp::row_scalar))]
fn row_entry<L: Lookup>(index: &L, first: u8, second: u8) -> u32
    requires first { in_row first ≡ true }
    requires second { in_row second ≡ true }
    ensures { 0 < result → IsEntryOf (row_scalar (L.places index.now) first second) result }
{
    index.entry(u32::from(first - 0xA1) * 94 + u32::from(second - 0xA1))
}

// The scalar of two bytes of a row in an index.
#[inline(always)]
#[tactic(auto, unfolding(crate::specs::Codes::EucJp::row_scalar))]
fn row_scalar<L: Lookup>(index: &L, first: u8, second: u8) -> Option<char>
    ensures { result ≡ row_scalar (L.places index.now) first second }
{
    if !is_in_row(first) || !is_in_row(second) {
        return None;
    }
    index.at(u32::from(first - 0xA1) * 94 + u32::from(second - 0xA1))
}

impl<'t, L: Lookup> EncodeCode for EucJp<'t, L> {
    ghost use Rattle.enc_drivers.specs.Codes.EucJp.{euc_jp_bytes_of};
    ghost use Rattle.enc_drivers.specs.Lemmas.EncoderLaws.{euc_jp_encoder};

    ghost bytes = { λ code. euc_jp_bytes_of (L.places code.jis0208.now) };

    ghost max = { 2 };

    #[inline(always)]
    fn max(&self) -> usize {
        2
    }

    #[inline(always)]
    #[tactic(auto, unfolding(crate::specs::Codes::EucJp::euc_jp_bytes_of))]
    fn bytes_of(&self, scalar: char) -> Option<Encoded> {
        let code = u32::from(scalar);
        if code < 0x80 {
            return Some(Encoded::one(code as u8));
        }
        if code == 0xA5 {
            return Some(Encoded::one(0x5C));
        }
        if code == 0x203E {
            return Some(Encoded::one(0x7E));
        }
        if 0xFF61 <= code && code <= 0xFF9F {
            return Some(Encoded::two(0x8E, (code - 0xFF61 + 0xA1) as u8));
        }
        let place = self.jis0208.place_of(minus_as_hyphen(scalar), 8836)?;
        Some(Encoded::two((place / 94 + 0xA1) as u8, (place % 94 + 0xA1) as u8))
    }

    ghost laws = { λ code. euc_jp_encoder (L.places code.jis0208.now) };
}

// The minus sign is written as the full-width hyphen-minus.
#[inline(always)]
fn minus_as_hyphen(scalar: char) -> char
    ensures { result ≡ minus_as_hyphen scalar }
{
    if scalar == '\u{2212}' {
        '\u{FF0D}'
    } else {
        scalar
    }
}

/// A unit of EUC-JP has one to four bytes, its text at most three bytes for each, and the first
/// four bytes of a rest decide it, over two indexes.
pub fn is_code()
    ensures { (jis0208 jis0212 : Places) → FindsScalars jis0208 → FindsScalars jis0212
        → IsCode (euc_jp_unit jis0208 jis0212) }
{}

/// What stands at a place of either index is read from the bytes of this place, those of jis0212
/// behind 8F.
pub fn places_have_bytes()
    ensures read_back { (jis0208 jis0212 : Places) (mode : Mode) (place scalar : ℕ) (rest : List ℕ)
        → place < 8836 →
        jis0208 place ≡ Some scalar →
        euc_jp_unit jis0208 jis0212 mode (euc_jp_bytes place ++ rest) ≡ scalar_at mode scalar 2 }
    ensures read_back_of_three { (jis0208 jis0212 : Places) (mode : Mode) (place scalar : ℕ)
        (rest : List ℕ) → place < 8836 →
        jis0212 place ≡ Some scalar →
        euc_jp_unit jis0208 jis0212 mode (0x8F ∷ (euc_jp_bytes place ++ rest))
        ≡ scalar_at mode scalar 3 }
{}

/// What the encoder writes of a scalar is read as that scalar, whatever follows: of all but the yen
/// sign, the overline and the minus sign, whose bytes stand for other scalars.
pub fn scalars_read_back()
    ensures { (jis0208 jis0212 : Places) (scalar : ℕ) →
        ¬ (scalar ≡ 0xA5) → ¬ (scalar ≡ 0x203E) → ¬ (scalar ≡ 0x2212) →
        ReadsBack (euc_jp_unit jis0208 jis0212) (euc_jp_bytes_of jis0208) scalar }
{}

/// An ASCII scalar has itself as its one byte.
pub fn encoder_keeps_ascii()
    ensures { (jis0208 : Places) → IsAsciiCompatible (euc_jp_bytes_of jis0208) }
{}

/// No scalar above U+FFFF has bytes, where the index has none.
pub fn encoder_without_astral()
    ensures { (jis0208 : Places) → HasNoAstral jis0208 →
        MapsNoAstral (euc_jp_bytes_of jis0208) }
{}
