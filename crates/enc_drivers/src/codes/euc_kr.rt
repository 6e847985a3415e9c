//! EUC-KR (Encoding Standard, section 13.1: 13.1.1, EUC-KR decoder, and 13.1.2, EUC-KR encoder).
ghost use Rattle.std.specs.Prelude.{◌≡◌, ◌<◌, ◌≤◌, true, ℕ, List, [], ◌∷◌, ◌++◌};
ghost use Rattle.enc_drivers.specs.Codes.EucKr.{is_euc_kr_lead, is_euc_kr_trail, euc_kr_place};
ghost use Rattle.enc_drivers.specs.Codes.EucKr.{euc_kr_pairs, euc_kr_unit, euc_kr_bytes_of};
ghost use Rattle.enc_drivers.specs.Codes.EucKr.{euc_kr_bytes};
ghost use Rattle.enc_drivers.specs.Codes.Pairs.{item_found};
ghost use Rattle.enc_drivers.specs.Lookup.{Places, FindsScalars, HasNoAstral};
ghost use Rattle.enc_drivers.specs.Units.{IsCode, scalar_at};
ghost use Rattle.enc_drivers.specs.Encode.{IsAsciiCompatible, MapsNoAstral, ReadsBack};
ghost use Rattle.enc_drivers.specs.declared.unit.Item.TheVariants.{Malformed};
ghost use Rattle.enc_drivers.specs.declared.unit.Mode.{Mode};

use crate::code::{Bulk, Code, Step};
use crate::codes::pairs::{self, PairCode};
use crate::encode::{EncodeCode, Encoded};
use crate::lookup::Lookup;
use crate::{Item, Mode};

#[cfg(test)]
mod tests;

/// The code of EUC-KR over its index.
#[derive(Drop)]
pub struct EucKr<'t, L: Lookup> {
    index: &'t L,
}

impl<'t, L: Lookup> EucKr<'t, L> {
    /// The code.
    pub fn new(index: &'t L) -> EucKr<'t, L>
        ensures units { ⟦<EucKr<'t, L> as Code>⟧.unit result ≡ euc_kr_unit (L.places index.now) }
        ensures bytes { ⟦<EucKr<'t, L> as EncodeCode>⟧.bytes result
            ≡ euc_kr_bytes_of (L.places index.now) }
    {
        EucKr { index }
    }
}

impl<'t, L: Lookup> Code for EucKr<'t, L> {
    ghost use Rattle.enc_drivers.specs.Lemmas.EucKrLaw.{euc_kr_law};

    ghost unit = { λ code. euc_kr_unit (L.places code.index.now) };

    #[inline(always)]
    fn step(&self, mode: Mode, front: &[u8], last: bool) -> Step {
        pairs::step(self, mode, front, last)
    }

    fn bulk(&self) -> Bulk {
        Bulk::Ascii
    }

    #[inline(always)]
    fn scalar(&self, bytes: &[u8]) -> Option<(char, usize)> {
        pairs::scalar(self, bytes)
    }

    #[inline(always)]
    fn entry(&self, first: u8, second: u8) -> u32 {
        pairs::entry(self, first, second)
    }

    ghost laws = { λ code. euc_kr_law (L.places code.index.now) (L.scalars code.index.now) };
}

impl<'t, L: Lookup> PairCode for EucKr<'t, L> {
    ghost pairs = { λ code. euc_kr_pairs (L.places code.index.now) };

    fn is_lead(&self, byte: u8) -> bool {
        pairs::is_between(0x81, 0xFE, byte)
    }

    fn alone(&self, byte: u8) -> Item {
        pairs::ascii_alone(byte)
    }

    #[inline(always)]
    fn both(&self, lead: u8, second: u8) -> Item {
        if !is_trail(second) {
            return Item::Malformed;
        }
        pairs::item_found(self.index.at(place(lead, second)))
    }

    #[inline(always)]
    fn pair_entry(&self, lead: u8, second: u8) -> u32 {
        if !is_trail(second) {
            return 0;
        }
        self.index.entry(place(lead, second))
    }
}

fn is_trail(byte: u8) -> bool
    ensures { result ≡ is_euc_kr_trail byte }
{
    pairs::is_between(0x41, 0xFE, byte)
}

// Where a lead and a trail stand in the index.
fn place(lead: u8, trail: u8) -> u32
    requires lead { is_euc_kr_lead lead ≡ true }
    requires trail { is_euc_kr_trail trail ≡ true }
    ensures { result ≡ euc_kr_place lead trail }
{
    u32::from(lead - 0x81) * 190 + u32::from(trail - 0x41)
}

impl<'t, L: Lookup> EncodeCode for EucKr<'t, L> {
    ghost use Rattle.enc_drivers.specs.Codes.EucKr.{euc_kr_bytes_of};
    ghost use Rattle.enc_drivers.specs.Lemmas.EncoderLaws.{euc_kr_encoder};

    ghost bytes = { λ code. euc_kr_bytes_of (L.places code.index.now) };

    ghost max = { 2 };

    #[inline(always)]
    fn max(&self) -> usize {
        2
    }

    #[inline(always)]
    #[tactic(auto, unfolding(crate::specs::Codes::EucKr::euc_kr_bytes_of))]
    fn bytes_of(&self, scalar: char) -> Option<Encoded> {
        let code = u32::from(scalar);
        if code < 0x80 {
            return Some(Encoded::one(code as u8));
        }
        let place = self.index.place_of(scalar, 23940)?;
        Some(Encoded::two((place / 190 + 0x81) as u8, (place % 190 + 0x41) as u8))
    }

    ghost laws = { λ code. euc_kr_encoder (L.places code.index.now) };
}

/// A unit of EUC-KR has one to four bytes, its text at most three bytes for each, and the first
/// four bytes of a rest decide it, over an index of scalars.
pub fn is_code()
    ensures { (places : Places) → FindsScalars places → IsCode (euc_kr_unit places) }
{}

/// An ASCII byte is a unit of itself, whatever follows.
pub fn keeps_ascii()
    ensures { (places : Places) (mode : Mode) (byte : ℕ) (rest : List ℕ) → byte < 0x80 →
        euc_kr_unit places mode (byte ∷ rest) ≡ scalar_at mode byte 1 }
{}

/// What stands at a place is read from the two bytes of this place, and each lead and trail are the
/// bytes of their place.
pub fn places_have_bytes()
    ensures read_back { (places : Places) (mode : Mode) (place : ℕ) (rest : List ℕ) → place < 23940
        →
        let item = item_found (places place) in ¬ (item ≡ Malformed) →
        euc_kr_unit places mode (euc_kr_bytes place ++ rest)
        ≡ record { item = item; len = 2; next = mode } }
    ensures unique { (lead trail : ℕ) → is_euc_kr_lead lead ≡ true → is_euc_kr_trail trail ≡ true →
        euc_kr_bytes (euc_kr_place lead trail) ≡ lead ∷ trail ∷ [] }
{}

/// What the encoder writes of a scalar is read as that scalar, whatever follows.
pub fn scalars_read_back()
    ensures { (places : Places) (scalar : ℕ) →
        ReadsBack (euc_kr_unit places) (euc_kr_bytes_of places) scalar }
{}

/// An ASCII scalar has itself as its one byte.
pub fn encoder_keeps_ascii()
    ensures { (places : Places) → IsAsciiCompatible (euc_kr_bytes_of places) }
{}

/// No scalar above U+FFFF has bytes, where the index has none.
pub fn encoder_without_astral()
    ensures { (places : Places) → HasNoAstral places →
        MapsNoAstral (euc_kr_bytes_of places) }
{}
