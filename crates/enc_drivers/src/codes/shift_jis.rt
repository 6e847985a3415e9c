//! Shift_JIS (Encoding Standard, section 12.3.1, Shift_JIS decoder).

ghost use Rattle.std.specs.Prelude.{◌≡◌, ◌<◌, ◌≤◌, ◌||◌, true, ℕ, List, [], ◌∷◌, ◌++◌};
ghost use Rattle.enc_drivers.specs.Bulk.{IsItemEntry};
ghost use Rattle.enc_drivers.specs.Codes.ShiftJis.{is_shift_jis_lead, is_shift_jis_trail};
ghost use Rattle.enc_drivers.specs.Codes.ShiftJis.{shift_jis_place, shift_jis_at, shift_jis_alone};
ghost use Rattle.enc_drivers.specs.Codes.ShiftJis.{shift_jis_pairs, shift_jis_unit};
ghost use Rattle.enc_drivers.specs.Codes.ShiftJis.{shift_jis_bytes};
ghost use Rattle.enc_drivers.specs.Lookup.{Places, FindsScalars};
ghost use Rattle.enc_drivers.specs.Units.{IsCode, scalar_at};
ghost use Rattle.enc_drivers.specs.declared.unit.Item.TheVariants.{Malformed};
ghost use Rattle.enc_drivers.specs.declared.unit.Mode.{Mode};

use crate::code::{Bulk, Code, Step};
use crate::codes::pairs::{self, PairCode};
use crate::lookup::Lookup;
use crate::{Item, Mode};

#[cfg(test)]
mod tests;

/// The code of Shift_JIS over index jis0208.
#[derive(Drop)]
pub struct ShiftJis<'t, L: Lookup> {
    jis0208: &'t L,
}

impl<'t, L: Lookup> ShiftJis<'t, L> {
    /// The code. Places 8836 to 10715 are private use, and never looked up.
    pub fn new(jis0208: &'t L) -> ShiftJis<'t, L>
        ensures { ⟦<ShiftJis<'t, L> as Code>⟧.unit result ≡ shift_jis_unit (L.places jis0208.now) }
    {
        ShiftJis { jis0208 }
    }
}

impl<'t, L: Lookup> Code for ShiftJis<'t, L> {
    ghost use Rattle.enc_drivers.specs.Lemmas.ShiftJisLaw.{shift_jis_law};

    ghost unit = { λ code. shift_jis_unit (L.places code.jis0208.now) };

    #[inline(always)]
    fn step(&self, mode: Mode, front: &[u8], last: bool) -> Step {
        pairs::step(self, mode, front, last)
    }

    fn bulk(&self) -> Bulk {
        Bulk::Ascii
    }

    #[inline(always)]
    fn scalar(&self, bytes: &[u8]) -> Option<(char, usize)> {
        pairs::scalar(self, bytes)
    }

    #[inline(always)]
    fn entry(&self, first: u8, second: u8) -> u32 {
        pairs::entry(self, first, second)
    }

    ghost laws = { λ code. shift_jis_law (L.places code.jis0208.now) (L.scalars code.jis0208.now) };
}

impl<'t, L: Lookup> PairCode for ShiftJis<'t, L> {
    ghost pairs = { λ code. shift_jis_pairs (L.places code.jis0208.now) };

    fn is_lead(&self, byte: u8) -> bool {
        is_lead(byte)
    }

    fn alone(&self, byte: u8) -> Item {
        alone(byte)
    }

    #[inline(always)]
    fn both(&self, lead: u8, second: u8) -> Item {
        if !is_trail(second) {
            return Item::Malformed;
        }
        at(self.jis0208, place(lead, second))
    }

    #[inline(always)]
    fn pair_entry(&self, lead: u8, second: u8) -> u32 {
        if !is_trail(second) {
            return 0;
        }
        entry_at(self.jis0208, place(lead, second))
    }
}

fn is_lead(byte: u8) -> bool
    ensures { result ≡ is_shift_jis_lead byte }
{
    pairs::is_between(0x81, 0x9F, byte) || pairs::is_between(0xE0, 0xFC, byte)
}

fn is_trail(byte: u8) -> bool
    ensures { result ≡ is_shift_jis_trail byte }
{
    pairs::is_between(0x40, 0x7E, byte) || pairs::is_between(0x80, 0xFC, byte)
}

// What a byte stands for that is no lead.
#[tactic(auto, unfolding(crate::specs::Codes::ShiftJis::shift_jis_alone))]
fn alone(byte: u8) -> Item
    ensures { result ≡ shift_jis_alone byte }
{
    if byte <= 0x80 {
        return Item::One(char::from(byte));
    }
    if pairs::is_between(0xA1, 0xDF, byte) {
        return Item::One(char::from_u32(0xFF61 + u32::from(byte - 0xA1)).unwrap());
    }
    Item::Malformed
}

// Where a lead and a trail stand in the index.
fn place(lead: u8, trail: u8) -> u32
    requires lead { is_shift_jis_lead lead ≡ true }
    requires trail { is_shift_jis_trail trail ≡ true }
    ensures { result ≡ shift_jis_place lead trail }
{
    let lead_offset = if lead < 0xA0 { 0x81 } else { 0xC1 };
    let offset = if trail < 0x7F { 0x40 } else { 0x41 };
    u32::from(lead - lead_offset) * 188 + u32::from(trail - offset)
}

// The entry of what the index has at a place, or 0.
#[inline(always)]
#[tactic(auto, unfolding(crate::specs::Codes::ShiftJis::shift_jis_at))]
fn entry_at<L: Lookup>(jis0208: &L, place: u32) -> u32
    ensures { 0 < result → IsItemEntry (shift_jis_at (L.places jis0208.now) place) result }
{
    if 8836 <= place && place <= 10715 {
        return 0;
    }
    jis0208.entry(place)
}

// What stands at a place.
#[inline(always)]
#[tactic(auto, unfolding(crate::specs::Codes::ShiftJis::shift_jis_at))]
fn at<L: Lookup>(jis0208: &L, place: u32) -> Item
    ensures { result ≡ shift_jis_at (L.places jis0208.now) place }
{
    if 8836 <= place && place <= 10715 {
        return Item::One(char::from_u32(0xE000 + (place - 8836)).unwrap());
    }
    pairs::item_found(jis0208.at(place))
}

/// A unit of Shift_JIS has one to four bytes, its text at most three bytes for each, and the first
/// four bytes of a rest decide it, over an index of scalars.
pub fn is_code()
    ensures { (places : Places) → FindsScalars places → IsCode (shift_jis_unit places) }
{}

/// An ASCII byte is a unit of itself, whatever follows.
pub fn keeps_ascii()
    ensures { (places : Places) (mode : Mode) (byte : ℕ) (rest : List ℕ) → byte < 0x80 →
        shift_jis_unit places mode (byte ∷ rest) ≡ scalar_at mode byte 1 }
{}

/// What stands at a place is read from the two bytes of this place, and each lead and trail are the
/// bytes of their place.
pub fn places_have_bytes()
    ensures read_back { (places : Places) (mode : Mode) (place : ℕ) (rest : List ℕ) → place < 11280
        →
        let item = shift_jis_at places place in ¬ (item ≡ Malformed) →
        shift_jis_unit places mode (shift_jis_bytes place ++ rest)
        ≡ record { item = item; len = 2; next = mode } }
    ensures unique { (lead trail : ℕ) → is_shift_jis_lead lead ≡ true
        → is_shift_jis_trail trail ≡ true →
        shift_jis_bytes (shift_jis_place lead trail) ≡ lead ∷ trail ∷ [] }
{}
