//! Big5 (Encoding Standard, section 11.1.1, Big5 decoder).

ghost use Rattle.std.specs.Prelude.{◌≡◌, ◌<◌, ◌≤◌, ◌||◌, true, ℕ, List, [], ◌∷◌, ◌++◌};
ghost use Rattle.enc_drivers.specs.Bulk.{IsItemEntry};
ghost use Rattle.enc_drivers.specs.Codes.Big5.{is_big5_lead, is_big5_trail, big5_place, big5_at};
ghost use Rattle.enc_drivers.specs.Codes.Big5.{big5_pairs, big5_unit, big5_bytes};
ghost use Rattle.enc_drivers.specs.Lookup.{Places, FindsScalars};
ghost use Rattle.enc_drivers.specs.Units.{IsCode, scalar_at};
ghost use Rattle.enc_drivers.specs.declared.unit.Item.TheVariants.{Malformed};
ghost use Rattle.enc_drivers.specs.declared.unit.Mode.{Mode};

use crate::code::{Bulk, Code, Step};
use crate::codes::pairs::{self, PairCode};
use crate::lookup::Lookup;
use crate::{Item, Mode};

#[cfg(test)]
mod tests;

/// The code of Big5 over its index.
#[derive(Drop)]
pub struct Big5<'t, L: Lookup> {
    index: &'t L,
}

impl<'t, L: Lookup> Big5<'t, L> {
    /// The code. The four places that stand for two scalars (1133, 1135, 1164 and 1166) are never
    /// looked up.
    pub fn new(index: &'t L) -> Big5<'t, L>
        ensures { ⟦<Big5<'t, L> as Code>⟧.unit result ≡ big5_unit (L.places index.now) }
    {
        Big5 { index }
    }
}

impl<'t, L: Lookup> Code for Big5<'t, L> {
    ghost use Rattle.enc_drivers.specs.Lemmas.Big5Law.{big5_law};

    ghost unit = { λ code. big5_unit (L.places code.index.now) };

    #[inline(always)]
    fn step(&self, mode: Mode, front: &[u8], last: bool) -> Step {
        pairs::step(self, mode, front, last)
    }

    fn bulk(&self) -> Bulk {
        Bulk::Ascii
    }

    #[inline(always)]
    fn scalar(&self, bytes: &[u8]) -> Option<(char, usize)> {
        pairs::scalar(self, bytes)
    }

    #[inline(always)]
    fn entry(&self, first: u8, second: u8) -> u32 {
        pairs::entry(self, first, second)
    }

    ghost laws = { λ code. big5_law (L.places code.index.now) (L.scalars code.index.now) };
}

impl<'t, L: Lookup> PairCode for Big5<'t, L> {
    ghost pairs = { λ code. big5_pairs (L.places code.index.now) };

    fn is_lead(&self, byte: u8) -> bool {
        pairs::is_between(0x81, 0xFE, byte)
    }

    fn alone(&self, byte: u8) -> Item {
        pairs::ascii_alone(byte)
    }

    #[inline(always)]
    fn both(&self, lead: u8, second: u8) -> Item {
        if !is_trail(second) {
            return Item::Malformed;
        }
        at(self.index, place(lead, second))
    }

    #[inline(always)]
    fn pair_entry(&self, lead: u8, second: u8) -> u32 {
        if !is_trail(second) {
            return 0;
        }
        entry_at(self.index, place(lead, second))
    }
}

fn is_trail(byte: u8) -> bool
    ensures { result ≡ is_big5_trail byte }
{
    pairs::is_between(0x40, 0x7E, byte) || pairs::is_between(0xA1, 0xFE, byte)
}

// Where a lead and a trail stand in the index.
fn place(lead: u8, trail: u8) -> u32
    requires lead { is_big5_lead lead ≡ true }
    requires trail { is_big5_trail trail ≡ true }
    ensures { result ≡ big5_place lead trail }
{
    let offset = if trail < 0x7F { 0x40 } else { 0x62 };
    u32::from(lead - 0x81) * 157 + u32::from(trail - offset)
}

// The entry of what the index has at a place, or 0.
#[inline(always)]
#[tactic(auto, unfolding(crate::specs::Codes::Big5::big5_at))]
fn entry_at<L: Lookup>(index: &L, place: u32) -> u32
    ensures { 0 < result → IsItemEntry (big5_at (L.places index.now) place) result }
{
    if 1133 <= place && place <= 1166 {
        return 0;
    }
    index.entry(place)
}

// What stands at a place.
#[inline(always)]
#[tactic(auto, unfolding(crate::specs::Codes::Big5::big5_at))]
fn at<L: Lookup>(index: &L, place: u32) -> Item
    ensures { result ≡ big5_at (L.places index.now) place }
{
    match place {
        1133 => Item::Two('\u{CA}', '\u{304}'),
        1135 => Item::Two('\u{CA}', '\u{30C}'),
        1164 => Item::Two('\u{EA}', '\u{304}'),
        1166 => Item::Two('\u{EA}', '\u{30C}'),
        _ => pairs::item_found(index.at(place)),
    }
}

/// A unit of Big5 has one to four bytes, its text at most three bytes for each, and the first four
/// bytes of a rest decide it, over an index of scalars.
pub fn is_code()
    ensures { (places : Places) → FindsScalars places → IsCode (big5_unit places) }
{}

/// An ASCII byte is a unit of itself, whatever follows.
pub fn keeps_ascii()
    ensures { (places : Places) (mode : Mode) (byte : ℕ) (rest : List ℕ) → byte < 0x80 →
        big5_unit places mode (byte ∷ rest) ≡ scalar_at mode byte 1 }
{}

/// What stands at a place is read from the two bytes of this place, and each lead and trail are the
/// bytes of their place.
pub fn places_have_bytes()
    ensures read_back { (places : Places) (mode : Mode) (place : ℕ) (rest : List ℕ) → place < 19782
        →
        let item = big5_at places place in ¬ (item ≡ Malformed) →
        big5_unit places mode (big5_bytes place ++ rest)
        ≡ record { item = item; len = 2; next = mode } }
    ensures unique { (lead trail : ℕ) → is_big5_lead lead ≡ true → is_big5_trail trail ≡ true →
        big5_bytes (big5_place lead trail) ≡ lead ∷ trail ∷ [] }
{}
