//! Encodings of one byte a scalar with an index (Encoding Standard, sections 9.1, single-byte
//! decoder, and 9.2, single-byte encoder).
ghost use Rattle.std.specs.Prelude.{◌≡◌, ◌<◌, ◌≤◌, length, slice_index, take, IfSome, ℕ};
ghost use Rattle.enc_drivers.specs.Codes.SingleByte.{single_byte_item, single_byte_unit};
ghost use Rattle.enc_drivers.specs.Codes.SingleByte.{single_byte_bytes_of, TellsEach};
ghost use Rattle.enc_drivers.specs.Lookup.{HasNoAstral, Places, FindsScalars};
ghost use Rattle.enc_drivers.specs.Units.{IsCode};
ghost use Rattle.enc_drivers.specs.Encode.{IsAsciiCompatible, MapsNoAstral, ReadsBack};

use crate::code::{Bulk, Code, Step};
use crate::encode::{EncodeCode, Encoded};
use crate::lookup::Lookup;
use crate::steps::scalar_of;
use crate::{Item, Mode};

#[cfg(test)]
mod tests;

/// The code of an index: ASCII as it is, 80 to FF by the places of the index from 0 on.
#[derive(Drop)]
pub struct SingleByte<'t, L: Lookup> {
    index: &'t L,
    ghost no_astral: { HasNoAstral (L.places index.now) },
}

impl<'t, L: Lookup> SingleByte<'t, L> {
    /// The code of an index that has no scalar above U+FFFF.
    pub fn new(index: &'t L) -> SingleByte<'t, L>
        requires { HasNoAstral (L.places index.now) }
        ensures units { ⟦<SingleByte<'t, L> as Code>⟧.unit result
            ≡ single_byte_unit (L.places index.now) }
        ensures bytes { ⟦<SingleByte<'t, L> as EncodeCode>⟧.bytes result
            ≡ single_byte_bytes_of (L.places index.now) }
    {
        SingleByte { index }
    }
}

impl<'t, L: Lookup> Code for SingleByte<'t, L> {
    ghost use Rattle.enc_drivers.specs.Lemmas.SingleByteLaw.{single_byte_law};

    ghost unit = { λ code. single_byte_unit (L.places code.index.now) };

    #[inline(always)]
    fn step(&self, mode: Mode, front: &[u8], last: bool) -> Step {
        let _ = last;
        Step::Unit {
            item: item_of(self.index, front[0]),
            length: 1,
            next: mode,
        }
    }

    fn bulk(&self) -> Bulk {
        Bulk::Ascii
    }

    #[inline(always)]
    fn scalar(&self, bytes: &[u8]) -> Option<(char, usize)> {
        scalar_of(item_of(self.index, bytes[0]), 1)
    }

    #[inline(always)]
    fn block(&self, bytes: &[u8]) -> Option<[u32; 8]> {
        let entries = self.index.byte_entries()?;
        block_of(entries, bytes)
    }

    ghost laws = { λ code. single_byte_law (L.places code.index.now) (L.scalars code.index.now)
        code.no_astral };
}

// The entries of the first eight bytes, where each has one.
#[inline(always)]
fn block_of(entries: &[u32; 256], bytes: &[u8]) -> Option<[u32; 8]>
    requires { 8 ≤ length bytes.now }
    ensures { IfSome result (λ block. TellsEach entries.now (take 8 bytes.now) block) }
{
    let first = entry_of(entries, bytes[0])?;
    let second = entry_of(entries, bytes[1])?;
    let third = entry_of(entries, bytes[2])?;
    let fourth = entry_of(entries, bytes[3])?;
    let fifth = entry_of(entries, bytes[4])?;
    let sixth = entry_of(entries, bytes[5])?;
    let seventh = entry_of(entries, bytes[6])?;
    let eighth = entry_of(entries, bytes[7])?;
    Some([first, second, third, fourth, fifth, sixth, seventh, eighth])
}

// The entry of a byte, if it has one.
#[inline(always)]
fn entry_of(entries: &[u32; 256], byte: u8) -> Option<u32>
    ensures { IfSome result (λ entry. (0 < entry) × (entry ≡ slice_index entries.now byte)) }
{
    let entry = entries[usize::from(byte)];
    if entry == 0 { None } else { Some(entry) }
}

// What a byte stands for.
#[inline(always)]
#[tactic(auto, unfolding(crate::specs::Codes::SingleByte::single_byte_item))]
fn item_of<L: Lookup>(index: &L, byte: u8) -> Item
    ensures { result ≡ single_byte_item (L.places index.now) byte }
{
    if byte < 0x80 {
        return Item::One(char::from(byte));
    }
    match index.at(u32::from(byte - 0x80)) {
        Some(scalar) => Item::One(scalar),
        None => Item::Malformed,
    }
}

impl<'t, L: Lookup> EncodeCode for SingleByte<'t, L> {
    ghost use Rattle.enc_drivers.specs.Codes.SingleByte.{single_byte_bytes_of};
    ghost use Rattle.enc_drivers.specs.Lemmas.EncoderLaws.{single_byte_encoder};

    ghost bytes = { λ code. single_byte_bytes_of (L.places code.index.now) };

    ghost max = { 1 };

    #[inline(always)]
    fn max(&self) -> usize {
        1
    }

    #[inline(always)]
    #[tactic(auto, unfolding(crate::specs::Codes::SingleByte::single_byte_bytes_of))]
    fn bytes_of(&self, scalar: char) -> Option<Encoded> {
        let code = u32::from(scalar);
        if code < 0x80 {
            return Some(Encoded::one(code as u8));
        }
        let place = self.index.place_of(scalar, 128)?;
        Some(Encoded::one((place + 0x80) as u8))
    }

    ghost laws = { λ code. single_byte_encoder (L.places code.index.now) };
}

/// A unit has one to four bytes, its text at most three bytes for each, and the first four bytes of
/// a rest decide it, over an index of scalars up to U+FFFF.
pub fn is_code()
    ensures { (places : Places) → FindsScalars places → HasNoAstral places
        → IsCode (single_byte_unit places) }
{}

/// What the encoder writes of a scalar is read as that scalar, whatever follows.
pub fn scalars_read_back()
    ensures { (places : Places) (scalar : ℕ) →
        ReadsBack (single_byte_unit places) (single_byte_bytes_of places) scalar }
{}

/// An ASCII scalar has itself as its one byte.
pub fn encoder_keeps_ascii()
    ensures { (places : Places) → IsAsciiCompatible (single_byte_bytes_of places) }
{}

/// No scalar above U+FFFF has bytes, where the index has none.
pub fn encoder_without_astral()
    ensures { (places : Places) → HasNoAstral places →
        MapsNoAstral (single_byte_bytes_of places) }
{}
