//! gb18030, and GBK, which decodes alike (Encoding Standard, sections 10.2.1, gb18030 decoder, and
//! 10.2.2, gb18030 encoder).
ghost use Rattle.std.specs.Prelude.{◌≡◌, ◌<◌, ◌≤◌, true, length, slice_index, ℕ, Bool, List, ◌++◌};
ghost use Rattle.enc_drivers.specs.Lookup.{IsEntryOf, Places, FindsScalars};
ghost use Rattle.enc_drivers.specs.Steps.{Steps};
ghost use Rattle.enc_drivers.specs.Codes.Gb18030.{is_gb18030_lead, is_gb18030_digit};
ghost use Rattle.enc_drivers.specs.Codes.Gb18030.{is_gb18030_trail, gb18030_scalar, ranges_place};
ghost use Rattle.enc_drivers.specs.Codes.Gb18030.{gb18030_unit, gb18030_bytes_of, gb18030_bytes};
ghost use Rattle.enc_drivers.specs.Codes.Gb18030.{ranges_bytes};
ghost use Rattle.enc_drivers.specs.Units.{IsCode, scalar_at};
ghost use Rattle.enc_drivers.specs.Encode.{IsAsciiCompatible, ReadsBack};
ghost use Rattle.enc_drivers.specs.declared.unit.Mode.{Mode};

use crate::Mode;
use crate::code::{Bulk, Code, Step};
use crate::codes::sequence::{one, sequence, whole};
use crate::encode::{EncodeCode, Encoded};
use crate::lookup::Lookup;
use crate::steps::{cut, malformed};

#[cfg(test)]
mod tests;

/// The code of gb18030 or of GBK, over the index gb18030 and its ranges.
#[derive(Drop)]
pub struct Gb18030<'t, L: Lookup, R: Lookup> {
    index: &'t L,
    ranges: &'t R,
    gbk: bool,
}

impl<'t, L: Lookup, R: Lookup> Gb18030<'t, L, R> {
    /// The code over an index for sequences of two bytes and the range lookup for sequences of
    /// four, whose places are 0 to 1587599. With `gbk` it encodes as GBK; both decode alike.
    pub fn new(index: &'t L, ranges: &'t R, gbk: bool) -> Gb18030<'t, L, R>
        ensures units { ⟦<Gb18030<'t, L, R> as Code>⟧.unit result
            ≡ gb18030_unit (L.places index.now) (R.places ranges.now) }
        ensures bytes { ⟦<Gb18030<'t, L, R> as EncodeCode>⟧.bytes result
            ≡ gb18030_bytes_of gbk (L.places index.now) (R.places ranges.now) }
    {
        Gb18030 { index, ranges, gbk }
    }

    // What a front tells that begins with the first two bytes of a sequence of four.
    fn four_byte_step(&self, mode: Mode, front: &[u8], last: bool) -> Step
        requires two { 2 ≤ length front.now }
        requires lead { is_gb18030_lead (slice_index front.now 0) ≡ true }
        requires digit { is_gb18030_digit (slice_index front.now 1) ≡ true }
        ensures { Steps (gb18030_unit (L.places self.now.index.now) (R.places self.now.ranges.now))
            mode front.now last result }
    {
        if front.len() < 3 {
            return cut(mode, 2, last);
        }
        if !is_lead(front[2]) {
            return malformed(mode, 1); // the second byte is read again, and the third
        }
        if front.len() < 4 {
            return cut(mode, 3, last);
        }
        if !is_digit(front[3]) {
            return malformed(mode, 1); // the same, and the fourth
        }
        let place = ranges_place(front[0], front[1], front[2], front[3]);
        whole(mode, self.ranges.at(place), 4)
    }
}

impl<'t, L: Lookup, R: Lookup> Code for Gb18030<'t, L, R> {
    ghost use Rattle.enc_drivers.specs.Lemmas.Gb18030Law.{gb18030_law};

    ghost unit = { λ code. gb18030_unit (L.places code.index.now) (R.places code.ranges.now) };

    #[inline(always)]
    fn step(&self, mode: Mode, front: &[u8], last: bool) -> Step {
        let first = front[0];
        if first < 0x80 {
            return one(mode, char::from(first), 1);
        }
        if first == 0x80 {
            return one(mode, '\u{20AC}', 1);
        }
        if !is_lead(first) {
            return malformed(mode, 1);
        }
        if front.len() < 2 {
            return cut(mode, 1, last);
        }
        let second = front[1];
        if is_digit(second) {
            return self.four_byte_step(mode, front, last);
        }
        sequence(mode, two_byte_scalar(self.index, first, second), 2, second)
    }

    fn bulk(&self) -> Bulk {
        Bulk::Ascii
    }

    #[inline(always)]
    fn entry(&self, first: u8, second: u8) -> u32 {
        if !is_lead(first) {
            return 0;
        }
        if is_digit(second) {
            return 0;
        }
        two_byte_entry(self.index, first, second)
    }

    // Of one and two bytes.
    #[inline(always)]
    fn scalar(&self, bytes: &[u8]) -> Option<(char, usize)> {
        let first = bytes[0];
        if first < 0x80 {
            return Some((char::from(first), 1));
        }
        if !is_lead(first) {
            return None;
        }
        if bytes.len() < 2 {
            return None;
        }
        let second = bytes[1];
        if is_digit(second) {
            return None;
        }
        match two_byte_scalar(self.index, first, second) {
            Some(scalar) => Some((scalar, 2)),
            None => None,
        }
    }

    ghost laws = { λ code. gb18030_law (L.places code.index.now) (R.places code.ranges.now)
        (L.scalars code.index.now) (R.scalars code.ranges.now) };
}

// Whether a byte stands first of two or four, or third of four.
fn is_lead(byte: u8) -> bool
    ensures { result ≡ is_gb18030_lead byte }
{
    0x81 <= byte && byte <= 0xFE
}

// Whether a byte stands second or fourth of four.
fn is_digit(byte: u8) -> bool
    ensures { result ≡ is_gb18030_digit byte }
{
    0x30 <= byte && byte <= 0x39
}

// Whether a byte stands second of two.
fn is_trail(byte: u8) -> bool
    ensures { result ≡ is_gb18030_trail byte }
{
    0x40 <= byte && byte <= 0x7E || 0x80 <= byte && byte <= 0xFE
}

// The scalar of a sequence of two bytes.
#[inline(always)]
#[tactic(auto, unfolding(crate::specs::Codes::Gb18030::gb18030_scalar))]
fn two_byte_scalar<L: Lookup>(index: &L, first: u8, second: u8) -> Option<char>
    requires { 0x81 ≤ first }
    ensures { result ≡ gb18030_scalar (L.places index.now) first second }
{
    if !is_trail(second) {
        return None;
    }
    let offset = if second < 0x7F { 0x40 } else { 0x41 };
    index.at(u32::from(first - 0x81) * 190 + u32::from(second - offset))
}

// The entry of the scalar of a sequence of two bytes, or 0.
#[inline(always)]
#[tactic(auto, unfolding(crate::specs::Codes::Gb18030::gb18030_scalar))]
fn two_byte_entry<L: Lookup>(index: &L, first: u8, second: u8) -> u32
    requires { 0x81 ≤ first }
    ensures { 0 < result → IsEntryOf (gb18030_scalar (L.places index.now) first second) result }
{
    if !is_trail(second) {
        return 0;
    }
    let offset = if second < 0x7F { 0x40 } else { 0x41 };
    index.entry(u32::from(first - 0x81) * 190 + u32::from(second - offset))
}

// The place of a sequence of four bytes for the range lookup.
#[tactic(auto, unfolding(crate::specs::Codes::Gb18030::ranges_place))]
fn ranges_place(first: u8, second: u8, third: u8, fourth: u8) -> u32
    requires first { is_gb18030_lead first ≡ true }
    requires second { is_gb18030_digit second ≡ true }
    requires third { is_gb18030_lead third ≡ true }
    requires fourth { is_gb18030_digit fourth ≡ true }
    ensures { result ≡ ranges_place first second third fourth }
{
    let high = u32::from(first - 0x81) * 12600 + u32::from(second - 0x30) * 1260;
    high + u32::from(third - 0x81) * 10 + u32::from(fourth - 0x30)
}

impl<'t, L: Lookup, R: Lookup> EncodeCode for Gb18030<'t, L, R> {
    ghost use Rattle.enc_drivers.specs.Codes.Gb18030.{gb18030_bytes_of};
    ghost use Rattle.enc_drivers.specs.Lemmas.EncoderLaws.{gb18030_encoder};

    ghost bytes = { λ code. gb18030_bytes_of code.gbk (L.places code.index.now)
        (R.places code.ranges.now) };

    ghost max = { 4 };

    #[inline(always)]
    fn max(&self) -> usize {
        4
    }

    #[inline(always)]
    #[tactic(auto, unfolding(crate::specs::Codes::Gb18030::gb18030_bytes_of))]
    fn bytes_of(&self, scalar: char) -> Option<Encoded> {
        let code = u32::from(scalar);
        if code < 0x80 {
            return Some(Encoded::one(code as u8));
        }
        if code == 0xE5E5 {
            return None;
        }
        if self.gbk && code == 0x20AC {
            return Some(Encoded::one(0x80));
        }
        if let Some(place) = self.index.place_of(scalar, 23940) {
            return Some(two_bytes(place));
        }
        if self.gbk {
            return None;
        }
        let place = self.ranges.place_of(scalar, 1237576)?;
        Some(four_bytes(place))
    }

    ghost laws = { λ code. gb18030_encoder code.gbk (L.places code.index.now)
        (R.places code.ranges.now) };
}

// The two bytes of a place of the index.
#[inline(always)]
fn two_bytes(place: u32) -> Encoded
    requires { place < 23940 }
    ensures { result ≡ gb18030_bytes place }
{
    let trail = place % 190;
    let offset = if trail < 0x3F { 0x40 } else { 0x41 };
    Encoded::two((place / 190 + 0x81) as u8, (trail + offset) as u8)
}

// The four bytes of a place of the ranges.
#[inline(always)]
fn four_bytes(place: u32) -> Encoded
    requires { place < 1237576 }
    ensures { result ≡ ranges_bytes place }
{
    Encoded::four(
        (place / 12600 + 0x81) as u8,
        (place % 12600 / 1260 + 0x30) as u8,
        (place % 1260 / 10 + 0x81) as u8,
        (place % 10 + 0x30) as u8,
    )
}

/// A unit of gb18030 or GBK has one to four bytes, its text at most three bytes for each, and the
/// first four bytes of a rest decide it, over an index and ranges.
pub fn is_code()
    ensures { (index ranges : Places) → FindsScalars index → FindsScalars ranges
        → IsCode (gb18030_unit index ranges) }
{}

/// What stands at a place of the index is read from the two bytes of this place, and what stands at
/// a place of the ranges from its four.
pub fn places_have_bytes()
    ensures read_back { (index ranges : Places) (mode : Mode) (place scalar : ℕ) (rest : List ℕ)
        → place < 23940 →
        index place ≡ Some scalar →
        gb18030_unit index ranges mode (gb18030_bytes place ++ rest) ≡ scalar_at mode scalar 2 }
    ensures read_back_of_four { (index ranges : Places) (mode : Mode) (place scalar : ℕ)
        (rest : List ℕ) → place < 1587600 →
        ranges place ≡ Some scalar →
        gb18030_unit index ranges mode (ranges_bytes place ++ rest) ≡ scalar_at mode scalar 4 }
{}

/// What either encoder writes of a scalar is read as that scalar, whatever follows.
pub fn scalars_read_back()
    ensures { (gbk : Bool) (index ranges : Places) (scalar : ℕ) →
        ReadsBack (gb18030_unit index ranges) (gb18030_bytes_of gbk index ranges) scalar }
{}

/// An ASCII scalar has itself as its one byte.
pub fn encoder_keeps_ascii()
    ensures { (gbk : Bool) (index ranges : Places) →
        IsAsciiCompatible (gb18030_bytes_of gbk index ranges) }
{}
