//! ISO-2022-JP (Encoding Standard, section 12.2.1, ISO-2022-JP decoder).

ghost use Rattle.std.specs.Prelude.{◌≡◌, ◌<◌, ◌≤◌, ◌==◌, ◌||◌, length, slice_index, true, ℕ, List};
ghost use Rattle.std.specs.Prelude.{◌++◌};
ghost use Rattle.enc_drivers.specs.declared.code.Step.TheVariants as step;
ghost use Rattle.enc_drivers.specs.Steps.{Steps};
ghost use Rattle.enc_drivers.specs.Codes.Iso2022Jp.{set_of, escape_item, escape_set, escaped};
ghost use Rattle.enc_drivers.specs.Codes.Iso2022Jp.{ascii_scalar, roman_scalar, katakana_scalar};
ghost use Rattle.enc_drivers.specs.Codes.Iso2022Jp.{single_scalar, in_jis_row, is_jis_lead};
ghost use Rattle.enc_drivers.specs.Codes.Iso2022Jp.{iso_2022_jp_unit, iso_2022_jp_bytes};
ghost use Rattle.enc_drivers.specs.Codes.Iso2022Jp.{IsPlain};
ghost use Rattle.enc_drivers.specs.Lookup.{Places, FindsScalars};
ghost use Rattle.enc_drivers.specs.Units.{IsCode, scalar_at};
ghost use Rattle.enc_drivers.specs.declared.unit.JisSet.{JisSet};
ghost use Rattle.enc_drivers.specs.declared.unit.Mode.{Mode};

use crate::code::{Code, Step};
use crate::codes::sequence::{one, whole};
use crate::lookup::Lookup;
use crate::steps::{cut, malformed};
use crate::{Item, JisSet, Mode};

#[cfg(test)]
mod tests;

/// The code of ISO-2022-JP over the index jis0208. It has modes.
#[derive(Drop)]
pub struct Iso2022Jp<'t, L: Lookup> {
    jis0208: &'t L,
}

impl<'t, L: Lookup> Iso2022Jp<'t, L> {
    /// The code over an index.
    pub fn new(jis0208: &'t L) -> Iso2022Jp<'t, L>
        ensures { ⟦<Iso2022Jp<'t, L> as Code>⟧.unit result
            ≡ iso_2022_jp_unit (L.places jis0208.now) }
    {
        Iso2022Jp { jis0208 }
    }

    // What a front tells that begins with 1B.
    #[inline(always)]
    fn escape_step(&self, mode: Mode, front: &[u8], last: bool) -> Step
        requires some { 0 < length front.now }
        requires escape { slice_index front.now 0 ≡ 0x1B }
        ensures { Steps (iso_2022_jp_unit (L.places self.now.jis0208.now)) mode front.now last
            result }
    {
        if front.len() < 2 {
            return cut(Mode::Within(set_of(mode)), 1, last);
        }
        if front.len() >= 3 {
            return escaped(mode, escape_set(front[1], front[2]));
        }
        if begins_name(front[1]) {
            return cut(Mode::Within(set_of(mode)), 1, last);
        }
        malformed(Mode::Within(set_of(mode)), 1)
    }
}

impl<'t, L: Lookup> Code for Iso2022Jp<'t, L> {
    ghost use Rattle.enc_drivers.specs.Lemmas.Iso2022JpLaw.{iso_2022_jp_law};

    ghost unit = { λ code. iso_2022_jp_unit (L.places code.jis0208.now) };

    #[inline(always)]
    fn step(&self, mode: Mode, front: &[u8], last: bool) -> Step {
        let first = front[0];
        if is_plain(mode, first) {
            return one(mode, char::from(first), 1);
        }
        if first == 0x1B {
            return self.escape_step(mode, front, last);
        }
        let set = set_of(mode);
        let next = Mode::Within(set);
        if !is_lead(set, first) {
            return whole(next, single_scalar(set, first), 1);
        }
        if front.len() < 2 {
            return cut(next, 1, last);
        }
        let second = front[1];
        if second == 0x1B {
            return malformed(next, 1);
        }
        if !is_in_row(second) {
            return malformed(next, 2);
        }
        let place = u32::from(first - 0x21) * 94 + u32::from(second - 0x21);
        whole(next, self.jis0208.at(place), 2)
    }

    ghost laws = { λ code. iso_2022_jp_law (L.places code.jis0208.now)
        (L.scalars code.jis0208.now) };
}

// Whether ASCII is the set, and a byte is itself there and no control: most bytes of mail.
#[inline(always)]
fn is_plain(mode: Mode, byte: u8) -> bool
    ensures { result ≡ true → IsPlain mode byte }
{
    if let Mode::Within(JisSet::Ascii) = mode {
        return 0x20 <= byte && byte < 0x80;
    }
    false
}

// The set that a mode is in.
fn set_of(mode: Mode) -> JisSet
    ensures { result ≡ set_of mode }
{
    match mode {
        Mode::Plain => JisSet::Ascii,
        Mode::Within(set) | Mode::AfterEscape(set) => set,
    }
}

// The set that the two bytes behind 1B name.
#[tactic(auto, unfolding(crate::specs::Codes::Iso2022Jp::escape_set))]
fn escape_set(second: u8, third: u8) -> Option<JisSet>
    ensures { result ≡ escape_set second third }
{
    if second == 0x28 && third == 0x42 {
        Some(JisSet::Ascii)
    } else if second == 0x28 && third == 0x4A {
        Some(JisSet::Roman)
    } else if second == 0x28 && third == 0x49 {
        Some(JisSet::Katakana)
    } else if second == 0x24 && (third == 0x40 || third == 0x42) {
        Some(JisSet::Jis0208)
    } else {
        None
    }
}

// Whether a byte behind 1B may begin the name of a set.
fn begins_name(second: u8) -> bool
    ensures { result ≡ (second == 0x24 || second == 0x28) }
{
    second == 0x24 || second == 0x28
}

// The unit of 1B, with the set that the bytes behind it name.
fn escaped(mode: Mode, set: Option<JisSet>) -> Step
    ensures { let u = escaped mode set in result ≡ step.Unit u.item u.len u.next }
{
    match set {
        Some(set) => Step::Unit {
            item: escape_item(mode),
            length: 3,
            next: Mode::AfterEscape(set),
        },
        None => malformed(Mode::Within(set_of(mode)), 1),
    }
}

// What an escape sequence stands for.
fn escape_item(mode: Mode) -> Item
    ensures { result ≡ escape_item mode }
{
    match mode {
        Mode::AfterEscape(_) => Item::Malformed,
        Mode::Plain | Mode::Within(_) => Item::Silent,
    }
}

// The scalar of one byte in a set whose characters have one.
#[inline(always)]
fn single_scalar(set: JisSet, byte: u8) -> Option<char>
    ensures { result ≡ single_scalar set byte }
{
    match set {
        JisSet::Ascii => ascii_scalar(byte),
        JisSet::Roman => roman_scalar(byte),
        JisSet::Katakana => katakana_scalar(byte),
        JisSet::Jis0208 => None,
    }
}

#[tactic(auto, unfolding(crate::specs::Codes::Iso2022Jp::ascii_scalar))]
fn ascii_scalar(byte: u8) -> Option<char>
    ensures { result ≡ ascii_scalar byte }
{
    if byte == 0x0E || byte == 0x0F || byte == 0x1B || byte >= 0x80 {
        return None;
    }
    Some(char::from(byte))
}

#[tactic(auto, unfolding(crate::specs::Codes::Iso2022Jp::roman_scalar))]
fn roman_scalar(byte: u8) -> Option<char>
    ensures { result ≡ roman_scalar byte }
{
    if byte == 0x5C {
        Some('\u{A5}')
    } else if byte == 0x7E {
        Some('\u{203E}')
    } else {
        ascii_scalar(byte)
    }
}

#[tactic(auto, unfolding(crate::specs::Codes::Iso2022Jp::katakana_scalar))]
fn katakana_scalar(byte: u8) -> Option<char>
    ensures { result ≡ katakana_scalar byte }
{
    if byte < 0x21 || 0x5F < byte {
        return None;
    }
    Some(char::from_u32(0xFF61 + u32::from(byte - 0x21)).unwrap())
}

// Whether a byte begins a scalar of two bytes.
fn is_lead(set: JisSet, byte: u8) -> bool
    ensures { result ≡ is_jis_lead set byte }
{
    match set {
        JisSet::Jis0208 => is_in_row(byte),
        JisSet::Ascii | JisSet::Roman | JisSet::Katakana => false,
    }
}

// Whether a byte is one of a scalar's in jis0208.
fn is_in_row(byte: u8) -> bool
    ensures { result ≡ in_jis_row byte }
{
    0x21 <= byte && byte <= 0x7E
}

/// A unit of ISO-2022-JP has in each mode one to four bytes, its text at most three bytes for each,
/// and the first four bytes of a rest decide it, over an index.
pub fn is_code()
    ensures { (jis0208 : Places) → FindsScalars jis0208 → IsCode (iso_2022_jp_unit jis0208) }
{}

/// What stands at a place is read from the two bytes of this place in a mode of jis0208, and the
/// mode behind a unit is never `Plain`.
pub fn places_have_bytes()
    ensures read_back { (jis0208 : Places) (mode : Mode) (place scalar : ℕ) (rest : List ℕ)
        → place < 8836 →
        set_of mode ≡ JisSet.Jis0208 → jis0208 place ≡ Some scalar →
        iso_2022_jp_unit jis0208 mode (iso_2022_jp_bytes place ++ rest)
        ≡ scalar_at (Mode.Within JisSet.Jis0208) scalar 2 }
    ensures next { (jis0208 : Places) (mode : Mode) (rest : List ℕ) →
        ¬ ((iso_2022_jp_unit jis0208 mode rest).next ≡ Mode.Plain) }
{}
