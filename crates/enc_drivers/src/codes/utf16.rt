//! UTF-16 in either byte order (Encoding Standard, section 14.2.1, shared UTF-16 decoder). Text for
//! it is written as UTF-8 (section 4.3, "get an output encoding").
ghost use Rattle.std.specs.Prelude.{◌≡◌, ◌<◌, ◌≤◌, true, false, length, ℕ, Bool, List, ◌++◌};
ghost use Rattle.enc_handles.specs.Utf16.{code_unit, is_lead, is_trail, pair_scalar};
ghost use Rattle.enc_drivers.specs.Steps.{Steps};
ghost use Rattle.enc_drivers.specs.Codes.Utf16.{single_unit, utf16_unit, scalar_bytes};
ghost use Rattle.enc_drivers.specs.Codes.Utf8.{utf8_bytes_of};
ghost use Rattle.enc_drivers.specs.declared.code.Step.TheVariants as step;
ghost use Rattle.std.specs.Char.{IsScalar};
ghost use Rattle.enc_drivers.specs.Units.{IsCode, scalar_at};
ghost use Rattle.enc_drivers.specs.declared.unit.Mode.{Mode};

use crate::code::{Bulk, Code, Step};
use crate::codes::utf8::utf8_of;
use crate::encode::{EncodeCode, Encoded};
use crate::steps::{cut, malformed};
use crate::{Item, Mode};
use enc_handles::endian::Endian;
use enc_handles::utf16::{is_lead, is_trail, pair_scalar};
use std::marker::PhantomData;

#[cfg(test)]
mod tests;

/// The code of UTF-16 in a byte order.
#[derive(Drop)]
pub struct Utf16Code<E: Endian> {
    order: PhantomData<E>,
}

impl<E: Endian> Utf16Code<E> {
    /// The code.
    pub fn new() -> Utf16Code<E>
        ensures units { ⟦<Utf16Code<E> as Code>⟧.unit result ≡ utf16_unit E.OPPOSITE_ENDIAN }
        ensures bytes { ⟦<Utf16Code<E> as EncodeCode>⟧.bytes result ≡ utf8_bytes_of }
    {
        Utf16Code { order: PhantomData }
    }
}

impl<E: Endian> Code for Utf16Code<E> {
    ghost use Rattle.enc_drivers.specs.Lemmas.Utf16Law.{utf16_law};

    ghost unit = { λ code. utf16_unit E.OPPOSITE_ENDIAN };

    #[inline(always)]
    fn step(&self, mode: Mode, front: &[u8], last: bool) -> Step {
        step(E::OPPOSITE_ENDIAN, mode, front, last)
    }

    fn bulk(&self) -> Bulk {
        if E::OPPOSITE_ENDIAN {
            return Bulk::Utf16Be;
        }
        Bulk::Utf16Le
    }

    ghost laws = { λ code. utf16_law E.OPPOSITE_ENDIAN };
}

// What the front tells, big-endian where `big`.
#[inline(always)]
fn step(big: bool, mode: Mode, front: &[u8], last: bool) -> Step
    requires some { 0 < length front.now }
    requires few { length front.now ≤ 4 }
    ensures { Steps (utf16_unit big) mode front.now last result }
{
    if front.len() < 2 {
        return cut(mode, 1, last);
    }
    let first = code_unit(big, front[0], front[1]);
    if !is_lead(first) {
        return single(mode, first);
    }
    if front.len() < 4 {
        return cut(mode, front.len() as u8, last);
    }
    let second = code_unit(big, front[2], front[3]);
    if !is_trail(second) {
        return malformed(mode, 2);
    }
    Step::Unit {
        item: Item::One(pair_scalar(first, second)),
        length: 4,
        next: mode,
    }
}

// A code unit that is no lead: a scalar, or a trail without a lead.
fn single(mode: Mode, unit: u16) -> Step
    requires { is_lead unit ≡ false }
    ensures { let u = single_unit mode unit in result ≡ step.Unit u.item u.len u.next }
{
    if is_trail(unit) {
        return malformed(mode, 2);
    }
    Step::Unit {
        item: Item::One(char::from_u32(u32::from(unit)).unwrap()),
        length: 2,
        next: mode,
    }
}

// The code unit of two bytes.
fn code_unit(big: bool, first: u8, second: u8) -> u16
    ensures { result ≡ code_unit big first second }
{
    if big {
        u16::from(first) * 0x100 + u16::from(second)
    } else {
        u16::from(second) * 0x100 + u16::from(first)
    }
}

impl<E: Endian> EncodeCode for Utf16Code<E> {
    ghost use Rattle.enc_drivers.specs.Codes.Utf8.{utf8_bytes_of};
    ghost use Rattle.enc_drivers.specs.Lemmas.EncoderLaws.{utf8_encoder};

    ghost bytes = { λ code. utf8_bytes_of };

    ghost max = { 4 };

    #[inline(always)]
    fn max(&self) -> usize {
        4
    }

    #[inline(always)]
    #[tactic(auto, unfolding(crate::specs::Codes::Utf8::utf8_bytes_of))]
    fn bytes_of(&self, scalar: char) -> Option<Encoded> {
        Some(utf8_of(scalar))
    }

    ghost laws = { λ code. utf8_encoder };
}

/// A unit of UTF-16BE has one to four bytes, its text at most three bytes for each, and the first
/// four bytes of a rest decide it.
pub fn big_endian_is_code()
    ensures { IsCode (utf16_unit true) }
{}

/// The same of UTF-16LE.
pub fn little_endian_is_code()
    ensures { IsCode (utf16_unit false) }
{}

/// What UTF-16, of either byte order, writes of a scalar is read as that scalar, whatever follows.
pub fn sequences_of_scalars()
    ensures { (big : Bool) (mode : Mode) (scalar : ℕ) (rest : List ℕ) → IsScalar scalar →
        utf16_unit big mode (scalar_bytes big scalar ++ rest)
        ≡ scalar_at mode scalar (length (scalar_bytes big scalar)) }
{}
