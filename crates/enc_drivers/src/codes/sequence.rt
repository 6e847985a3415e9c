//! What `step` answers to a sequence that is there as a whole.

ghost use Rattle.std.specs.Prelude.{◌≡◌, ◌≤◌};
ghost use Rattle.enc_drivers.specs.declared.code.Step.TheVariants as step;
ghost use Rattle.enc_drivers.specs.Codes.Sequence.{sequence_unit, whole_unit};

use crate::code::Step;
use crate::steps::{malformed, unit};
use crate::{Item, Mode};

// So many bytes, of which `last` is the last, with the scalar that they have: without one they are
// malformed, but for `last` where it is ASCII.
#[inline(always)]
pub(crate) fn sequence(mode: Mode, scalar: Option<char>, length: u8, last: u8) -> Step
    requires { 1 ≤ length }
    ensures { let u = sequence_unit mode scalar length last in result
        ≡ step.Unit u.item u.len u.next }
{
    match scalar {
        Some(scalar) => one(mode, scalar, length),
        None if last < 0x80 => malformed(mode, length - 1),
        None => malformed(mode, length),
    }
}

// So many bytes with the scalar that they have, or malformed as a whole.
#[inline(always)]
pub(crate) fn whole(mode: Mode, scalar: Option<char>, length: u8) -> Step
    ensures { let u = whole_unit mode scalar length in result ≡ step.Unit u.item u.len u.next }
{
    match scalar {
        Some(scalar) => one(mode, scalar, length),
        None => malformed(mode, length),
    }
}

// A scalar of so many bytes.
#[inline(always)]
pub(crate) fn one(mode: Mode, scalar: char, length: u8) -> Step
    ensures { result ≡ step.Unit (Item.One scalar) length mode }
{
    unit(mode, Item::One(scalar), length)
}
