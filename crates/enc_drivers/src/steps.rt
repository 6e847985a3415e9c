//! What a code answers of the front of bytes: a scalar, malformed bytes, or that more are needed.

ghost use Rattle.std.specs.Prelude.{◌≡◌, if◌then◌else◌, IfSome};
ghost use Rattle.enc_drivers.specs.Bulk.{IsScalarOf};
ghost use Rattle.enc_drivers.specs.declared.unit.Item.TheVariants.{Malformed};
ghost use Rattle.enc_drivers.specs.declared.code.Step.TheVariants as step;

use crate::code::Step;
use crate::{Item, Mode};

// The scalar of an item, with so many bytes.
#[inline(always)]
pub(crate) fn scalar_of(item: Item, length: usize) -> Option<(char, usize)>
    ensures { IfSome result (λ found. IsScalarOf item length found) }
{
    match item {
        Item::One(scalar) => Some((scalar, length)),
        _ => None,
    }
}

// So many bytes that stand for an item and keep the mode.
#[inline(always)]
pub(crate) fn unit(mode: Mode, item: Item, length: u8) -> Step
    ensures { result ≡ step.Unit item length mode }
{
    Step::Unit {
        item,
        length,
        next: mode,
    }
}

// So many malformed bytes.
#[inline(always)]
pub(crate) fn malformed(mode: Mode, length: u8) -> Step
    ensures { result ≡ step.Unit Malformed length mode }
{
    unit(mode, Item::Malformed, length)
}

// What bytes tell that are malformed at the end, and may go on before it.
#[inline(always)]
pub(crate) fn cut(mode: Mode, length: u8, last: bool) -> Step
    ensures { result ≡ (if last then step.Unit Malformed length mode else step.More) }
{
    if last {
        malformed(mode, length)
    } else {
        Step::More
    }
}
