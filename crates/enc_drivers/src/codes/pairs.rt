//! What the codes of a lead and a byte behind it share.

ghost use Rattle.std.specs.Prelude.{◌≡◌, ◌<◌, ◌≤◌, ◌&&◌, Option, IfSome, length, nat_lt};
ghost use Rattle.std.specs.Prelude.{if◌then◌else◌};
ghost use Rattle.enc_drivers.specs.Bulk.{BeginsWithScalar, IsItemEntry, IsPairEntry};
ghost use Rattle.enc_drivers.specs.Codes.Pairs.{ascii_alone, is_between, item_found, both_len};
ghost use Rattle.enc_drivers.specs.Codes.Pairs.{pairs_unit};
ghost use Rattle.enc_drivers.specs.Steps.{Steps};

use crate::code::Step;
use crate::steps::{cut, scalar_of, unit};
use crate::{Item, Mode};

// What a code of a lead and a byte behind it says of its bytes.
pub(crate) trait PairCode {
    ghost use Rattle.enc_drivers.specs.Codes.Pairs.{Pairs};
    ghost use Rattle.std.specs.Prelude.{true};

    ghost pairs: { Self → Pairs };

    fn is_lead(&self, byte: u8) -> bool
        ensures { result ≡ (pairs self.now).is_lead byte };

    // What a byte stands for that is no lead.
    fn alone(&self, byte: u8) -> Item
        ensures { result ≡ (pairs self.now).alone byte };

    // What a lead stands for with the byte behind it.
    fn both(&self, lead: u8, second: u8) -> Item
        requires { (pairs self.now).is_lead lead ≡ true }
        ensures { result ≡ (pairs self.now).both lead second };

    // The entry of that where it is a scalar, or 0 where it isn't told.
    fn pair_entry(&self, lead: u8, second: u8) -> u32
        requires { (pairs self.now).is_lead lead ≡ true }
        ensures { 0 < result → IsItemEntry ((pairs self.now).both lead second) result };
}

// The entry of the scalar of two bytes, or 0 where it isn't told.
#[inline(always)]
pub(crate) fn entry<P: PairCode>(pairs: &P, first: u8, second: u8) -> u32
    ensures { 0 < result → IsPairEntry (pairs_unit (P.pairs pairs.now)) first second result }
{
    if !pairs.is_lead(first) {
        return 0;
    }
    pairs.pair_entry(first, second)
}

// What a front tells of the unit there.
#[inline(always)]
pub(crate) fn step<P: PairCode>(pairs: &P, mode: Mode, front: &[u8], last: bool) -> Step
    requires some { 0 < length front.now }
    requires few { length front.now ≤ 4 }
    ensures { Steps (pairs_unit (P.pairs pairs.now)) mode front.now last result }
{
    let first = front[0];
    if !pairs.is_lead(first) {
        return unit(mode, pairs.alone(first), 1);
    }
    if front.len() < 2 {
        return cut(mode, 1, last);
    }
    let second = front[1];
    let item = pairs.both(first, second);
    unit(mode, item, both_len(item, second))
}

// The scalar at the front, and how many bytes it has.
#[inline(always)]
pub(crate) fn scalar<P: PairCode>(pairs: &P, bytes: &[u8]) -> Option<(char, usize)>
    requires { 0 < length bytes.now }
    ensures { IfSome result (λ found. BeginsWithScalar (pairs_unit (P.pairs pairs.now)) bytes.now
        found.0 found.1) }
{
    let first = bytes[0];
    if !pairs.is_lead(first) {
        return scalar_of(pairs.alone(first), 1);
    }
    if bytes.len() < 2 {
        return None;
    }
    scalar_of(pairs.both(first, bytes[1]), 2)
}

// How many bytes a lead has with the byte behind it, which isn't in the unit where it is ASCII and
// they fail.
#[inline(always)]
fn both_len(item: Item, second: u8) -> u8
    ensures { result ≡ both_len item second }
{
    match item {
        Item::Malformed if second < 0x80 => 1,
        _ => 2,
    }
}

// ASCII as it is, and malformed else.
pub(crate) fn ascii_alone(byte: u8) -> Item
    ensures { result ≡ ascii_alone byte }
{
    if byte < 0x80 {
        Item::One(char::from(byte))
    } else {
        Item::Malformed
    }
}

// Whether a byte is from low to high.
pub(crate) fn is_between(low: u8, high: u8, byte: u8) -> bool
    ensures { result ≡ is_between low high byte }
{
    low <= byte && byte <= high
}

// What an index has at a place, malformed where it has no scalar there.
pub(crate) fn item_found(scalar: Option<char>) -> Item
    ensures { result ≡ item_found scalar }
{
    match scalar {
        Some(scalar) => Item::One(scalar),
        None => Item::Malformed,
    }
}
