//! Surrogates, and the scalars that code units of UTF-16 stand for.
ghost use Rattle.std.specs.Prelude.{◌≡◌, ◌<◌, ◌≤◌, IsTrue, length, IfSome, IfNone};
ghost use Rattle.enc_handles.specs.Unaligned.{units_in};
ghost use Rattle.enc_handles.specs.Utf16.{is_lead, is_trail, is_surrogate, pair_scalar};
ghost use Rattle.enc_handles.specs.Utf16.{without_last_lead, HasScalarAt, BeginsNoPair};

use crate::endian::Endian;
use crate::unaligned::UnalignedU16Slice;

// The scalar that stands at `i` and how many units it has, or `None` where an unpaired surrogate
// stands there and nothing before `i` is its lead.
pub(crate) fn well_formed_scalar_at<E: Endian>(
    units: &UnalignedU16Slice,
    i: usize,
) -> Option<(u32, usize)>
    requires { i < length (units_in E.OPPOSITE_ENDIAN units.now) }
    ensures some { IfSome result (λ found. HasScalarAt (units_in E.OPPOSITE_ENDIAN units.now) i
        found.0 found.1) }
    ensures none { IfNone result (BeginsNoPair (units_in E.OPPOSITE_ENDIAN units.now) i) }
{
    let unit = units.unit::<E>(i);
    if !is_surrogate(unit) {
        return Some((u32::from(unit), 1));
    }
    if !is_lead(unit) || i + 1 == units.len() {
        return None;
    }
    let second = units.unit::<E>(i + 1);
    if !is_trail(second) {
        return None;
    }
    Some((scalar_of_pair(unit, second), 2))
}

// The units without the last one where that is a leading surrogate.
pub(crate) fn without_last_lead<'a, E: Endian>(
    units: UnalignedU16Slice<'a>,
) -> UnalignedU16Slice<'a>
    ensures { units_in E.OPPOSITE_ENDIAN result ≡ without_last_lead
        (units_in E.OPPOSITE_ENDIAN units.entry) }
{
    let mut units = units;
    let len = units.len();
    if len > 0 && is_lead(units.unit::<E>(len - 1)) {
        units.trim_last();
    }
    units
}

/// Whether a code unit is a leading surrogate.
#[inline(always)]
pub fn is_lead(unit: u16) -> bool
    ensures { result ≡ is_lead unit }
{
    0xD800 <= unit && unit <= 0xDBFF
}

/// Whether a code unit is a trailing surrogate.
#[inline(always)]
pub fn is_trail(unit: u16) -> bool
    ensures { result ≡ is_trail unit }
{
    0xDC00 <= unit && unit <= 0xDFFF
}

// Whether a code unit is a surrogate.
pub(crate) fn is_surrogate(unit: u16) -> bool
    ensures { result ≡ is_surrogate unit }
{
    0xD800 <= unit && unit <= 0xDFFF
}

// The number of the scalar of a pair of surrogates.
pub(crate) fn scalar_of_pair(high: u16, low: u16) -> u32
    requires lead { IsTrue (is_lead high) }
    requires trail { IsTrue (is_trail low) }
    ensures value { result ≡ pair_scalar high low }
    ensures low { 0x1_0000 ≤ result }
    ensures high { result ≤ 0x10_FFFF }
{
    0x1_0000 + (u32::from(high) - 0xD800) * 0x400 + (u32::from(low) - 0xDC00)
}

/// The scalar of a pair of surrogates.
#[inline(always)]
pub fn pair_scalar(lead: u16, trail: u16) -> char
    requires lead { IsTrue (is_lead lead) }
    requires trail { IsTrue (is_trail trail) }
    ensures value { result ≡ pair_scalar lead trail }
    ensures above { 0x1_0000 ≤ result }
{
    char::from_u32(scalar_of_pair(lead, trail)).unwrap()
}
