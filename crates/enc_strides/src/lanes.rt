//! Masks of lanes: one bit a lane, the first lane's the lowest.
ghost use Rattle.std.specs.Prelude.{◌≡◌, ◌<◌, ◌≤◌, ◌++◌, ℕ, Bool, List, length, map};
ghost use Rattle.std.specs.List.{position};
ghost use Rattle.std.specs.Simd.Lanes.{mask_l};
ghost use Rattle.enc_strides.specs.Lanes.{is_from, is_in};

use std::simd::prelude::*;

// The lanes that are at least `least`.
#[inline(always)]
pub(crate) fn bytes_from(v: u8x16, least: u8) -> u64
    ensures few { result < 65536 }
    ensures mask { result ≡ mask_l (map (is_from least) v) }
{
    v.simd_ge(u8x16::splat(least)).to_bitmask()
}

// The same of eight units.
#[inline(always)]
pub(crate) fn units_from(v: u16x8, least: u16) -> u64
    ensures { result ≡ mask_l (map (is_from least) v) }
{
    v.simd_ge(u16x8::splat(least)).to_bitmask()
}

// The same of sixteen units.
#[inline(always)]
pub(crate) fn stride_from(v: u16x16, least: u16) -> u64
    ensures few { result < 65536 }
    ensures mask { result ≡ mask_l (map (is_from least) v) }
{
    v.simd_ge(u16x16::splat(least)).to_bitmask()
}

// The lanes that are at least `least` and below `end`.
#[inline(always)]
pub(crate) fn units_in(v: u16x8, least: u16, end: u16) -> u64
    requires { least ≤ end }
    ensures { result ≡ mask_l (map (is_in least end) v) }
{
    units_from(v, least) - units_from(v, end)
}

// The same of sixteen units.
#[inline(always)]
pub(crate) fn stride_in(v: u16x16, least: u16, end: u16) -> u64
    requires { least ≤ end }
    ensures { result ≡ mask_l (map (is_in least end) v) }
{
    stride_from(v, least) - stride_from(v, end)
}

// The place of the lowest bit that is set: of a mask of lanes that pass, the first of them.
#[inline(always)]
pub(crate) fn lowest(mask: u64) -> Option<usize>
    ensures { (passes : ℕ → Bool) (xs : List ℕ) → length xs ≤ 64 → mask ≡ mask_l (map passes xs)
        → result ≡ position passes xs }
{
    if mask == 0 {
        return None;
    }
    Some(mask.trailing_zeros() as usize)
}

// The mask of sixteen lanes and then sixteen others.
#[inline(always)]
pub(crate) fn in_a_row(first: u64, second: u64) -> u64
    requires first { first < 65536 }
    requires second { second < 65536 }
    ensures { (passes : ℕ → Bool) (xs ys : List ℕ) → length xs ≡ 16 → first ≡ mask_l (map passes xs)
        → second ≡ mask_l (map passes ys) → result ≡ mask_l (map passes (xs ++ ys)) }
{
    first + second * 65536
}
