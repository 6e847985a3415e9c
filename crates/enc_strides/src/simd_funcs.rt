//! Questions on vectors, and moves between vectors and arrays.
ghost use Rattle.std.specs.Prelude.{◌≡◌, ◌++◌, ◌≤◌, map, take, drop};
ghost use Rattle.std.specs.List.{list_any};
ghost use Rattle.enc_strides.specs.Lanes.{all_below, is_in, is_surrogate, may_be_bidi, swapped};
ghost use Rattle.enc_strides.specs.Lanes.{low_byte, units_of};

use crate::lanes::{bytes_from, units_from, units_in};
use std::simd::prelude::*;

/// The sixteen bytes as lanes.
#[inline(always)]
pub fn load16_unaligned(from: &[u8; 16]) -> u8x16
    ensures { result ≡ from.now }
{
    u8x16::from_array(*from)
}

/// Writes the lanes as sixteen bytes.
#[inline(always)]
pub fn store16_unaligned(to: &mut [u8; 16], s: u8x16)
    ensures { to.new ≡ s }
{
    *to = s.to_array();
}

/// Writes the lanes as eight units.
#[inline(always)]
pub fn store8_unaligned(to: &mut [u16; 8], s: u16x8)
    ensures { to.new ≡ s }
{
    *to = s.to_array();
}

/// Each lane with its two bytes exchanged.
#[inline(always)]
pub fn simd_byte_swap(s: u16x8) -> u16x8
    ensures { result ≡ map swapped s }
{
    (s << u16x8::splat(8)) + (s >> u16x8::splat(8))
}

/// The bytes in twos, as units with the low byte first.
#[inline(always)]
pub fn to_u16_lanes(s: u8x16) -> u16x8
    ensures { result ≡ units_of s }
{
    u16x8::from_le_bytes(s)
}

/// Whether every lane is below 80.
#[inline(always)]
pub fn simd_is_ascii(s: u8x16) -> bool
    ensures { result ≡ all_below 0x80 s }
{
    bytes_from(s, 0x80) == 0
}

/// Whether every lane is below C4: then UTF-8 in it has no scalar above U+00FF.
#[inline(always)]
pub fn simd_is_str_latin1(s: u8x16) -> bool
    ensures { result ≡ all_below 0xC4 s }
{
    bytes_from(s, 0xC4) == 0
}

/// Whether every lane is below 80.
#[inline(always)]
pub fn simd_is_basic_latin(s: u16x8) -> bool
    ensures { result ≡ all_below 0x80 s }
{
    units_from(s, 0x80) == 0
}

/// Whether every lane is below 100.
#[inline(always)]
pub fn simd_is_latin1(s: u16x8) -> bool
    ensures { result ≡ all_below 0x100 s }
{
    units_from(s, 0x100) == 0
}

// Whether some lane is at least `least` and below `end`.
#[inline(always)]
fn has_in(s: u16x8, least: u16, end: u16) -> bool
    requires { least ≤ end }
    ensures { result ≡ list_any (is_in least end) s }
{
    units_in(s, least, end) != 0
}

/// Whether some lane is a surrogate.
#[inline(always)]
pub fn contains_surrogates(s: u16x8) -> bool
    ensures { result ≡ list_any is_surrogate s }
{
    has_in(s, 0xD800, 0xE000)
}

/// Whether some lane is one of those that right-to-left text may have.
#[inline(always)]
pub fn is_u16x8_bidi(s: u16x8) -> bool
    ensures { result ≡ list_any may_be_bidi s }
{
    has_in(s, 0x590, 0x900)
        | has_in(s, 0xFB1D, 0xFE00)
        | has_in(s, 0xFE70, 0xFEFF)
        | has_in(s, 0xD802, 0xD804)
        | has_in(s, 0xD83A, 0xD83C)
        | has_in(s, 0x200F, 0x2010)
        | has_in(s, 0x202B, 0x202C)
        | has_in(s, 0x202E, 0x202F)
        | has_in(s, 0x2067, 0x2068)
}

/// The same of eight units of an array.
#[inline(always)]
pub fn is_half_stride_bidi(half: &[u16; 8]) -> bool
    ensures { result ≡ list_any may_be_bidi half.now }
{
    is_u16x8_bidi(u16x8::from_array(*half))
}

/// The lanes as units, eight and eight.
#[inline(always)]
pub fn simd_unpack_narrow(s: u8x16) -> (u16x8, u16x8)
    ensures low { result.0 ≡ take 8 s }
    ensures high { result.1 ≡ drop 8 s }
{
    (
        s.extract::<0, 8>().cast::<u16>(),
        s.extract::<8, 8>().cast::<u16>(),
    )
}

/// The lanes as units.
#[inline(always)]
pub fn simd_unpack(s: u8x16) -> u16x16
    ensures { result ≡ s }
{
    s.cast::<u16>()
}

/// The low bytes of the lanes of `a`, then those of `b`.
#[inline(always)]
pub fn simd_pack(a: u16x8, b: u16x8) -> u8x16
    ensures { result ≡ map low_byte (a ++ b) }
{
    let low = (a & u16x8::splat(0xFF)).cast::<u8>();
    let high = (b & u16x8::splat(0xFF)).cast::<u8>();
    low.shuffle(high, [0, 1, 2, 3, 4, 5, 6, 7, 8, 9, 10, 11, 12, 13, 14, 15])
}
