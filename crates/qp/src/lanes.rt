//! Runs of printable bytes, looked at and copied sixteen or more at a time.

ghost use Rattle.std.specs.Prelude.{◌≡◌, ◌+◌, ◌≤◌, ◌==◌, ◌&&◌, ◌||◌, true, not, length, take, drop};
ghost use Rattle.std.specs.Prelude.{◌++◌, if◌then◌else◌};
ghost use Rattle.std.specs.Int.{w64, trailing_zeros};
ghost use Rattle.std.specs.List.{list_all};
ghost use Rattle.qp.specs.Text.{is_text_octet};
ghost use Rattle.qp.specs.Items.{may_stand_within};

use std::simd::prelude::*;

// How many bytes are looked at at once.
pub const LANES: usize = 16;

// How many bytes a decoder looks at at once.
pub const WIDE: usize = 32;

// The place of the lowest bit that is set, or `lanes`.
#[inline(always)]
pub fn first_set(mask: u64, lanes: usize) -> usize
    ensures { result ≡ (if mask == 0 then lanes else trailing_zeros w64 mask) }
{
    if mask == 0 {
        lanes
    } else {
        mask.trailing_zeros() as usize
    }
}

// How many of the sixteen bytes at `at` are 20 to 7E but `=`, up to the first that isn't.
#[inline(always)]
pub fn plain_lanes(text: &[u8], at: usize) -> usize
    requires { at + 16 ≤ length text.now }
    ensures few { result ≤ 16 }
    ensures run { list_all may_stand_within (take result (drop at text.now)) ≡ true }
{
    let v = u8x16::from_slice(&text[at..]);
    let low = v.simd_lt(u8x16::splat(b' ')) | v.simd_eq(u8x16::splat(b'='));
    let stops = low | v.simd_ge(u8x16::splat(0x7F));
    first_set(stops.to_bitmask(), LANES)
}

// How many of the first thirty-two bytes are 20 to 7E but `=`, up to the first that isn't.
#[inline(always)]
pub fn wide_plain_lanes(text: &[u8]) -> usize
    requires { 32 ≤ length text.now }
    ensures few { result ≤ 32 }
    ensures run { list_all may_stand_within (take result text.now) ≡ true }
{
    let v = u8x32::from_slice(text);
    let low = v.simd_lt(u8x32::splat(b' ')) | v.simd_eq(u8x32::splat(b'='));
    let stops = low | v.simd_ge(u8x32::splat(0x7F));
    first_set(stops.to_bitmask(), WIDE)
}

// How many of the sixteen bytes at `at` are 20 to 7E, up to the first that isn't.
#[inline(always)]
pub fn printable_lanes(text: &[u8], at: usize) -> usize
    requires { at + 16 ≤ length text.now }
    ensures few { result ≤ 16 }
    ensures run { list_all (λ b. is_text_octet b && not ((b == 13) || (b == 10)))
        (take result (drop at text.now)) ≡ true }
{
    let v = u8x16::from_slice(&text[at..]);
    let stops = v.simd_lt(u8x16::splat(b' ')) | v.simd_ge(u8x16::splat(0x7F));
    first_set(stops.to_bitmask(), LANES)
}

// How many bytes at the front of `text`, sixteen at most and up to `most`, stand for themselves
// within a line: all before the first that doesn't, or before a tab.
#[inline(always)]
pub fn first_plain(text: &[u8], most: usize) -> usize
    requires { 16 ≤ length text.now }
    ensures few { result ≤ 16 }
    ensures most { result ≤ most }
    ensures run { list_all may_stand_within (take result text.now) ≡ true }
{
    plain_lanes(text, 0).min(most)
}

// Writes these bytes to `room` at `at`, and gives the place behind them.
#[inline(always)]
pub fn put(room: &mut [u8], at: usize, bytes: &[u8]) -> usize
    requires { at + length bytes.now ≤ length room.old }
    ensures written { take result room.new ≡ take at room.old ++ bytes.now }
    ensures end { result ≡ at + length bytes.now }
    ensures len { length room.new ≡ length room.old }
{
    let end = at + bytes.len();
    room[at..end].copy_from_slice(bytes);
    end
}
