//! Units of UTF-16 that are no surrogates as UTF-8, eight at a time.
ghost use Rattle.std.specs.Prelude.{◌≡◌, ◌+◌, ◌≤◌, length, map, encode_utf8, flat_map};
ghost use Rattle.enc_strides.specs.Utf8.{entry, entry_text, Appended};

use std::simd::prelude::*;

// Of each unit its UTF-8 in the low three bytes, the first the lowest, and how many bytes that are
// in the high one.
#[inline(always)]
fn entries(units: u16x8) -> [u32; 8]
    ensures { result ≡ map entry units }
{
    let unit = units.cast::<u32>();
    let last = (unit & u32x8::splat(0x3F)) + u32x8::splat(0x80);
    let front = unit >> u32x8::splat(6);
    let middle = (front & u32x8::splat(0x3F)) + u32x8::splat(0x80);
    let two = front + (last << u32x8::splat(8)) + u32x8::splat(0x0200_00C0);
    let first = (front >> u32x8::splat(6)) + u32x8::splat(0x0300_00E0);
    let three = first + (middle << u32x8::splat(8)) + (last << u32x8::splat(16));
    let past_ascii = unit.simd_lt(u32x8::splat(0x800)).select(two, three);
    let one = unit + u32x8::splat(0x0100_0000);
    unit.simd_lt(u32x8::splat(0x80))
        .select(one, past_ascii)
        .to_array()
}

/// Writes the text of an entry at `to`, and answers the place behind it. An entry has the UTF-8 of
/// a scalar up to U+FFFF in its low three bytes, the first the lowest, and how many bytes that are
/// in the high one. It may write over what lies behind the text.
#[inline(always)]
pub fn append_entry(entry: u32, dst: &mut [u8], to: usize) -> usize
    requires { to + 4 ≤ length dst.old }
    ensures bound { result ≤ to + 3 }
    ensures written { Appended dst.old dst.new to result (entry_text entry) }
    ensures len { length dst.new ≡ length dst.old }
{
    Simd::<u32, 1>::from_array([entry])
        .to_le_bytes()
        .copy_to_slice(&mut dst[to..]);
    to + (entry >> 24) as usize % 4
}

/// Writes the units, each as a scalar, as UTF-8 from `at` on, and answers the place behind it. A
/// caller asks before that none is a surrogate. It may write over what lies behind the text.
#[inline(always)]
pub fn utf16_to_utf8_block(units: u16x8, dst: &mut [u8], at: usize) -> usize
    requires { at + 25 ≤ length dst.old }
    ensures bound { result ≤ at + 24 }
    ensures written { Appended dst.old dst.new at result (flat_map encode_utf8 units) }
    ensures len { length dst.new ≡ length dst.old }
{
    let entries = entries(units);
    let mut to = at;
    for i in 0..8 {
        to = append_entry(entries[i], dst, to);
    }
    to
}

/// Writes the texts of eight entries, one after another from `at` on, and answers the place behind
/// them. It may write over what lies behind them.
#[inline(always)]
pub fn append_entries(entries: &[u32; 8], dst: &mut [u8], at: usize) -> usize
    requires { at + 25 ≤ length dst.old }
    ensures bound { result ≤ at + 24 }
    ensures written { Appended dst.old dst.new at result (flat_map entry_text entries.now) }
    ensures len { length dst.new ≡ length dst.old }
{
    let mut to = at;
    for i in 0..8 {
        to = append_entry(entries[i], dst, to);
    }
    to
}
