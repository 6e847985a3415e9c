//! Code units that are no surrogates, eight at a time, to UTF-8 and to UTF-16.
ghost use Rattle.std.specs.Prelude.{◌≡◌, ◌+◌, ◌≤◌, length, encode_utf8, IfSome, IfNone};
ghost use Rattle.std.specs.Char.Escape.{encode_utf16};
ghost use Rattle.enc_handles.specs.Copies.{MovesUnits, MovesFrom};
ghost use Rattle.enc_handles.specs.Unaligned.{units_in};

use crate::endian::Endian;
use crate::unaligned::UnalignedU16Slice;
use enc_strides::simd_funcs::contains_surrogates;
use enc_strides::utf8::utf16_to_utf8_block;
use std::simd::prelude::*;

// Writes a block as UTF-8, or nothing where a surrogate stands in it.
#[inline(always)]
fn utf8_block(block: u16x8, dst: &mut [u8], at: usize) -> Option<usize>
    requires { at + 28 ≤ length dst.old }
    ensures moved { IfSome result (λ end. MovesUnits encode_utf8 4 block dst.old dst.new at end) }
    ensures none { IfNone result (dst.new ≡ dst.old) }
{
    if contains_surrogates(block) {
        return None;
    }
    Some(utf16_to_utf8_block(block, dst, at))
}

// Writes units from `from` on as UTF-8 at `at` and behind it, block after block, up to one with a
// surrogate or for want of units or room, and answers how many they are and the place behind their
// text.
pub(crate) fn move_utf8<E: Endian>(
    units: &UnalignedU16Slice,
    from: usize,
    dst: &mut [u8],
    at: usize,
) -> (usize, usize)
    requires at { at ≤ length dst.old }
    requires from { from ≤ length (units_in E.OPPOSITE_ENDIAN units.now) }
    ensures { MovesFrom encode_utf8 4 (units_in E.OPPOSITE_ENDIAN units.now) dst.old dst.new at from
        result }
{
    let mut read = from;
    let mut end = at;
    while units.len() - read >= 8 && dst.len() - end >= 28 {
        let Some(behind) = utf8_block(units.block::<E>(read), dst, end) else {
            return (read - from, end);
        };
        end = behind;
        read += 8;
    }
    (read - from, end)
}

// Writes a block as it is, or nothing where a surrogate stands in it.
#[inline(always)]
fn utf16_block(block: u16x8, dst: &mut [u16], at: usize) -> Option<usize>
    requires { at + 8 ≤ length dst.old }
    ensures moved { IfSome result (λ end. MovesUnits encode_utf16 0 block dst.old dst.new at end) }
    ensures none { IfNone result (dst.new ≡ dst.old) }
{
    if contains_surrogates(block) {
        return None;
    }
    block.copy_to_slice(&mut dst[at..]);
    Some(at + 8)
}

// The same as `move_utf8`, in UTF-16.
pub(crate) fn move_utf16<E: Endian>(
    units: &UnalignedU16Slice,
    from: usize,
    dst: &mut [u16],
    at: usize,
) -> (usize, usize)
    requires at { at ≤ length dst.old }
    requires from { from ≤ length (units_in E.OPPOSITE_ENDIAN units.now) }
    ensures { MovesFrom encode_utf16 0 (units_in E.OPPOSITE_ENDIAN units.now) dst.old dst.new at
        from result }
{
    let mut read = from;
    let mut end = at;
    while units.len() - read >= 8 && dst.len() - end >= 8 {
        let Some(behind) = utf16_block(units.block::<E>(read), dst, end) else {
            return (read - from, end);
        };
        end = behind;
        read += 8;
    }
    (read - from, end)
}
