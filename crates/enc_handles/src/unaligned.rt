//! Code units of UTF-16 in a slice of bytes, which may begin at any place.
ghost use Rattle.std.specs.Prelude.{◌≡◌, ◌+◌, ◌-◌, ◌*◌, ◌<◌, ◌≤◌, ◌↔◌, length, take, drop};
ghost use Rattle.std.specs.Prelude.{slice_index, false, true, Bool, IsSome, IfSome};
ghost use Rattle.enc_handles.specs.Utf16.{code_units, bmp_len};

use crate::blocks::move_utf16;
use crate::endian::Endian;
use crate::utf16::is_surrogate;
use enc_strides::simd_funcs::{simd_byte_swap, to_u16_lanes};
use std::simd::prelude::*;

#[cfg(test)]
mod tests;

/// So many 16-bit code units in the bytes of a slice, which may begin at any place.
#[derive(Clone, Copy)]
pub struct UnalignedU16Slice<'a> {
    bytes: &'a [u8],
    len: usize,
    ghost fits: { 2 * len ≤ length bytes.now },
}

impl<'a> UnalignedU16Slice<'a> {
    ghost use Rattle.enc_handles.specs.Unaligned.{units_in};

    /// The first `len` code units of the bytes.
    pub fn new(bytes: &'a [u8], len: usize) -> UnalignedU16Slice<'a>
        requires { 2 * len ≤ length bytes.now }
        ensures { (big : Bool) → units_in big result ≡ take len (code_units big bytes.now) }
    {
        UnalignedU16Slice { bytes, len }
    }

    /// How many code units there are.
    pub fn len(&self) -> usize
        ensures { (big : Bool) → result ≡ length (units_in big self.now) }
    {
        self.len
    }

    /// Leaves the last code unit out.
    pub fn trim_last(&mut self)
        requires { 0 < length (units_in false self.old) }
        ensures { (big : Bool) → units_in big self.new
            ≡ take (length (units_in big self.old) - 1) (units_in big self.old) }
    {
        self.len -= 1;
    }

    /// The code unit at `i`, in the machine's order, the less significant byte first.
    pub fn at(&self, i: usize) -> u16
        requires { i < length (units_in false self.now) }
        ensures { result ≡ slice_index (units_in false self.now) i }
    {
        u16::from(self.bytes[2 * i]) + u16::from(self.bytes[2 * i + 1]) * 0x100
    }

    /// The code units from `from` on.
    pub fn tail(&self, from: usize) -> UnalignedU16Slice<'a>
        requires { from ≤ length (units_in false self.now) }
        ensures { (big : Bool) → units_in big result ≡ drop from (units_in big self.now) }
    {
        UnalignedU16Slice {
            bytes: &self.bytes[2 * from..],
            len: self.len - from,
        }
    }

    /// The eight code units from `i` on, in the machine's order, the less significant byte first.
    pub fn simd_at(&self, i: usize) -> u16x8
        requires { i + 8 ≤ length (units_in false self.now) }
        ensures { result ≡ take 8 (drop i (units_in false self.now)) }
    {
        to_u16_lanes(u8x16::from_slice(&self.bytes[2 * i..]))
    }

    // The eight code units from `i` on in the order of `E`.
    #[inline(always)]
    pub(crate) fn block<E: Endian>(&self, i: usize) -> u16x8
        requires { i + 8 ≤ length (units_in E.OPPOSITE_ENDIAN self.now) }
        ensures { result ≡ take 8 (drop i (units_in E.OPPOSITE_ENDIAN self.now)) }
    {
        if E::OPPOSITE_ENDIAN {
            return big_block(self.bytes, i);
        }
        self.simd_at(i)
    }

    // The code unit at `i` in the order of `E`.
    pub(crate) fn unit<E: Endian>(&self, i: usize) -> u16
        requires { i < length (units_in E.OPPOSITE_ENDIAN self.now) }
        ensures { result ≡ slice_index (units_in E.OPPOSITE_ENDIAN self.now) i }
    {
        let first = u16::from(self.bytes[2 * i]);
        let second = u16::from(self.bytes[2 * i + 1]);
        if E::OPPOSITE_ENDIAN {
            first * 0x100 + second
        } else {
            second * 0x100 + first
        }
    }

    // Copies blocks as long as no surrogate stands in one, and answers how many units they have.
    fn copy_blocks_to<E: Endian>(&self, other: &mut [u16]) -> usize
        requires { length (units_in E.OPPOSITE_ENDIAN self.now) ≡ length other.old }
        ensures within { result ≤ length (units_in E.OPPOSITE_ENDIAN self.now) }
        ensures before { result + bmp_len (drop result (units_in E.OPPOSITE_ENDIAN self.now))
            ≡ bmp_len (units_in E.OPPOSITE_ENDIAN self.now) }
        ensures copied { take result other.new ≡ take result (units_in E.OPPOSITE_ENDIAN self.now) }
        ensures len { length other.new ≡ length other.old }
    {
        let (moved, _) = move_utf16::<E>(self, 0, other, 0);
        moved
    }

    /// Copies up to the first surrogate and answers it with its place, or `None` where there is
    /// none. What `other` has from that place to the length of this slice is left open; what it has
    /// from there on stays.
    pub fn copy_bmp_to<E: Endian>(&self, other: &mut [u16]) -> Option<(u16, usize)>
        requires { length (units_in E.OPPOSITE_ENDIAN self.now) ≤ length other.old }
        ensures found { IsSome result
            ↔ (bmp_len (units_in E.OPPOSITE_ENDIAN self.now)
            < length (units_in E.OPPOSITE_ENDIAN self.now)) }
        ensures surrogate { IfSome result (λ found. found.0
            ≡ slice_index (units_in E.OPPOSITE_ENDIAN self.now)
            (bmp_len (units_in E.OPPOSITE_ENDIAN self.now))) }
        ensures place { IfSome result (λ found. found.1
            ≡ bmp_len (units_in E.OPPOSITE_ENDIAN self.now)) }
        ensures copied { take (bmp_len (units_in E.OPPOSITE_ENDIAN self.now)) other.new
            ≡ take (bmp_len (units_in E.OPPOSITE_ENDIAN self.now))
            (units_in E.OPPOSITE_ENDIAN self.now) }
        ensures stays { drop (length (units_in E.OPPOSITE_ENDIAN self.now)) other.new
            ≡ drop (length (units_in E.OPPOSITE_ENDIAN self.now)) other.old }
    {
        let count = self.len();
        let moved = self.copy_blocks_to::<E>(&mut other[..count]);
        for i in moved..count {
            let unit = self.unit::<E>(i);
            if is_surrogate(unit) {
                return Some((unit, i));
            }
            other[i] = unit;
        }
        None
    }
}

// The eight code units from `i` on, the more significant byte first.
#[inline(always)]
fn big_block(bytes: &[u8], i: usize) -> u16x8
    requires { 2 * i + 16 ≤ length bytes.now }
    ensures { result ≡ take 8 (drop i (code_units true bytes.now)) }
{
    simd_byte_swap(to_u16_lanes(u8x16::from_slice(&bytes[2 * i..])))
}
