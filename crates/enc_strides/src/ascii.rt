//! ASCII: its first byte or unit past it, and copies that store before they test.
ghost use Rattle.std.specs.Prelude.{◌≡◌, ◌++◌, map, length, take};
ghost use Rattle.std.specs.List.{position, concat};
ghost use Rattle.enc_strides.specs.Lanes.{is_past_ascii, first_at, low_byte};

use crate::lanes::{bytes_from, in_a_row, lowest, stride_from};
use std::simd::prelude::*;

// The byte at a place.
#[inline(always)]
fn byte_at(stride: &[u8; 16], place: Option<usize>) -> Option<(u8, usize)>
    requires { place ≡ position is_past_ascii stride.now }
    ensures { result ≡ first_at is_past_ascii stride.now }
{
    let at = place?;
    Some((stride[at], at))
}

/// The first byte past ASCII, and its place.
#[inline(always)]
pub fn validate_ascii_stride(stride: &[u8; 16]) -> Option<(u8, usize)>
    ensures { result ≡ first_at is_past_ascii stride.now }
{
    byte_at(stride, past_lane(u8x16::from_array(*stride)))
}

/// The same, after the bytes are copied.
#[inline(always)]
pub fn ascii_to_ascii_stride(src: &[u8; 16], dst: &mut [u8; 16]) -> Option<(u8, usize)>
    ensures found { result ≡ first_at is_past_ascii src.now }
    ensures copied { dst.new ≡ src.now }
{
    let v = u8x16::from_array(*src);
    *dst = v.to_array();
    byte_at(src, past_lane(v))
}

/// The same, to units.
#[inline(always)]
pub fn ascii_to_basic_latin_stride(src: &[u8; 16], dst: &mut [u16; 16]) -> Option<(u8, usize)>
    ensures found { result ≡ first_at is_past_ascii src.now }
    ensures copied { dst.new ≡ src.now }
{
    let v = u8x16::from_array(*src);
    *dst = v.cast::<u16>().to_array();
    byte_at(src, past_lane(v))
}

// The unit at a place.
#[inline(always)]
fn unit_at(stride: &[u16; 16], place: Option<usize>) -> Option<(u16, usize)>
    requires { place ≡ position is_past_ascii stride.now }
    ensures { result ≡ first_at is_past_ascii stride.now }
{
    let at = place?;
    Some((stride[at], at))
}

/// The first unit past ASCII, and its place, after the low bytes are written: the units before that
/// place as they are.
#[inline(always)]
pub fn basic_latin_to_ascii_stride(src: &[u16; 16], dst: &mut [u8; 16]) -> Option<(u16, usize)>
    ensures found { result ≡ first_at is_past_ascii src.now }
    ensures copied { dst.new ≡ map low_byte src.now }
{
    let v = u16x16::from_array(*src);
    *dst = low_bytes(v);
    unit_at(src, lowest(stride_from(v, 0x80)))
}

/// Writes the bytes as units.
#[inline(always)]
pub fn unpack_stride(src: &[u8; 16], dst: &mut [u16; 16])
    ensures { dst.new ≡ src.now }
{
    *dst = u8x16::from_array(*src).cast::<u16>().to_array();
}

/// Writes the low bytes of the units.
#[inline(always)]
pub fn pack_stride(src: &[u16; 16], dst: &mut [u8; 16])
    ensures { dst.new ≡ map low_byte src.now }
{
    *dst = low_bytes(u16x16::from_array(*src));
}

// The byte at a place of two strides.
#[inline(always)]
fn byte_of_two(first: &[u8; 16], second: &[u8; 16], place: Option<usize>) -> Option<(u8, usize)>
    requires { place ≡ position is_past_ascii (first.now ++ second.now) }
    ensures { result ≡ first_at is_past_ascii (first.now ++ second.now) }
{
    let at = place?;
    let byte = if at < 16 { first[at] } else { second[at - 16] };
    Some((byte, at))
}

// The unit at a place of two strides.
#[inline(always)]
fn unit_of_two(first: &[u16; 16], second: &[u16; 16], place: Option<usize>) -> Option<(u16, usize)>
    requires { place ≡ position is_past_ascii (first.now ++ second.now) }
    ensures { result ≡ first_at is_past_ascii (first.now ++ second.now) }
{
    let at = place?;
    let unit = if at < 16 { first[at] } else { second[at - 16] };
    Some((unit, at))
}

// The place of the first byte past ASCII in a vector.
#[inline(always)]
pub(crate) fn past_lane(v: u8x16) -> Option<usize>
    ensures { result ≡ position is_past_ascii v }
{
    lowest(bytes_from(v, 0x80))
}

// The same in two vectors.
#[inline(always)]
pub(crate) fn past_in_two(v: u8x16, w: u8x16) -> Option<usize>
    ensures { result ≡ position is_past_ascii (v ++ w) }
{
    lowest(in_a_row(bytes_from(v, 0x80), bytes_from(w, 0x80)))
}

/// The first byte past ASCII of two strides, and its place, 0 to 31.
#[inline(always)]
pub fn validate_ascii_double_stride(double: &[[u8; 16]; 2]) -> Option<(u8, usize)>
    ensures { result ≡ first_at is_past_ascii (concat double.now) }
{
    let [first, second] = double;
    let v = u8x16::from_array(*first);
    let w = u8x16::from_array(*second);
    byte_of_two(first, second, past_in_two(v, w))
}

/// The same, after the bytes are copied.
#[inline(always)]
pub fn ascii_to_ascii_double_stride(
    src: &[[u8; 16]; 2],
    dst: &mut [[u8; 16]; 2],
) -> Option<(u8, usize)>
    ensures found { result ≡ first_at is_past_ascii (concat src.now) }
    ensures copied { dst.new ≡ src.now }
{
    let [first, second] = src;
    let v = u8x16::from_array(*first);
    let w = u8x16::from_array(*second);
    *dst = [v.to_array(), w.to_array()];
    byte_of_two(first, second, past_in_two(v, w))
}

/// The same, to units.
#[inline(always)]
pub fn ascii_to_basic_latin_double_stride(
    src: &[[u8; 16]; 2],
    dst: &mut [[u16; 16]; 2],
) -> Option<(u8, usize)>
    ensures found { result ≡ first_at is_past_ascii (concat src.now) }
    ensures copied { dst.new ≡ src.now }
{
    let [first, second] = src;
    let v = u8x16::from_array(*first);
    let w = u8x16::from_array(*second);
    *dst = [v.cast::<u16>().to_array(), w.cast::<u16>().to_array()];
    byte_of_two(first, second, past_in_two(v, w))
}

// The low bytes of units.
#[inline(always)]
fn low_bytes(v: u16x16) -> [u8; 16]
    ensures { result ≡ map low_byte v }
{
    (v & u16x16::splat(0xFF)).cast::<u8>().to_array()
}

/// The first unit past ASCII of two strides, and its place, 0 to 31, after the low bytes are
/// written: the units before that place as they are.
#[inline(always)]
pub fn basic_latin_to_ascii_double_stride(
    src: &[[u16; 16]; 2],
    dst: &mut [[u8; 16]; 2],
) -> Option<(u16, usize)>
    ensures found { result ≡ first_at is_past_ascii (concat src.now) }
    ensures copied { dst.new ≡ map (map low_byte) src.now }
{
    let [first, second] = src;
    let v = u16x16::from_array(*first);
    let w = u16x16::from_array(*second);
    *dst = [low_bytes(v), low_bytes(w)];
    unit_of_two(
        first,
        second,
        lowest(in_a_row(stride_from(v, 0x80), stride_from(w, 0x80))),
    )
}
