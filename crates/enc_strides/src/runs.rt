//! Copies of the ASCII at the front of a slice, by double strides.
ghost use Rattle.std.specs.Prelude.{◌≡◌, ◌+◌, ◌≤◌, length, take, min};
ghost use Rattle.enc_strides.specs.Runs.{run_len, Copied, CopiedOn};

use crate::ascii::{past_in_two, past_lane};
use crate::simd_funcs::simd_unpack;
use std::simd::prelude::*;

// Copies on by one stride, and says which of its bytes is the first past ASCII.
#[inline(always)]
fn copy_stride(src: &[u8], dst: &mut [u8], at: usize) -> Option<usize>
    requires src { at + 16 ≤ length src.now }
    requires dst { at + 16 ≤ length dst.old }
    requires copied { Copied src.now dst.old at }
    ensures { CopiedOn src.now dst.new at 16 result }
{
    let v = u8x16::from_slice(&src[at..]);
    v.copy_to_slice(&mut dst[at..]);
    past_lane(v)
}

// The same by two strides.
#[inline(always)]
fn copy_double_stride(src: &[u8], dst: &mut [u8], at: usize) -> Option<usize>
    requires src { at + 32 ≤ length src.now }
    requires dst { at + 32 ≤ length dst.old }
    requires copied { Copied src.now dst.old at }
    ensures { CopiedOn src.now dst.new at 32 result }
{
    let v = u8x16::from_slice(&src[at..]);
    let w = u8x16::from_slice(&src[at + 16..]);
    v.copy_to_slice(&mut dst[at..]);
    w.copy_to_slice(&mut dst[at + 16..]);
    past_in_two(v, w)
}

// The last bytes, one at a time.
#[inline(always)]
#[tactic(auto, using(crate::proofs::RunLemmas::run_len_le, crate::proofs::RunLemmas::ends_at))]
fn copy_tail(src: &[u8], dst: &mut [u8], from: usize) -> usize
    requires { Copied src.now dst.old from }
    ensures count { result ≡ min (run_len src.now) (length dst.old) }
    ensures copied { take result dst.new ≡ take result src.now }
{
    let n = src.len().min(dst.len());
    let mut at = from;
    while at < n {
        let byte = src[at];
        if byte >= 0x80 {
            return at;
        }
        dst[at] = byte;
        at += 1;
    }
    n
}

/// Copies bytes up to the first past ASCII, or as many as fit, and says how many. It may write over
/// what lies behind them.
pub fn ascii_to_ascii(src: &[u8], dst: &mut [u8]) -> usize
    ensures count { result ≡ min (run_len src.now) (length dst.old) }
    ensures copied { take result dst.new ≡ take result src.now }
    ensures len { length dst.new ≡ length dst.old }
{
    let n = src.len().min(dst.len());
    let mut at = 0;
    while n - at >= 32 {
        if let Some(ascii) = copy_double_stride(src, dst, at) {
            return at + ascii;
        }
        at += 32;
    }
    if n - at >= 16 {
        if let Some(ascii) = copy_stride(src, dst, at) {
            return at + ascii;
        }
        at += 16;
    }
    copy_tail(src, dst, at)
}

// Writes one more stride as units, and says which of its bytes is the first past ASCII.
#[inline(always)]
fn unpack_stride(src: &[u8], dst: &mut [u16], at: usize) -> Option<usize>
    requires src { at + 16 ≤ length src.now }
    requires dst { at + 16 ≤ length dst.old }
    requires copied { Copied src.now dst.old at }
    ensures { CopiedOn src.now dst.new at 16 result }
{
    let v = u8x16::from_slice(&src[at..]);
    let units = simd_unpack(v);
    units.copy_to_slice(&mut dst[at..]);
    past_lane(v)
}

// The same by two strides.
#[inline(always)]
fn unpack_double_stride(src: &[u8], dst: &mut [u16], at: usize) -> Option<usize>
    requires src { at + 32 ≤ length src.now }
    requires dst { at + 32 ≤ length dst.old }
    requires copied { Copied src.now dst.old at }
    ensures { CopiedOn src.now dst.new at 32 result }
{
    let v = u8x16::from_slice(&src[at..]);
    let w = u8x16::from_slice(&src[at + 16..]);
    let first = simd_unpack(v);
    let second = simd_unpack(w);
    first.copy_to_slice(&mut dst[at..]);
    second.copy_to_slice(&mut dst[at + 16..]);
    past_in_two(v, w)
}

// The last bytes, one at a time.
#[inline(always)]
#[tactic(auto, using(crate::proofs::RunLemmas::run_len_le, crate::proofs::RunLemmas::ends_at))]
fn unpack_tail(src: &[u8], dst: &mut [u16], from: usize) -> usize
    requires { Copied src.now dst.old from }
    ensures count { result ≡ min (run_len src.now) (length dst.old) }
    ensures copied { take result dst.new ≡ take result src.now }
{
    let n = src.len().min(dst.len());
    let mut at = from;
    while at < n {
        let byte = src[at];
        if byte >= 0x80 {
            return at;
        }
        let unit = u16::from(byte);
        dst[at] = unit;
        at += 1;
    }
    n
}

/// Writes bytes as units up to the first past ASCII, or as many as fit, and says how many. It may
/// write over what lies behind them.
pub fn ascii_to_basic_latin(src: &[u8], dst: &mut [u16]) -> usize
    ensures count { result ≡ min (run_len src.now) (length dst.old) }
    ensures copied { take result dst.new ≡ take result src.now }
    ensures len { length dst.new ≡ length dst.old }
{
    let n = src.len().min(dst.len());
    let mut at = 0;
    while n - at >= 32 {
        if let Some(ascii) = unpack_double_stride(src, dst, at) {
            return at + ascii;
        }
        at += 32;
    }
    if n - at >= 16 {
        if let Some(ascii) = unpack_stride(src, dst, at) {
            return at + ascii;
        }
        at += 16;
    }
    unpack_tail(src, dst, at)
}
