//! A copy of the ASCII at the front of a list of code units, by strides of sixteen.
ghost use Rattle.std.specs.Prelude.{◌≡◌, ◌+◌, ◌≤◌, length, take, min, IsTrue, IsFalse};
ghost use Rattle.enc_strides.specs.Runs.{run_len, Copied};

use enc_strides::simd_funcs::{simd_is_basic_latin, simd_pack};
use std::simd::prelude::*;

// Copies on by sixteen units if all of them are ASCII.
#[inline(always)]
fn copy_stride(src: &[u16], dst: &mut [u8], at: usize) -> bool
    requires src { at + 16 ≤ length src.now }
    requires dst { at + 16 ≤ length dst.old }
    requires copied { Copied src.now dst.old at }
    ensures copied { IsTrue result → Copied src.now dst.new (at + 16) }
    ensures stays { IsFalse result → Copied src.now dst.new at }
{
    let first = u16x8::from_slice(&src[at..]);
    let second = u16x8::from_slice(&src[at + 8..]);
    if !simd_is_basic_latin(first) || !simd_is_basic_latin(second) {
        return false;
    }
    simd_pack(first, second).copy_to_slice(&mut dst[at..]);
    true
}

// Copies on by one unit after another.
#[tactic(auto, using(enc_strides::proofs::RunLemmas::run_len_le, enc_strides::proofs::RunLemmas::ends_at))]
fn copy_tail(src: &[u16], dst: &mut [u8], from: usize) -> usize
    requires { Copied src.now dst.old from }
    ensures count { result ≡ min (run_len src.now) (length dst.old) }
    ensures copied { take result dst.new ≡ take result src.now }
{
    let end = src.len().min(dst.len());
    let mut at = from;
    while at < end {
        let unit = src[at];
        if unit >= 0x80 {
            return at;
        }
        dst[at] = unit as u8;
        at += 1;
    }
    end
}

// Copies code units up to the first past ASCII, or as many as fit, and says how many.
pub(crate) fn basic_latin_to_ascii(src: &[u16], dst: &mut [u8]) -> usize
    ensures count { result ≡ min (run_len src.now) (length dst.old) }
    ensures copied { take result dst.new ≡ take result src.now }
{
    let end = src.len().min(dst.len());
    let mut at = 0;
    while end - at >= 16 {
        if !copy_stride(src, dst, at) {
            break;
        }
        at += 16;
    }
    copy_tail(src, dst, at)
}
