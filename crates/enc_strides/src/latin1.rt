//! The first byte that begins a scalar above U+00FF in UTF-8.
ghost use Rattle.std.specs.Prelude.{◌≡◌};
ghost use Rattle.std.specs.List.{position};
ghost use Rattle.enc_strides.specs.Lanes.{is_past_latin1_lead};

use crate::lanes::{bytes_from, lowest};
use std::simd::prelude::*;

/// The first place with a byte above C3.
#[inline(always)]
pub fn validate_latin1_str_simd(s: u8x16) -> Option<usize>
    ensures { result ≡ position is_past_latin1_lead s }
{
    lowest(bytes_from(s, 0xC4))
}

/// The same of a stride.
#[inline(always)]
pub fn validate_latin1_str_stride(stride: &[u8; 16]) -> Option<usize>
    ensures { result ≡ position is_past_latin1_lead stride.now }
{
    validate_latin1_str_simd(u8x16::from_array(*stride))
}
