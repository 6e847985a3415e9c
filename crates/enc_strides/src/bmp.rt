//! The first surrogate.
ghost use Rattle.std.specs.Prelude.{◌≡◌};
ghost use Rattle.std.specs.List.{position};
ghost use Rattle.enc_strides.specs.Lanes.{is_surrogate};

use crate::lanes::{lowest, stride_in};
use std::simd::prelude::*;

/// The place of the first surrogate of a stride.
#[inline(always)]
pub fn validate_bmp_stride(stride: &[u16; 16]) -> Option<usize>
    ensures { result ≡ position is_surrogate stride.now }
{
    lowest(stride_in(u16x16::from_array(*stride), 0xD800, 0xE000))
}
