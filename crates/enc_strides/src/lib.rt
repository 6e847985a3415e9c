//! Kernels on sixteen bytes or eight or sixteen units of UTF-16 at once, each with the meaning of
//! its lanes. A stride is sixteen elements, a double stride twice as many. The definitions are in
//! `specs/`.
#![tactic(auto)]

pub mod ascii;
pub mod bmp;
mod lanes;
pub mod latin1;
pub mod laws;
pub mod runs;
pub mod simd_funcs;
#[cfg(test)]
mod tests;
pub mod utf8;
