//! Well-formed sequences of UTF-8, by the table of the Encoding Standard's decoder (section 8.1.1;
//! the Unicode Standard, table 3-7).
ghost use Rattle.std.specs.Prelude.{◌≡◌, ◌<◌, ◌≤◌, ◌++◌, length, drop, slice_index, encode_utf8};
ghost use Rattle.std.specs.Char.{IsScalar};
ghost use Rattle.enc_handles.specs.Utf8.{byte_in, is_tail_at, begins_two, begins_three};
ghost use Rattle.enc_handles.specs.Utf8.{begins_four, sequence_len, sequence_scalar};

/// Whether a byte from `low` to `high` stands at place `k`.
#[inline(always)]
pub fn byte_in(bytes: &[u8], k: usize, low: u8, high: u8) -> bool
    ensures { result ≡ byte_in bytes.now k low high }
{
    k < bytes.len() && low <= bytes[k] && bytes[k] <= high
}

// Whether a byte that may stand third or fourth in a sequence is at place `k`.
#[inline(always)]
fn is_tail_at(bytes: &[u8], k: usize) -> bool
    ensures { result ≡ is_tail_at bytes.now k }
{
    byte_in(bytes, k, 0x80, 0xBF)
}

// Whether the bytes begin with a sequence of two, by the bounds of its first byte.
#[inline(always)]
fn begins_two(bytes: &[u8], low: u8, high: u8) -> bool
    ensures { result ≡ begins_two bytes.now low high }
{
    byte_in(bytes, 0, low, high) && is_tail_at(bytes, 1)
}

// Whether the bytes begin with a sequence of three, by the bounds of its first and its second byte.
#[inline(always)]
fn begins_three(bytes: &[u8], low: u8, high: u8, second_low: u8, second_high: u8) -> bool
    ensures { result ≡ begins_three bytes.now low high second_low second_high }
{
    byte_in(bytes, 0, low, high)
        && byte_in(bytes, 1, second_low, second_high)
        && is_tail_at(bytes, 2)
}

// Whether the bytes begin with a sequence of four, by the bounds of its first and its second byte.
#[inline(always)]
fn begins_four(bytes: &[u8], low: u8, high: u8, second_low: u8, second_high: u8) -> bool
    ensures { result ≡ begins_four bytes.now low high second_low second_high }
{
    byte_in(bytes, 0, low, high)
        && byte_in(bytes, 1, second_low, second_high)
        && is_tail_at(bytes, 2)
        && is_tail_at(bytes, 3)
}

/// The length of the sequence at the front, or 0 where none stands there.
#[inline(always)]
#[tactic(auto, unfolding(crate::specs::Utf8::sequence_len))]
pub fn sequence_len(bytes: &[u8]) -> usize
    ensures value { result ≡ sequence_len bytes.now }
    ensures short { result ≤ 4 }
{
    if byte_in(bytes, 0, 0x00, 0x7F) {
        1
    } else if begins_two(bytes, 0xC2, 0xDF) {
        2
    } else if begins_three(bytes, 0xE0, 0xE0, 0xA0, 0xBF) {
        3
    } else if begins_three(bytes, 0xE1, 0xEC, 0x80, 0xBF) {
        3
    } else if begins_three(bytes, 0xED, 0xED, 0x80, 0x9F) {
        3
    } else if begins_three(bytes, 0xEE, 0xEF, 0x80, 0xBF) {
        3
    } else if begins_four(bytes, 0xF0, 0xF0, 0x90, 0xBF) {
        4
    } else if begins_four(bytes, 0xF1, 0xF3, 0x80, 0xBF) {
        4
    } else if begins_four(bytes, 0xF4, 0xF4, 0x80, 0x8F) {
        4
    } else {
        0
    }
}

// The byte at place `k`, or 0 past the end.
#[inline(always)]
fn byte_at(bytes: &[u8], k: usize) -> u32
    ensures value { result ≡ slice_index bytes.now k }
    ensures byte { result < 0x100 }
{
    if k < bytes.len() {
        u32::from(bytes[k])
    } else {
        0
    }
}

// The low bits of the bytes of the sequence at the front, which has `len` bytes, in a row.
#[inline(always)]
#[tactic(auto, unfolding(crate::specs::Utf8::sequence_scalar))]
fn low_bits(bytes: &[u8], len: usize) -> u32
    requires { len ≡ sequence_len bytes.now }
    ensures { result ≡ sequence_scalar bytes.now }
{
    let first = byte_at(bytes, 0);
    let second = byte_at(bytes, 1).saturating_sub(0x80);
    let third = byte_at(bytes, 2).saturating_sub(0x80);
    let fourth = byte_at(bytes, 3).saturating_sub(0x80);
    if len == 4 {
        first.saturating_sub(0xF0) * 0x4_0000 + second * 0x1000 + third * 0x40 + fourth
    } else if len == 3 {
        first.saturating_sub(0xE0) * 0x1000 + second * 0x40 + third
    } else if len == 2 {
        first.saturating_sub(0xC0) * 0x40 + second
    } else {
        first
    }
}

/// The scalar of the sequence at the front, which has `len` bytes.
#[inline(always)]
pub fn sequence_scalar(bytes: &[u8], len: usize) -> u32
    requires len { len ≡ sequence_len bytes.now }
    requires some { 0 < len }
    ensures value { result ≡ sequence_scalar bytes.now }
    ensures scalar { IsScalar result }
    ensures len { length (encode_utf8 result) ≡ len }
    ensures within { len ≤ length bytes.now }
    ensures front { bytes.now ≡ encode_utf8 result ++ drop len bytes.now }
{
    low_bits(bytes, len)
}
