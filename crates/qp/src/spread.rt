//! Sixteen bytes at once, each as itself or as `=` and its two digits.

ghost use Rattle.std.specs.Prelude.{◌≡◌, ℕ, List, ◌+◌, ◌-◌, ◌/◌, ◌%◌, ◌<◌, ◌≤◌, ◌==◌, true, not};
ghost use Rattle.std.specs.Prelude.{length, take, drop, map, ◌*◌, ◌++◌};
ghost use Rattle.std.specs.List.{list_all};
ghost use Rattle.std.specs.Simd.Lanes.{mask_l};
ghost use Rattle.qp.specs.Items.{hex_digit};
ghost use Rattle.qp.specs.Blocks.{needs_escape, spread, escapes_of, goes_within, group_of};

use crate::encoder::ends_blank;
use crate::lanes::{LANES, first_set};
use std::simd::prelude::*;

// The upper-case hexadecimal digits.
pub const DIGITS: [u8; 16] = *b"0123456789ABCDEF";

// For each set of four bytes that are escaped, where what is written for the four stands in their
// group: the bytes, their high digits, their low digits, and `=`.
const PLACES: [u8; 256] = *b"\
    \x00\x01\x02\x03\x00\x00\x00\x00\x00\x00\x00\x00\x00\x00\x00\x00\
    \x0c\x04\x08\x01\x02\x03\x00\x00\x00\x00\x00\x00\x00\x00\x00\x00\
    \x00\x0c\x05\x09\x02\x03\x00\x00\x00\x00\x00\x00\x00\x00\x00\x00\
    \x0c\x04\x08\x0c\x05\x09\x02\x03\x00\x00\x00\x00\x00\x00\x00\x00\
    \x00\x01\x0c\x06\x0a\x03\x00\x00\x00\x00\x00\x00\x00\x00\x00\x00\
    \x0c\x04\x08\x01\x0c\x06\x0a\x03\x00\x00\x00\x00\x00\x00\x00\x00\
    \x00\x0c\x05\x09\x0c\x06\x0a\x03\x00\x00\x00\x00\x00\x00\x00\x00\
    \x0c\x04\x08\x0c\x05\x09\x0c\x06\x0a\x03\x00\x00\x00\x00\x00\x00\
    \x00\x01\x02\x0c\x07\x0b\x00\x00\x00\x00\x00\x00\x00\x00\x00\x00\
    \x0c\x04\x08\x01\x02\x0c\x07\x0b\x00\x00\x00\x00\x00\x00\x00\x00\
    \x00\x0c\x05\x09\x02\x0c\x07\x0b\x00\x00\x00\x00\x00\x00\x00\x00\
    \x0c\x04\x08\x0c\x05\x09\x02\x0c\x07\x0b\x00\x00\x00\x00\x00\x00\
    \x00\x01\x0c\x06\x0a\x0c\x07\x0b\x00\x00\x00\x00\x00\x00\x00\x00\
    \x0c\x04\x08\x01\x0c\x06\x0a\x0c\x07\x0b\x00\x00\x00\x00\x00\x00\
    \x00\x0c\x05\x09\x0c\x06\x0a\x0c\x07\x0b\x00\x00\x00\x00\x00\x00\
    \x0c\x04\x08\x0c\x05\x09\x0c\x06\x0a\x0c\x07\x0b\x00\x00\x00\x00";

// Which of the first sixteen bytes need an escape within a line, the first by the lowest bit.
#[inline(always)]
pub fn escape_mask(text: &[u8]) -> u64
    requires { 16 ≤ length text.now }
    ensures { result ≡ escapes_of text.now }
{
    let v = u8x16::from_slice(text);
    let low = v.simd_lt(u8x16::splat(b' ')) & v.simd_ne(u8x16::splat(b'\t'));
    let stops = low | v.simd_eq(u8x16::splat(b'=')) | v.simd_ge(u8x16::splat(0x7F));
    stops.to_bitmask()
}

// How many of the first sixteen bytes stand before the first CR.
#[inline(always)]
fn before_return(text: &[u8]) -> usize
    requires { 16 ≤ length text.now }
    ensures few { result ≤ 16 }
    ensures run { list_all (λ b. not (b == 13)) (take result text.now) ≡ true }
{
    let v = u8x16::from_slice(text);
    first_set(v.simd_eq(u8x16::splat(b'\r')).to_bitmask(), LANES)
}

// How many of the first sixteen bytes stand before the first CR and before a blank that may end a
// line.
#[inline(always)]
pub fn within_len(text: &[u8]) -> usize
    requires { 16 ≤ length text.now }
    ensures few { result ≤ 16 }
    ensures within { goes_within result text.now ≡ true }
{
    let run = before_return(text);
    if ends_blank(&text[..run]) {
        return run.saturating_sub(1);
    }
    run
}

// The bytes that are written for the first bytes, told by the mask of those that need an escape.
#[inline(always)]
pub fn spread_len(mask: u64, len: usize) -> usize
    requires { len ≤ 16 }
    ensures { (text : List ℕ) → len ≤ length text → mask ≡ escapes_of text →
        result ≡ length (spread (take len text)) }
{
    let escapes = (mask % (1 << len)).count_ones() as usize;
    len + 2 * escapes
}

// Of the first `len` bytes, as many as are written as less than `left` bytes.
pub fn fitting_len(mask: u64, len: usize, left: usize) -> usize
    requires { len ≤ 16 }
    ensures few { result ≤ len }
    ensures fits { (text : List ℕ) → len ≤ length text → mask ≡ escapes_of text →
        length (spread (take result text)) ≤ left - 1 }
    ensures next { (text : List ℕ) → len ≤ length text → mask ≡ escapes_of text → result < len →
        left ≤ length (spread (take (result + 1) text)) }
{
    let mut most = len;
    while most > 0 {
        if spread_len(mask, most) < left {
            return most;
        }
        most -= 1;
    }
    0
}

// The digits of the high halves of the first sixteen bytes.
#[inline(always)]
fn high_digits(text: &[u8]) -> u8x16
    requires { 16 ≤ length text.now }
    ensures { result ≡ map (λ b. hex_digit (b / 16)) (take 16 text.now) }
{
    let v = u8x16::from_slice(text);
    u8x16::from_array(DIGITS).swizzle_dyn(v >> u8x16::splat(4))
}

// The digits of their low halves.
#[inline(always)]
fn low_digits(text: &[u8]) -> u8x16
    requires { 16 ≤ length text.now }
    ensures { result ≡ map (λ b. hex_digit (b % 16)) (take 16 text.now) }
{
    let v = u8x16::from_slice(text);
    u8x16::from_array(DIGITS).swizzle_dyn(v & u8x16::splat(15))
}

// The first four of sixteen bytes, their digits and `=`.
#[inline(always)]
fn first_group(v: u8x16, high: u8x16, low: u8x16) -> u8x16
    ensures { result ≡ group_of 0 v high low }
{
    let front = v.shuffle(
        high,
        [0, 1, 2, 3, 16, 17, 18, 19, 4, 5, 6, 7, 20, 21, 22, 23],
    );
    let back = low.shuffle(
        u8x16::splat(b'='),
        [0, 1, 2, 3, 16, 17, 18, 19, 4, 5, 6, 7, 20, 21, 22, 23],
    );
    front.shuffle(
        back,
        [0, 1, 2, 3, 4, 5, 6, 7, 16, 17, 18, 19, 20, 21, 22, 23],
    )
}

// The next four.
#[inline(always)]
fn second_group(v: u8x16, high: u8x16, low: u8x16) -> u8x16
    ensures { result ≡ group_of 4 v high low }
{
    let front = v.shuffle(
        high,
        [0, 1, 2, 3, 16, 17, 18, 19, 4, 5, 6, 7, 20, 21, 22, 23],
    );
    let back = low.shuffle(
        u8x16::splat(b'='),
        [0, 1, 2, 3, 16, 17, 18, 19, 4, 5, 6, 7, 20, 21, 22, 23],
    );
    front.shuffle(
        back,
        [8, 9, 10, 11, 12, 13, 14, 15, 24, 25, 26, 27, 28, 29, 30, 31],
    )
}

// The third four.
#[inline(always)]
fn third_group(v: u8x16, high: u8x16, low: u8x16) -> u8x16
    ensures { result ≡ group_of 8 v high low }
{
    let front = v.shuffle(
        high,
        [8, 9, 10, 11, 24, 25, 26, 27, 12, 13, 14, 15, 28, 29, 30, 31],
    );
    let back = low.shuffle(
        u8x16::splat(b'='),
        [8, 9, 10, 11, 24, 25, 26, 27, 12, 13, 14, 15, 28, 29, 30, 31],
    );
    front.shuffle(
        back,
        [0, 1, 2, 3, 4, 5, 6, 7, 16, 17, 18, 19, 20, 21, 22, 23],
    )
}

// The last four.
#[inline(always)]
fn last_group(v: u8x16, high: u8x16, low: u8x16) -> u8x16
    ensures { result ≡ group_of 12 v high low }
{
    let front = v.shuffle(
        high,
        [8, 9, 10, 11, 24, 25, 26, 27, 12, 13, 14, 15, 28, 29, 30, 31],
    );
    let back = low.shuffle(
        u8x16::splat(b'='),
        [8, 9, 10, 11, 24, 25, 26, 27, 12, 13, 14, 15, 28, 29, 30, 31],
    );
    front.shuffle(
        back,
        [8, 9, 10, 11, 12, 13, 14, 15, 24, 25, 26, 27, 28, 29, 30, 31],
    )
}

// A row of a table of sixteen rows.
#[inline(always)]
fn row(table: &[u8], set: u64) -> u8x16
    requires set { set < 16 }
    requires table { 256 ≤ length table.now }
    ensures { result ≡ take 16 (drop (16 * set) table.now) }
{
    u8x16::from_slice(&table[16 * set as usize..])
}

// Writes what a group stands for to `room` at `at`, where `set` tells which of its bytes need an
// escape, and gives the place behind it. It may write over what lies behind that.
#[inline(always)]
fn put_four(room: &mut [u8], at: usize, group: u8x16, set: u64) -> usize
    requires set { set < 16 }
    requires room { at + 16 ≤ length room.old }
    ensures end { (four : List ℕ) → set ≡ mask_l (map needs_escape four) → length four ≡ 4 →
        result ≡ at + length (spread four) }
    ensures written { (k : ℕ) (v : List ℕ) → k + 4 ≤ length v →
        set ≡ mask_l (map needs_escape (take 4 (drop k v))) →
        group ≡ group_of k v (map (λ b. hex_digit (b / 16)) v) (map (λ b. hex_digit (b % 16)) v) →
        take result room.new ≡ take at room.old ++ spread (take 4 (drop k v)) }
    ensures few { result ≤ at + 12 }
    ensures len { length room.new ≡ length room.old }
{
    let places = row(&PLACES, set);
    group.swizzle_dyn(places).copy_to_slice(&mut room[at..]);
    at + 4 + 2 * set.count_ones() as usize
}

// Writes what sixteen bytes stand for to `room` at `at`, where `mask` tells which of them need an
// escape. It may write over what lies behind that.
#[inline(always)]
pub fn put_spread(room: &mut [u8], at: usize, text: &[u8], mask: u64)
    requires text { 16 ≤ length text.now }
    requires room { at + 64 ≤ length room.old }
    requires mask { mask ≡ escapes_of text.now }
    ensures written { take (at + length (spread (take 16 text.now))) room.new
        ≡ take at room.old ++ spread (take 16 text.now) }
    ensures len { length room.new ≡ length room.old }
{
    let v = u8x16::from_slice(text);
    let high = high_digits(text);
    let low = low_digits(text);
    let first = put_four(room, at, first_group(v, high, low), mask % 16);
    let second = put_four(room, first, second_group(v, high, low), mask / 16 % 16);
    let third = put_four(room, second, third_group(v, high, low), mask / 256 % 16);
    put_four(room, third, last_group(v, high, low), mask / 4096 % 16);
}
