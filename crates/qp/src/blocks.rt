//! Encoding up to sixteen bytes of a line at once.

ghost use Rattle.std.specs.Prelude.{◌≡◌, ◌+◌, ◌-◌, ◌<◌, ◌≤◌, ◌++◌, length, take, drop};
ghost use Rattle.std.specs.Prelude.{nat_lt, nat_le, ◌&&◌, ◌||◌, true, false, if◌then◌else◌};
ghost use Rattle.qp.specs.declared.InputMode.{InputMode};
ghost use Rattle.qp.specs.Blocks.{escapes_of, goes_within, spread};
ghost use Rattle.qp.specs.Items.{begins_break, items, keeps_breaks};
ghost use Rattle.qp.specs.Layout.{laid_out_from};

use crate::encoder::put_front;
use crate::lanes::put;
use crate::spread::{escape_mask, fitting_len, put_spread, spread_len, within_len};
use std::simd::prelude::*;

// Writes up to sixteen bytes of a line and the line break of the text behind them, or a soft line
// break among them, to `room` at `at`, and gives the place behind these, how many bytes their line
// has then, and what is left. It may write over what lies behind them.
#[inline(always)]
pub fn put_block<'a>(
    room: &mut [u8],
    at: usize,
    input: &'a [u8],
    limit: usize,
    used: usize,
    text: bool,
) -> (usize, usize, &'a [u8])
    requires limit { 6 ≤ limit }
    requires used { used ≤ limit }
    requires room { at + 64 ≤ length room.old }
    requires some { 18 ≤ length input.now }
    ensures value { (mode : InputMode) → keeps_breaks mode ≡ text →
        take result.0 room.new ++ laid_out_from limit result.1 (items mode result.2.now)
        ≡ take at room.old ++ laid_out_from limit used (items mode input.now) }
    ensures most { result.1 ≤ limit }
    ensures end { result.0 ≤ at + 64 }
    ensures len { length room.new ≡ length room.old }
    ensures shorter { length result.2.now < length input.now }
{
    let len = within_len(input);
    if len == 0 {
        return put_front(room, at, input, limit, used, text);
    }
    let mask = escape_mask(input);
    let hard = text & breaks_at(input, len);
    let size = spread_len(mask, len);
    if !fits(size, limit - used, hard) {
        return put_broken(room, at, input, limit, used, text, len);
    }
    put_bytes(room, at, input, mask, len, size);
    put(room, at + size, b"\r\n");
    let skip = break_len(hard);
    (
        at + size + skip,
        column(hard, used + size),
        &input[len + skip..],
    )
}

// Writes the first `len` bytes to `room` at `at`, as the `size` bytes that they stand for. It may
// write over what lies behind these.
#[inline(always)]
fn put_bytes(room: &mut [u8], at: usize, text: &[u8], mask: u64, len: usize, size: usize)
    requires text { 16 ≤ length text.now }
    requires room { at + 64 ≤ length room.old }
    requires mask { mask ≡ escapes_of text.now }
    requires len { len ≤ 16 }
    requires size { size ≡ length (spread (take len text.now)) }
    ensures written { take (at + size) room.new
        ≡ take at room.old ++ spread (take len text.now) }
    ensures len { length room.new ≡ length room.old }
{
    if size == len {
        u8x16::from_slice(text).copy_to_slice(&mut room[at..]);
        return;
    }
    put_spread(room, at, text, mask);
}

// A block of which the first `len` bytes don't fit on the line: a soft line break stands among
// them.
fn put_broken<'a>(
    room: &mut [u8],
    at: usize,
    input: &'a [u8],
    limit: usize,
    used: usize,
    text: bool,
    len: usize,
) -> (usize, usize, &'a [u8])
    requires limit { 6 ≤ limit }
    requires used { used ≤ limit }
    requires room { at + 64 ≤ length room.old }
    requires some { 18 ≤ length input.now }
    requires len { len ≤ 16 }
    requires within { goes_within len input.now ≡ true }
    requires broken { (mode : InputMode) → keeps_breaks mode ≡ text →
        (nat_lt (length (spread (take len input.now))) (limit - used)
        || ((keeps_breaks mode && begins_break (drop len input.now))
        && nat_le (length (spread (take len input.now))) (limit - used))) ≡ false }
    ensures value { (mode : InputMode) → keeps_breaks mode ≡ text →
        take result.0 room.new ++ laid_out_from limit result.1 (items mode result.2.now)
        ≡ take at room.old ++ laid_out_from limit used (items mode input.now) }
    ensures most { result.1 ≤ limit }
    ensures end { result.0 ≤ at + 64 }
    ensures len { length room.new ≡ length room.old }
    ensures shorter { length result.2.now < length input.now }
{
    let mask = escape_mask(input);
    let most = fitting_len(mask, len.saturating_sub(1), limit - used);
    if most == 0 {
        return put_front(room, at, input, limit, used, text);
    }
    let size = spread_len(mask, most);
    put_spread(room, at, input, mask);
    let end = put(room, at + size, b"=\r\n");
    (end, 0, &input[most..])
}

// Whether so many bytes fit where `left` bytes are left of a line, which a hard line break may end.
#[inline(always)]
fn fits(size: usize, left: usize, hard: bool) -> bool
    ensures { result ≡ (nat_lt size left || (hard && nat_le size left)) }
{
    (size < left) | (hard & (size <= left))
}

// Whether a CR LF pair stands at `at`.
#[inline(always)]
fn breaks_at(text: &[u8], at: usize) -> bool
    requires { at + 2 ≤ length text.now }
    ensures { result ≡ begins_break (drop at text.now) }
{
    (text[at] == b'\r') & (text[at + 1] == b'\n')
}

// How many bytes a line break of the text has, where one stands.
#[inline(always)]
fn break_len(hard: bool) -> usize
    ensures value { result ≡ (if hard then 2 else 0) }
    ensures few { result ≤ 2 }
{
    if hard { 2 } else { 0 }
}

// How many bytes a line has then.
#[inline(always)]
fn column(hard: bool, used: usize) -> usize
    ensures { result ≡ (if hard then 0 else used) }
{
    if hard { 0 } else { used }
}
