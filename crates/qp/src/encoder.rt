//! Encoding in one pass: what needs no escape and no line break is copied in runs.

ghost use Rattle.std.specs.Prelude.{◌≡◌, ◌+◌, ◌-◌, ◌<◌, ◌≤◌, ◌∷◌, ◌++◌, length, get_or, ◌/◌};
ghost use Rattle.std.specs.Prelude.{◌%◌, ◌==◌, ◌&&◌, ◌||◌, true, false, not, if◌then◌else◌, IfOk};
ghost use Rattle.std.specs.Prelude.{map, take, drop, Ok};
ghost use Rattle.std.specs.Str.{IsUtf8};
ghost use Rattle.qp.specs.Strict.{strict};
ghost use Rattle.qp.specs.declared.InputMode.{InputMode};
ghost use Rattle.qp.specs.Items.{plain, items, octet_item, is_blank, ends_blank, begins_break};
ghost use Rattle.qp.specs.Items.{ends_line, hex_digit, keeps_breaks, may_stand_within, entry_text};
ghost use Rattle.qp.specs.Items.{octet_entry};
ghost use Rattle.qp.specs.Layout.{laid_out, laid_out_from, breaks_before, soft_break, goes_on};

use super::InputMode;
use crate::blocks::put_block;
use crate::lanes::{LANES, first_plain, put};
use crate::spread::DIGITS;
use std::alloc::{AllocError, Global};
use std::simd::prelude::*;

// How many bytes are gathered before they are appended.
pub const ROOM: usize = 4096;

// More than the bytes of a run, a soft line break and an item; twice as many are room for a block.
const TURN: usize = 32;

// `input` in lines of at most `limit` bytes.
pub fn encode(
    alloc: Global,
    input: &[u8],
    limit: usize,
    mode: &InputMode,
) -> Result<Vec<u8>, AllocError>
    requires { 6 ≤ limit }
    ensures value { IfOk result (λ encoded.
        encoded.items ≡ laid_out limit (items mode.now input.now)) }
    ensures reads_back { IfOk result (λ encoded. strict limit encoded.items ≡ Ok input.now) }
    ensures utf8 { IfOk result (λ encoded. IsUtf8 encoded.items) }
{
    let encoded = lay_out(alloc, input, limit, mode)?;
    Ok(encoded)
}

// The same, as one loop over the input.
fn lay_out(
    alloc: Global,
    input: &[u8],
    limit: usize,
    mode: &InputMode,
) -> Result<Vec<u8>, AllocError>
    requires { 6 ≤ limit }
    ensures { IfOk result (λ encoded. encoded.items ≡ laid_out limit (items mode.now input.now)) }
{
    let text = keeps_breaks(mode);
    let mut encoded = Vec::with_capacity(alloc, most_bytes(input.len(), limit))?;
    let mut room = [0u8; ROOM];
    let mut used = 0;
    let mut rest = input;
    while !rest.is_empty() {
        let (len, now, after) = fill(&mut room, rest, limit, used, text);
        encoded.extend_from_slice(&room[..len])?;
        used = now;
        rest = after;
    }
    Ok(encoded)
}

// At least as many bytes as so many bytes of input give: each gives at most three, and a soft line
// break stands behind at least `limit - 3` of these.
fn most_bytes(len: usize, limit: usize) -> usize
    requires { 6 ≤ limit }
{
    let escapes = len.saturating_mul(3);
    escapes.saturating_add((escapes / (limit - 3)).saturating_mul(3))
}

// Whether a CR LF pair of the input is a line break.
fn keeps_breaks(mode: &InputMode) -> bool
    ensures { result ≡ keeps_breaks mode.now }
{
    matches!(mode, InputMode::Text)
}

// Writes the front of `input`, laid out behind `used` bytes of a line, to the front of `room`, and
// gives how many bytes these are, how many the last line has, and what is left: until `room` is
// nearly full.
#[inline(always)]
fn fill<'a>(
    room: &mut [u8],
    input: &'a [u8],
    limit: usize,
    used: usize,
    text: bool,
) -> (usize, usize, &'a [u8])
    requires limit { 6 ≤ limit }
    requires used { used ≤ limit }
    requires room { 64 ≤ length room.old }
    requires some { 0 < length input.now }
    ensures value { (mode : InputMode) → keeps_breaks mode ≡ text →
        take result.0 room.new ++ laid_out_from limit result.1 (items mode result.2.now)
        ≡ laid_out_from limit used (items mode input.now) }
    ensures most { result.1 ≤ limit }
    ensures within { result.0 ≤ length room.old }
    ensures len { length room.new ≡ length room.old }
    ensures shorter { length result.2.now < length input.now }
{
    let mut at = 0;
    let mut now = used;
    let mut rest = input;
    while rest.len() >= TURN && room.len() - at >= 3 * TURN {
        let (end, column, after) = put_block(room, at, rest, limit, now, text);
        at = end;
        now = column;
        rest = after;
    }
    if rest.is_empty() {
        return (at, now, rest);
    }
    put_rest(room, at, rest, limit, now, text)
}

// The same to `room` at `from`, up to the end of `input` or until `room` is nearly full.
fn put_rest<'a>(
    room: &mut [u8],
    from: usize,
    input: &'a [u8],
    limit: usize,
    used: usize,
    text: bool,
) -> (usize, usize, &'a [u8])
    requires limit { 6 ≤ limit }
    requires used { used ≤ limit }
    requires room { from + 32 ≤ length room.old }
    requires some { 0 < length input.now }
    ensures value { (mode : InputMode) → keeps_breaks mode ≡ text →
        take result.0 room.new ++ laid_out_from limit result.1 (items mode result.2.now)
        ≡ take from room.old ++ laid_out_from limit used (items mode input.now) }
    ensures most { result.1 ≤ limit }
    ensures within { result.0 ≤ length room.old }
    ensures len { length room.new ≡ length room.old }
    ensures shorter { length result.2.now < length input.now }
{
    let mut at = from;
    let mut now = used;
    let mut rest = input;
    loop {
        let (end, column, after) = put_front(room, at, rest, limit, now, text);
        if after.is_empty() || room.len() - end < TURN {
            return (end, column, after);
        }
        at = end;
        now = column;
        rest = after;
    }
}

// Writes a run of bytes that stand for themselves, and the item behind it, to `room` at `at`, and
// gives the place behind these, how many bytes their line has then, and what is left.
#[inline(always)]
pub fn put_front<'a>(
    room: &mut [u8],
    at: usize,
    input: &'a [u8],
    limit: usize,
    used: usize,
    text: bool,
) -> (usize, usize, &'a [u8])
    requires limit { 6 ≤ limit }
    requires used { used ≤ limit }
    requires room { at + 32 ≤ length room.old }
    requires some { 0 < length input.now }
    ensures value { (mode : InputMode) → keeps_breaks mode ≡ text →
        take result.0 room.new ++ laid_out_from limit result.1 (items mode result.2.now)
        ≡ take at room.old ++ laid_out_from limit used (items mode input.now) }
    ensures most { result.1 ≤ limit }
    ensures end { result.0 ≤ at + 22 }
    ensures len { length room.new ≡ length room.old }
    ensures shorter { length result.2.now < length input.now }
{
    let run = put_run(room, at, input, limit - used);
    let column = used + run;
    let rest = &input[run..];
    let Some((byte, after)) = rest.split_first() else {
        return (at + run, column, rest);
    };
    if is_break(rest, text) {
        let end = put(room, at + run, b"\r\n");
        return (end, 0, &rest[2..]);
    }
    let (end, now) = put_octet(room, at + run, limit, column, *byte, after, text);
    (end, now, after)
}

// Writes what stands for itself at the front of `text` to `room` at `at`, sixteen bytes at most and
// less than `most`, and gives how many these are. It may write over what lies behind them.
#[inline(always)]
fn put_run(room: &mut [u8], at: usize, text: &[u8], most: usize) -> usize
    requires { at + 16 ≤ length room.old }
    ensures written { take (at + result) room.new ≡ take at room.old ++ take result text.now }
    ensures few { result ≤ 16 }
    ensures within { result ≤ length text.now }
    ensures room { result ≤ most - 1 }
    ensures run { (mode : InputMode) →
        items mode text.now
        ≡ map plain (take result text.now) ++ items mode (drop result text.now) }
    ensures len { length room.new ≡ length room.old }
{
    if text.len() < LANES {
        return 0;
    }
    let run = run_len(text, most);
    u8x16::from_slice(text).copy_to_slice(&mut room[at..]);
    run
}

// How many bytes stand for themselves at the front of `text`: sixteen at most, and less than
// `room`.
#[inline(always)]
fn run_len(text: &[u8], room: usize) -> usize
    requires { 16 ≤ length text.now }
    ensures few { result ≤ 16 }
    ensures room { result ≤ room - 1 }
    ensures run { (mode : InputMode) →
        items mode text.now
        ≡ map plain (take result text.now) ++ items mode (drop result text.now) }
{
    let run = first_plain(text, room.saturating_sub(1));
    if ends_line(&text[run..]) && ends_blank(&text[..run]) {
        return run.saturating_sub(1);
    }
    run
}

// Whether a byte may stand for itself within a line.
#[inline(always)]
pub fn may_stand_within(byte: u8) -> bool
    ensures { result ≡ may_stand_within byte }
{
    (byte >= b' ') & (byte <= b'~') & (byte != b'=') | (byte == b'\t')
}

// Whether a byte is a tab or a space.
#[inline(always)]
pub fn is_blank(byte: u8) -> bool
    ensures { result ≡ is_blank byte }
{
    matches!(byte, b'\t' | b' ')
}

// Whether the last byte is a tab or a space.
#[inline(always)]
pub fn ends_blank(text: &[u8]) -> bool
    ensures { result ≡ ends_blank text.now }
{
    match text.split_last() {
        Some((last, _)) => is_blank(*last),
        None => false,
    }
}

// Whether a line break of a text stands at the front, where CR LF pairs are `kept` as such.
#[inline(always)]
fn is_break(text: &[u8], kept: bool) -> bool
    ensures { result ≡ (kept && begins_break text.now) }
{
    kept && begins_break(text)
}

// Whether a CR LF pair stands at the front.
#[inline(always)]
pub fn begins_break(text: &[u8]) -> bool
    ensures { result ≡ begins_break text.now }
{
    text.len() >= 2 && text[0] == b'\r' && text[1] == b'\n'
}

// Whether a line of the input ends here.
#[inline(always)]
fn ends_line(text: &[u8]) -> bool
    ensures { result ≡ ends_line text.now }
{
    text.is_empty() || begins_break(text)
}

// Writes one byte to `room` at `at`, and gives the place behind it, and how many bytes its line has
// then.
#[inline(always)]
fn put_octet(
    room: &mut [u8],
    at: usize,
    limit: usize,
    used: usize,
    byte: u8,
    after: &[u8],
    text: bool,
) -> (usize, usize)
    requires limit { 6 ≤ limit }
    requires used { used ≤ limit }
    requires room { at + 7 ≤ length room.old }
    ensures value { (mode : InputMode) → keeps_breaks mode ≡ text →
        take result.0 room.new ++ laid_out_from limit result.1 (items mode after.now)
        ≡ take at room.old
        ++ laid_out_from limit used (octet_item byte after.now ∷ items mode after.now) }
    ensures most { result.1 ≤ limit }
    ensures end { result.0 ≤ at + 6 }
    ensures len { length room.new ≡ length room.old }
{
    if ends_line(after) {
        let more = goes_on(after, text);
        return put_item(room, at, limit, used, &last_entry(byte), more);
    }
    put_item(room, at, limit, used, &entry(byte), true)
}

// The entry of a byte behind which a line of the input ends.
fn last_entry(byte: u8) -> [u8; 4]
    ensures { result ≡ octet_entry (may_stand_within byte && not (is_blank byte)) byte }
{
    entry_by(may_stand_within(byte) && !is_blank(byte), byte)
}

// The entry of any other byte.
#[inline(always)]
fn entry(byte: u8) -> [u8; 4]
    ensures { result ≡ octet_entry (may_stand_within byte) byte }
{
    entry_by(may_stand_within(byte), byte)
}

// The entry of a byte that stands for itself, or doesn't.
#[inline(always)]
fn entry_by(stands: bool, byte: u8) -> [u8; 4]
    ensures { result ≡ octet_entry stands byte }
{
    let first = if stands { byte } else { b'=' };
    let wide = if stands { 1 } else { 3 };
    [first, hex_digit(byte / 16), hex_digit(byte % 16), wide]
}

// Whether an item follows before the next line break of the text and before the end.
#[inline(always)]
fn goes_on(after: &[u8], text: bool) -> bool
    ensures { (mode : InputMode) →
        keeps_breaks mode ≡ text → goes_on (items mode after.now) ≡ result }
{
    if after.is_empty() {
        return false;
    }
    !is_break(after, text)
}

// Writes an item, told by its entry, to `room` at `at`, with a soft line break before it where it
// needs one, and gives the place behind it, and how many bytes its line has then.
#[inline(always)]
fn put_item(
    room: &mut [u8],
    at: usize,
    limit: usize,
    used: usize,
    entry: &[u8; 4],
    more: bool,
) -> (usize, usize)
    requires wide { get_or entry.now 3 0 ≤ 3 }
    requires limit { 6 ≤ limit }
    requires used { used ≤ limit }
    requires room { at + 7 ≤ length room.old }
    ensures most { result.1 ≤ limit }
    ensures end { result.0 ≤ at + 6 }
    ensures broken { breaks_before limit used (get_or entry.now 3 0) more ≡ true →
        (take result.0 room.new ≡ take at room.old ++ soft_break ++ entry_text entry.now)
        × (result.1 ≡ get_or entry.now 3 0) }
    ensures fits { breaks_before limit used (get_or entry.now 3 0) more ≡ false →
        (take result.0 room.new ≡ take at room.old ++ entry_text entry.now)
        × (result.1 ≡ used + get_or entry.now 3 0) }
    ensures len { length room.new ≡ length room.old }
{
    let wide = usize::from(entry[3]);
    let left = limit - used;
    if wide > left || (wide == left && more) {
        let line = put(room, at, b"=\r\n");
        let end = put_entry(room, line, entry);
        return (end, wide);
    }
    let end = put_entry(room, at, entry);
    (end, used + wide)
}

// Writes what an entry tells to `room` at `at`, and gives the place behind it. It may write over
// what lies behind that.
#[inline(always)]
fn put_entry(room: &mut [u8], at: usize, entry: &[u8; 4]) -> usize
    requires wide { get_or entry.now 3 0 ≤ 3 }
    requires room { at + 4 ≤ length room.old }
    ensures written { take result room.new ≡ take at room.old ++ entry_text entry.now }
    ensures end { result ≡ at + get_or entry.now 3 0 }
    ensures len { length room.new ≡ length room.old }
{
    put(room, at, &entry[..3]);
    at + usize::from(entry[3])
}

// The upper-case digit of a number below 16.
#[inline(always)]
fn hex_digit(value: u8) -> u8
    requires { value < 16 }
    ensures { result ≡ hex_digit value }
{
    DIGITS[usize::from(value)]
}
