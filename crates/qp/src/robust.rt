//! Robust decoding: nothing of the input is refused.

ghost use Rattle.std.specs.Prelude.{◌≡◌, ◌+◌, ◌<◌, [], ◌∷◌, ◌++◌, ◌≤◌, true, length, get_or, take};
ghost use Rattle.std.specs.Prelude.{drop, ◌==◌, if◌then◌else◌, not, ◌||◌, IfNone, IfSome, IfOk};
ghost use Rattle.std.specs.List.{list_all};
ghost use Rattle.std.specs.Char.{is_digit};
ghost use Rattle.qp.specs.Items.{may_stand_within};
ghost use Rattle.qp.specs.Text.{is_text_octet, is_line_padding, kept, trimmed};
ghost use Rattle.qp.specs.Line.{parts, values, ends_soft, line_value, is_soft, escape_value};
ghost use Rattle.qp.specs.Robust.{robust, line_end};
ghost use Rattle.qp.specs.Digits.{digit_or_none, begins_soft_break};

use crate::encoder::{ROOM, begins_break, ends_blank, may_stand_within};
use crate::lanes::{LANES, plain_lanes, put, wide_plain_lanes};
use memchr::memchr;
use std::alloc::{AllocError, Global};
use std::simd::prelude::*;

// The number that each byte says as a hexadecimal digit, or 255.
const DIGITS: [u8; 256] = *b"\
    \xff\xff\xff\xff\xff\xff\xff\xff\xff\xff\xff\xff\xff\xff\xff\xff\
    \xff\xff\xff\xff\xff\xff\xff\xff\xff\xff\xff\xff\xff\xff\xff\xff\
    \xff\xff\xff\xff\xff\xff\xff\xff\xff\xff\xff\xff\xff\xff\xff\xff\
    \x00\x01\x02\x03\x04\x05\x06\x07\x08\x09\xff\xff\xff\xff\xff\xff\
    \xff\x0a\x0b\x0c\x0d\x0e\x0f\xff\xff\xff\xff\xff\xff\xff\xff\xff\
    \xff\xff\xff\xff\xff\xff\xff\xff\xff\xff\xff\xff\xff\xff\xff\xff\
    \xff\x0a\x0b\x0c\x0d\x0e\x0f\xff\xff\xff\xff\xff\xff\xff\xff\xff\
    \xff\xff\xff\xff\xff\xff\xff\xff\xff\xff\xff\xff\xff\xff\xff\xff\
    \xff\xff\xff\xff\xff\xff\xff\xff\xff\xff\xff\xff\xff\xff\xff\xff\
    \xff\xff\xff\xff\xff\xff\xff\xff\xff\xff\xff\xff\xff\xff\xff\xff\
    \xff\xff\xff\xff\xff\xff\xff\xff\xff\xff\xff\xff\xff\xff\xff\xff\
    \xff\xff\xff\xff\xff\xff\xff\xff\xff\xff\xff\xff\xff\xff\xff\xff\
    \xff\xff\xff\xff\xff\xff\xff\xff\xff\xff\xff\xff\xff\xff\xff\xff\
    \xff\xff\xff\xff\xff\xff\xff\xff\xff\xff\xff\xff\xff\xff\xff\xff\
    \xff\xff\xff\xff\xff\xff\xff\xff\xff\xff\xff\xff\xff\xff\xff\xff\
    \xff\xff\xff\xff\xff\xff\xff\xff\xff\xff\xff\xff\xff\xff\xff\xff";

// As many bytes as a turn of `fill_text` may write, and as it looks at.
const TURN: usize = 35;

// The bytes that `input` stands for, line by line.
pub fn decode(alloc: Global, input: &[u8]) -> Result<Vec<u8>, AllocError>
    ensures { IfOk result (λ bytes. bytes.items ≡ robust input.now) }
{
    let mut decoded = Vec::with_capacity(alloc, input.len())?;
    let mut room = [0u8; ROOM];
    let mut rest = copy_text(&mut decoded, &mut room, input)?;
    while let Some((line, after)) = split_line(rest) {
        let soft = push_line(&mut decoded, &mut room, line)?;
        push_line_end(&mut decoded, soft)?;
        rest = copy_text(&mut decoded, &mut room, after)?;
    }
    push_line(&mut decoded, &mut room, rest)?;
    Ok(decoded)
}

// Appends what the front of `text` stands for, as far as `fill_text` reads it, and gives the rest.
#[inline(always)]
fn copy_text<'a>(
    decoded: &mut Vec<u8>,
    room: &mut [u8],
    text: &'a [u8],
) -> Result<&'a [u8], AllocError>
    ensures value { IfOk result (λ rest.
        decoded.new.items ++ robust rest.now ≡ decoded.old.items ++ robust text.now) }
    ensures shorter { IfOk result (λ rest. length rest.now ≤ length text.now) }
    ensures len { length room.new ≡ length room.old }
{
    let mut rest = text;
    loop {
        let (len, after) = fill_text(room, rest);
        decoded.extend_from_slice(&room[..len])?;
        if after.len() == rest.len() {
            return Ok(after);
        }
        rest = after;
    }
}

// Writes what the front of `text` stands for to the front of `room`, and gives how many bytes these
// are, and the rest: until `put_text` reads no further, or `room` is nearly full.
#[inline(always)]
fn fill_text<'a>(room: &mut [u8], text: &'a [u8]) -> (usize, &'a [u8])
    ensures value { take result.0 room.new ++ robust result.1.now ≡ robust text.now }
    ensures within { result.0 ≤ length room.old }
    ensures len { length room.new ≡ length room.old }
    ensures shorter { length result.1.now ≤ length text.now }
{
    let mut at = 0;
    let mut rest = text;
    while rest.len() >= TURN && room.len() - at >= TURN {
        let (end, after) = put_text(room, at, rest);
        if after.len() == rest.len() {
            return (end, after);
        }
        at = end;
        rest = after;
    }
    (at, rest)
}

// Writes what a run of plain bytes at the front of `text` and the escape or the line break behind
// it stand for to `room` at `at`, and gives the place behind it, and the rest: all of `text` where
// neither stands there, or where blanks may stand at the end of a line.
#[inline(always)]
fn put_text<'a>(room: &mut [u8], at: usize, text: &'a [u8]) -> (usize, &'a [u8])
    requires room { at + 35 ≤ length room.old }
    requires text { 35 ≤ length text.now }
    ensures value { take result.0 room.new ++ robust result.1.now
        ≡ take at room.old ++ robust text.now }
    ensures end { result.0 ≤ at + 35 }
    ensures len { length room.new ≡ length room.old }
    ensures shorter { length result.1.now ≤ length text.now }
{
    let run = wide_plain_lanes(text);
    u8x32::from_slice(text).copy_to_slice(&mut room[at..]);
    let rest = &text[run..];
    if let Some(octet) = escaped_octet(rest) {
        let end = put(room, at + run, &[octet]);
        return (end, &rest[3..]);
    }
    if is_soft_break(rest) {
        return (at + run, &rest[3..]);
    }
    let blank = ends_blank(&text[..run]);
    if !blank && begins_break(rest) {
        let end = put(room, at + run, b"\r\n");
        return (end, &rest[2..]);
    }
    let cut = run.saturating_sub(usize::from(blank));
    if ends_blank(&text[..cut]) {
        return (at, text);
    }
    (at + cut, &text[cut..])
}

// Whether `=` and a CR LF pair stand at the front.
#[inline(always)]
fn is_soft_break(text: &[u8]) -> bool
    ensures { result ≡ begins_soft_break text.now }
{
    text.len() >= 3 && text[0] == b'=' && text[1] == b'\r' && text[2] == b'\n'
}

// The first line that an LF ends, and what follows that LF.
#[inline(always)]
fn split_line(text: &[u8]) -> Option<(&[u8], &[u8])>
    ensures none { IfNone result (robust text.now ≡ line_value (kept text.now)) }
    ensures some { IfSome result (λ found. robust text.now
        ≡ line_value (kept found.0.now) ++ line_end (kept found.0.now) ++ robust found.1.now) }
    ensures shorter { IfSome result (λ found. length found.1.now < length text.now) }
{
    let end = memchr(b'\n', text)?;
    Some((&text[..end], &text[end + 1..]))
}

// Appends the CR LF of a line, unless the line ends in a soft line break.
#[inline(always)]
fn push_line_end(decoded: &mut Vec<u8>, soft: bool) -> Result<(), AllocError>
    ensures { IfOk result (λ _.
        decoded.new.items ≡ decoded.old.items ++ (if soft then [] else 13 ∷ 10 ∷ [])) }
{
    if !soft {
        decoded.push(b'\r')?;
        decoded.push(b'\n')?;
    }
    Ok(())
}

// Appends what one line stands for, without its line break, and says whether it ends in a soft one.
#[inline(always)]
fn push_line(decoded: &mut Vec<u8>, room: &mut [u8], line: &[u8]) -> Result<bool, AllocError>
    ensures value { IfOk result (λ _.
        decoded.new.items ≡ decoded.old.items ++ line_value (kept line.now)) }
    ensures soft { IfOk result (λ soft. soft ≡ is_soft (kept line.now)) }
{
    let mut rest = copy_front(decoded, room, trim_end(line))?;
    while let Some((byte, after)) = split_first_kept(rest) {
        if byte != b'=' {
            decoded.push(byte)?;
            rest = copy_front(decoded, room, after)?;
            continue;
        }
        let Some((high, after)) = split_first_kept(after) else {
            return Ok(true);
        };
        let Some((low, after)) = split_first_kept(after) else {
            decoded.push(byte)?;
            decoded.push(high)?;
            return Ok(false);
        };
        push_escape(decoded, high, low)?;
        rest = copy_front(decoded, room, after)?;
    }
    Ok(false)
}

// Appends what `=` and two bytes after it stand for.
#[inline(always)]
fn push_escape(decoded: &mut Vec<u8>, high: u8, low: u8) -> Result<(), AllocError>
    ensures { IfOk result (λ _. decoded.new.items ≡ decoded.old.items ++ escape_value high low) }
{
    match two_digits(high, low) {
        Some(octet) => decoded.push(octet)?,
        None => {
            decoded.push(b'=')?;
            decoded.push(high)?;
            decoded.push(low)?;
        }
    }
    Ok(())
}

// `line` without what its text loses at the end.
#[inline(always)]
fn trim_end(line: &[u8]) -> &[u8]
    ensures { kept result.now ≡ trimmed (kept line.now) }
{
    let mut rest = line;
    while let Some((last, front)) = rest.split_last() {
        if !is_lost_at_end(*last) {
            break;
        }
        rest = front;
    }
    rest
}

// The first byte of `text` that may stand in quoted-printable text, and what follows it.
#[inline(always)]
fn split_first_kept(text: &[u8]) -> Option<(u8, &[u8])>
    ensures none { IfNone result (kept text.now ≡ []) }
    ensures some { IfSome result (λ found. kept text.now ≡ found.0 ∷ kept found.1.now) }
    ensures shorter { IfSome result (λ found. length found.1.now < length text.now) }
{
    for (i, byte) in text.iter().enumerate() {
        if is_text(*byte) {
            return Some((*byte, &text[i + 1..]));
        }
    }
    None
}

// Appends what the front of `text` stands for, as far as `fill` reads it, and gives the rest.
#[inline(always)]
fn copy_front<'a>(
    decoded: &mut Vec<u8>,
    room: &mut [u8],
    text: &'a [u8],
) -> Result<&'a [u8], AllocError>
    ensures value { IfOk result (λ rest. decoded.new.items ++ values (parts (kept rest.now))
        ≡ decoded.old.items ++ values (parts (kept text.now))) }
    ensures soft { IfOk result (λ rest.
        ends_soft (parts (kept rest.now)) ≡ ends_soft (parts (kept text.now))) }
    ensures shorter { IfOk result (λ rest. length rest.now ≤ length text.now) }
{
    let (len, rest) = fill(room, text);
    decoded.extend_from_slice(&room[..len])?;
    Ok(rest)
}

// Writes what the front of `text` stands for to the front of `room`, and gives how many bytes these
// are, and the rest: up to a byte that isn't plain and begins no escape of two digits, or until
// `room` is full.
#[inline(always)]
fn fill<'a>(room: &mut [u8], text: &'a [u8]) -> (usize, &'a [u8])
    ensures value { take result.0 room.new ++ values (parts (kept result.1.now))
        ≡ values (parts (kept text.now)) }
    ensures soft { ends_soft (parts (kept result.1.now)) ≡ ends_soft (parts (kept text.now)) }
    ensures within { result.0 ≤ length room.old }
    ensures len { length room.new ≡ length room.old }
    ensures shorter { length result.1.now ≤ length text.now }
{
    let mut len = 0;
    let mut rest = text;
    while len < room.len() {
        if let Some(octet) = escaped_octet(rest) {
            room[len] = octet;
            len += 1;
            rest = &rest[3..];
            continue;
        }
        let run = put_run(room, len, rest);
        if run == 0 {
            return (len, rest);
        }
        len += run;
        rest = &rest[run..];
    }
    (len, rest)
}

// Writes plain bytes at the front of `text` to `room` at `at`, and gives how many: up to sixteen at
// once, or one. It may write over what lies behind them.
#[inline(always)]
fn put_run(room: &mut [u8], at: usize, text: &[u8]) -> usize
    requires { at < length room.old }
    ensures written { take (at + result) room.new ≡ take at room.old ++ take result text.now }
    ensures run { list_all may_stand_within (take result text.now) ≡ true }
    ensures within { at + result ≤ length room.old }
    ensures few { result ≤ length text.now }
    ensures len { length room.new ≡ length room.old }
{
    if text.len() >= LANES && room.len() - at >= LANES {
        let run = plain_lanes(text, 0);
        u8x16::from_slice(text).copy_to_slice(&mut room[at..]);
        return run;
    }
    if text.is_empty() {
        return 0;
    }
    let byte = text[0];
    if !may_stand_within(byte) {
        return 0;
    }
    room[at] = byte;
    1
}

// The byte that `=` and two digits at the front of `text` say.
#[inline(always)]
fn escaped_octet(text: &[u8]) -> Option<u8>
    ensures value { IfSome result (λ octet.
        values (parts (kept text.now)) ≡ octet ∷ values (parts (kept (drop 3 text.now)))) }
    ensures soft { IfSome result (λ _.
        ends_soft (parts (kept (drop 3 text.now))) ≡ ends_soft (parts (kept text.now))) }
    ensures robust { IfSome result (λ octet. robust text.now ≡ octet ∷ robust (drop 3 text.now)) }
    ensures sign { IfSome result (λ _. (get_or text.now 0 0 == 61) ≡ true) }
    ensures long { IfSome result (λ _. 3 ≤ length text.now) }
{
    if text.len() < 3 || text[0] != b'=' {
        return None;
    }
    let octet = two_digits(text[1], text[2])?;
    Some(octet)
}

// The byte that two digits say.
#[inline(always)]
fn two_digits(high: u8, low: u8) -> Option<u8>
    ensures value { IfSome result (λ octet. escape_value high low ≡ octet ∷ []) }
    ensures high { IfSome result (λ _. is_digit high 16 ≡ true) }
    ensures low { IfSome result (λ _. is_digit low 16 ≡ true) }
    ensures none { IfNone result (escape_value high low ≡ 61 ∷ high ∷ low ∷ []) }
{
    let tens = digit(high);
    if tens >= 16 {
        return None;
    }
    let ones = digit(low);
    if ones >= 16 {
        return None;
    }
    Some(tens * 16 + ones)
}

// Whether a byte is a hexadecimal digit of either case.
#[inline(always)]
pub fn is_hex(byte: u8) -> bool
    ensures { result ≡ is_digit byte 16 }
{
    digit(byte) < 16
}

// The number that a digit of either case says, or 255.
#[inline(always)]
fn digit(byte: u8) -> u8
    ensures { result ≡ digit_or_none byte }
{
    DIGITS[usize::from(byte)]
}

// Whether a byte may stand in quoted-printable text.
#[inline(always)]
fn is_text(byte: u8) -> bool
    ensures { result ≡ is_text_octet byte }
{
    matches!(byte, b'\t' | b'\n' | b'\r' | b' '..=b'~')
}

// Whether a line loses this byte at its end: white space, or what may not stand in text at all.
#[inline(always)]
fn is_lost_at_end(byte: u8) -> bool
    ensures { result ≡ (not (is_text_octet byte) || is_line_padding byte) }
{
    !is_text(byte) || matches!(byte, b'\t' | b'\r' | b' ')
}
