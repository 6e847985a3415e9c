//! The faults that strict decoding refuses.

ghost use Rattle.std.specs.Prelude.{◌≡◌, ◌<◌, ◌≤◌, ◌+◌, [], ◌∷◌, ◌==◌, ◌&&◌, ◌||◌, not};
ghost use Rattle.std.specs.Prelude.{if◌then◌else◌, length, IfOk, IfErr, IfSome, IfNone, Some, None};
ghost use Rattle.std.specs.Char.{is_digit};
ghost use Rattle.qp.specs.Text.{is_text_octet, is_line_padding, trimmed, lines};
ghost use Rattle.qp.specs.Line.{escape, parts, ends_soft, is_soft};
ghost use Rattle.qp.specs.Items.{begins_break};
ghost use Rattle.qp.specs.Strict.{has_invalid_byte, first_fault, part_fault, is_lowercase_digit};
ghost use Rattle.qp.specs.Strict.{line_fault, lines_fault, without_empty_end, strict_fault};

use super::QuotedPrintableError;
use crate::encoder::begins_break;
use crate::lanes::{LANES, plain_lanes, printable_lanes};
use crate::robust::is_hex;
use memchr::memchr;

// The first fault of `input`, where it has one.
#[tactic(auto, unfolding(crate::specs::Strict::strict_fault))]
pub fn find_fault(input: &[u8], limit: usize) -> Option<QuotedPrintableError>
    ensures { result ≡ strict_fault limit input.now }
{
    if has_invalid_byte(input) {
        return Some(QuotedPrintableError::InvalidByte);
    }
    find_line_fault(input, limit)
}

// Whether a byte may not stand in quoted-printable text, or a CR or LF stands outside a CR LF pair.
fn has_invalid_byte(input: &[u8]) -> bool
    ensures { result ≡ has_invalid_byte input.now }
{
    let mut rest = skip_printable(input);
    while let Some((byte, after)) = rest.split_first() {
        if begins_break(rest) {
            rest = skip_printable(&rest[2..]);
            continue;
        }
        if !stands_alone(*byte) {
            return true;
        }
        rest = skip_printable(after);
    }
    false
}

// What follows printable bytes at the front of `text`, which are looked at sixteen at a time.
#[inline(always)]
fn skip_printable(text: &[u8]) -> &[u8]
    ensures same { has_invalid_byte result.now ≡ has_invalid_byte text.now }
    ensures shorter { length result.now ≤ length text.now }
{
    let mut rest = text;
    while rest.len() >= LANES {
        let run = printable_lanes(rest, 0);
        rest = &rest[run..];
        if run < LANES {
            return rest;
        }
    }
    rest
}

// Whether a byte may stand in quoted-printable text outside a line break.
#[inline(always)]
fn stands_alone(byte: u8) -> bool
    ensures { result ≡ (is_text_octet byte && not ((byte == 13) || (byte == 10))) }
{
    matches!(byte, b'\t' | b' '..=b'~')
}

// The first fault of the lines of `input`, where they have one.
fn find_line_fault(input: &[u8], limit: usize) -> Option<QuotedPrintableError>
    ensures { result ≡ lines_fault limit (without_empty_end (lines input.now)) }
{
    let mut rest = input;
    let mut hard = false;
    let mut soft = false;
    while let Some((line, after)) = split_line(rest) {
        match scan_line(line, limit) {
            Ok(line_is_soft) => {
                hard |= !line_is_soft;
                soft = line_is_soft;
                rest = after;
            }
            Err(fault) => return Some(fault),
        }
    }
    end_fault(soft, hard)
}

// The fault of the end of the lines, of which the last is `soft`, or some `hard`.
#[inline(always)]
fn end_fault(soft: bool, hard: bool) -> Option<QuotedPrintableError>
    ensures { result
        ≡ (if soft && hard then Some QuotedPrintableError.IncompleteHexOctet else None) }
{
    if soft && hard {
        return Some(QuotedPrintableError::IncompleteHexOctet);
    }
    None
}

// The first line, where there is one, and what follows its LF.
#[inline(always)]
fn split_line(text: &[u8]) -> Option<(&[u8], &[u8])>
    ensures none { IfNone result (without_empty_end (lines text.now) ≡ []) }
    ensures some { IfSome result (λ found.
        without_empty_end (lines text.now) ≡ found.0.now ∷ without_empty_end (lines found.1.now)) }
    ensures shorter { IfSome result (λ found. length found.1.now < length text.now) }
{
    if text.is_empty() {
        return None;
    }
    match memchr(b'\n', text) {
        Some(end) => Some((&text[..end], &text[end + 1..])),
        None => Some((text, &text[..0])),
    }
}

// Whether a line ends in a soft line break, or its first fault.
#[tactic(auto, unfolding(crate::specs::Strict::line_fault, crate::specs::Line::is_soft))]
fn scan_line(line: &[u8], limit: usize) -> Result<bool, QuotedPrintableError>
    ensures soft { IfOk result (λ soft. soft ≡ is_soft line.now) }
    ensures none { IfOk result (λ _. line_fault limit line.now ≡ None) }
    ensures fault { IfErr result (λ fault. line_fault limit line.now ≡ Some fault) }
{
    let text = trim_end(line);
    if text.len() > limit {
        return Err(QuotedPrintableError::LineTooLong);
    }
    scan_parts(text)
}

// Whether a trimmed line ends in a soft line break, or the first fault of its escapes.
#[inline(always)]
fn scan_parts(text: &[u8]) -> Result<bool, QuotedPrintableError>
    ensures soft { IfOk result (λ soft. soft ≡ ends_soft (parts text.now)) }
    ensures none { IfOk result (λ _. first_fault part_fault (parts text.now) ≡ None) }
    ensures fault { IfErr result (λ fault. first_fault part_fault (parts text.now) ≡ Some fault) }
{
    let mut rest = skip_plain(text);
    while let Some((byte, after)) = rest.split_first() {
        if *byte != b'=' {
            rest = skip_plain(after);
            continue;
        }
        let Some((high, after)) = after.split_first() else {
            return Ok(true);
        };
        let Some((low, after)) = after.split_first() else {
            return Err(QuotedPrintableError::IncompleteHexOctet);
        };
        match escape_fault(*high, *low) {
            Some(fault) => return Err(fault),
            None => rest = skip_plain(after),
        }
    }
    Ok(false)
}

// What follows bytes at the front of `text` that stand for themselves, which are looked at sixteen
// at a time.
#[inline(always)]
fn skip_plain(text: &[u8]) -> &[u8]
    ensures soft { ends_soft (parts result.now) ≡ ends_soft (parts text.now) }
    ensures fault { first_fault part_fault (parts result.now)
        ≡ first_fault part_fault (parts text.now) }
    ensures shorter { length result.now ≤ length text.now }
{
    let mut rest = text;
    while rest.len() >= LANES {
        let run = plain_lanes(rest, 0);
        rest = &rest[run..];
        if run < LANES {
            return rest;
        }
    }
    rest
}

// The fault of `=` and two bytes after it, where they have one.
#[inline(always)]
fn escape_fault(high: u8, low: u8) -> Option<QuotedPrintableError>
    ensures { result ≡ part_fault (escape high low) }
{
    if !are_digits(high, low) {
        return Some(QuotedPrintableError::InvalidHexOctet);
    }
    if has_lowercase(high, low) {
        return Some(QuotedPrintableError::LowercaseHexOctet);
    }
    None
}

// Whether both bytes are hexadecimal digits.
#[inline(always)]
fn are_digits(high: u8, low: u8) -> bool
    ensures { result ≡ (is_digit high 16 && is_digit low 16) }
{
    is_hex(high) && is_hex(low)
}

// Whether one of two digits is a lowercase letter.
#[inline(always)]
fn has_lowercase(high: u8, low: u8) -> bool
    ensures { result ≡ (is_lowercase_digit high || is_lowercase_digit low) }
{
    matches!(high, b'a'..=b'f') || matches!(low, b'a'..=b'f')
}

// `line` without the tabs, spaces and CRs at its end.
#[inline(always)]
fn trim_end(line: &[u8]) -> &[u8]
    ensures { result.now ≡ trimmed line.now }
{
    let mut rest = line;
    while let Some((last, front)) = rest.split_last() {
        if !is_line_padding(*last) {
            break;
        }
        rest = front;
    }
    rest
}

// Whether a line loses this byte at its end.
#[inline(always)]
fn is_line_padding(byte: u8) -> bool
    ensures { result ≡ is_line_padding byte }
{
    matches!(byte, b'\t' | b'\r' | b' ')
}
