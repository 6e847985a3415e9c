//! Plain, slow readers of quoted-printable text, which take the definitions one after another.

use crate::QuotedPrintableError;
use std::alloc::{AllocError, Global};

// The bytes that `input` stands for: those that may stand there, cut at each LF, line by line.
pub fn slow_value(alloc: Global, input: &[u8]) -> Result<Vec<u8>, AllocError> {
    let mut value = Vec::new(alloc);
    let mut line = Vec::new(alloc);
    for byte in input {
        match *byte {
            b'\n' => {
                if !push_slow_line(&mut value, &line)? {
                    value.extend_from_slice(b"\r\n")?;
                }
                line = Vec::new(alloc);
            }
            b'\t' | b'\r' | b' '..=b'~' => line.push(*byte)?,
            _ => {}
        }
    }
    push_slow_line(&mut value, &line)?;
    Ok(value)
}

// A line without the tabs, spaces and CRs at its end.
fn slow_trim(line: &[u8]) -> &[u8] {
    let mut end = 0usize;
    for (i, byte) in line.iter().enumerate() {
        if !matches!(*byte, b'\t' | b'\r' | b' ') {
            end = i.saturating_add(1);
        }
    }
    &line[..end.min(line.len())]
}

// Appends what a line stands for, and says whether it ends in a soft line break.
fn push_slow_line(value: &mut Vec<u8>, line: &[u8]) -> Result<bool, AllocError> {
    let text = slow_trim(line);
    let mut soft = false;
    let mut skip = 0usize;
    for (i, byte) in text.iter().enumerate() {
        if skip > 0 {
            skip = skip.saturating_sub(1);
            continue;
        }
        let high = text.get(i.saturating_add(1)).copied();
        let low = text.get(i.saturating_add(2)).copied();
        match (*byte, high, low) {
            (b'=', None, _) => soft = true,
            (b'=', Some(high), None) => {
                value.extend_from_slice(&[b'=', high])?;
                skip = 1;
            }
            (b'=', Some(high), Some(low)) => {
                match (char::from(high).to_digit(16), char::from(low).to_digit(16)) {
                    (Some(tens), Some(ones)) => value.push((tens * 16 + ones) as u8)?,
                    _ => value.extend_from_slice(&[b'=', high, low])?,
                }
                skip = 2;
            }
            (byte, _, _) => value.push(byte)?,
        }
    }
    Ok(soft)
}

// Whether a byte may not stand in quoted-printable text, or a CR or LF stands alone.
fn has_wrong_byte(input: &[u8]) -> bool {
    let mut before = 0;
    for (i, byte) in input.iter().enumerate() {
        let wrong = match *byte {
            b'\r' => input.get(i.saturating_add(1)).copied() != Some(b'\n'),
            b'\n' => before != b'\r',
            b'\t' | b' '..=b'~' => false,
            _ => true,
        };
        if wrong {
            return true;
        }
        before = *byte;
    }
    false
}

// The first fault of a line, or whether it ends in a soft line break.
fn slow_line_fault(line: &[u8], limit: usize) -> Result<bool, QuotedPrintableError> {
    let text = slow_trim(line);
    if text.len() > limit {
        return Err(QuotedPrintableError::LineTooLong);
    }
    let mut skip = 0usize;
    for (i, byte) in text.iter().enumerate() {
        if skip > 0 || *byte != b'=' {
            skip = skip.saturating_sub(1);
            continue;
        }
        let high = text.get(i.saturating_add(1)).copied();
        let low = text.get(i.saturating_add(2)).copied();
        match (high, low) {
            (None, _) => return Ok(true),
            (Some(_), None) => return Err(QuotedPrintableError::IncompleteHexOctet),
            (Some(b'0'..=b'9' | b'A'..=b'F'), Some(b'0'..=b'9' | b'A'..=b'F')) => skip = 2,
            (
                Some(b'0'..=b'9' | b'A'..=b'F' | b'a'..=b'f'),
                Some(b'0'..=b'9' | b'A'..=b'F' | b'a'..=b'f'),
            ) => return Err(QuotedPrintableError::LowercaseHexOctet),
            _ => return Err(QuotedPrintableError::InvalidHexOctet),
        }
    }
    Ok(false)
}

// The first fault of `input`, where it has one.
pub fn slow_fault(
    alloc: Global,
    input: &[u8],
    limit: usize,
) -> Result<Option<QuotedPrintableError>, AllocError> {
    if has_wrong_byte(input) {
        return Ok(Some(QuotedPrintableError::InvalidByte));
    }
    let mut line = Vec::new(alloc);
    let mut hard = false;
    let mut soft = false;
    for (i, byte) in input.iter().enumerate() {
        let last = i.saturating_add(1) == input.len();
        if *byte != b'\n' {
            line.push(*byte)?;
        }
        if *byte == b'\n' || last {
            match slow_line_fault(&line, limit) {
                Ok(line_is_soft) => {
                    hard |= !line_is_soft;
                    soft = line_is_soft;
                }
                Err(fault) => return Ok(Some(fault)),
            }
            line = Vec::new(alloc);
        }
    }
    if soft && hard {
        return Ok(Some(QuotedPrintableError::IncompleteHexOctet));
    }
    Ok(None)
}
