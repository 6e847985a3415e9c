//! The values of B texts (RFC 2047, section 4.1; RFC 2045, section 6.8).
ghost use Rattle.std.specs.Prelude.{◌≡◌, ◌<◌, ◌^◌, IfOk, IsTrue};
ghost use Rattle.std.specs.List.{list_all};
ghost use Rattle.std.specs.Option.{option_map};
ghost use Rattle.words.specs.Base64.{b_value, is_base64, is_letter, letter_value, padding_len};
ghost use Rattle.words.specs.SpareBits.{cleared, rounded_letter};

use base64::DecodeAllocError;
use base64::engine::general_purpose::STANDARD;
use std::alloc::{AllocError, Global};

// The letters by their six-bit values.
const LETTERS: &str = "ABCDEFGHIJKLMNOPQRSTUVWXYZabcdefghijklmnopqrstuvwxyz0123456789+/";

const PAD: u8 = b'=';

const GROUP_LEN: usize = 4;

// The most `=` that a text may end in.
const MAX_PADDING: usize = 2;

fn is_letter(byte: u8) -> bool
    ensures { result ≡ is_letter byte }
{
    matches!(byte, b'A'..=b'Z' | b'a'..=b'z' | b'0'..=b'9' | b'+' | b'/')
}

// The six-bit value of a letter.
fn letter_value(letter: u8) -> u8
    requires { IsTrue (is_letter letter) }
    ensures value { result ≡ letter_value letter }
    ensures six_bits { result < 64 }
{
    match letter {
        b'A'..=b'Z' => letter - b'A',
        b'a'..=b'z' => letter - b'a' + 26,
        b'0'..=b'9' => letter - b'0' + 52,
        b'+' => 62,
        _ => 63,
    }
}

// How many `=` a text ends in.
fn padding_len(text: &[u8]) -> usize
    ensures { result ≡ padding_len text.now }
{
    text.iter().rev().take_while(|byte| **byte == PAD).count()
}

// Each byte is looked at, whatever those before it are: so the loop goes by lanes.
fn are_letters(bytes: &[u8]) -> bool
    ensures { result ≡ list_all is_letter bytes.now }
{
    let mut all = true;
    for byte in bytes {
        all &= is_letter(*byte);
    }
    all
}

// Whether a text is in fours of letters, with at most two `=` in place of its last letters.
fn is_base64(text: &[u8]) -> bool
    ensures { result ≡ is_base64 text.now }
{
    let padding = padding_len(text);
    text.len() % GROUP_LEN == 0
        && padding <= MAX_PADDING
        && are_letters(&text[..text.len() - padding])
}

// A letter without the spare bits of its value, of which there are two for each `=` after it.
fn rounded_letter(letter: u8, padding: usize) -> u8
    requires letter { IsTrue (is_letter letter) }
    requires padding { padding < 3 }
    ensures { result ≡ rounded_letter (4 ^ padding) letter }
{
    let unit = match padding {
        0 => 1,
        1 => 4,
        _ => 16,
    };
    let rounded = letter_value(letter) / unit * unit;
    LETTERS.as_bytes()[rounded as usize]
}

// Clears the spare bits of a text's last letter.
fn clear_spare_bits(text: &mut [u8])
    requires { IsTrue (is_base64 text.old) }
    ensures { text.new ≡ cleared text.old }
{
    let padding = padding_len(text);
    if text.len() > padding {
        let last = text.len() - padding - 1;
        text[last] = rounded_letter(text[last], padding);
    }
}

/// The octets that a B text stands for. There are none where the text isn't in fours of letters,
/// the last of which may have one or two `=` in place of its last letters. Spare bits of the
/// last letter are dropped.
///
/// It fails only for want of memory. `spare` is free to change.
pub fn decode(
    alloc: Global,
    text: &[u8],
    spare: &mut Vec<u8>,
) -> Result<Option<Vec<u8>>, AllocError>
    ensures value { IfOk result (λ found. option_map (λ v. v.items) found ≡ b_value text.now) }
{
    if !is_base64(text) {
        return Ok(None);
    }
    spare.clear();
    spare.extend_from_slice(text)?;
    clear_spare_bits(spare);
    match STANDARD.decode(alloc, spare) {
        Ok(value) => Ok(Some(value)),
        Err(DecodeAllocError::DecodeError(_)) => unreachable!(),
        Err(DecodeAllocError::OutOfMemory) => Err(AllocError),
    }
}

#[cfg(test)]
mod tests;
