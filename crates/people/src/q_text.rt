//! The octets of Q texts (RFC 2047, section 4.2).
ghost use Rattle.std.specs.Prelude.{◌≡◌, ◌<◌, ◌≤◌, ◌∷◌, ◌++◌, length, drop, OnOk, IfSome, IfNone};
ghost use Rattle.people.specs.QText.{q_octets, two_digits, hex_value};

use memchr::memchr2;
use std::alloc::AllocError;

const ESCAPE: u8 = b'=';

const UNDERSCORE: u8 = b'_';

// The number that a hexadecimal digit of either case says.
fn hex_value(byte: u8) -> Option<u8>
    ensures value { result ≡ hex_value byte }
    ensures below { IfSome result (λ n. n < 16) }
{
    match char::from(byte).to_digit(16) {
        Some(number) => Some(number as u8),
        None => None,
    }
}

// The octet of two hexadecimal digits at the front, high digit first.
fn two_digits(bytes: &[u8]) -> Option<u8>
    ensures value { result ≡ two_digits bytes.now }
    ensures within { IfSome result (λ _. 2 ≤ length bytes.now) }
{
    if bytes.len() < 2 {
        return None;
    }
    let high = hex_value(bytes[0])?;
    let low = hex_value(bytes[1])?;
    Some(high * 16 + low)
}

// The octet that a byte and what is behind it begin in, and how many bytes of those behind spell it.
fn octet_at(byte: u8, behind: &[u8]) -> (u8, usize)
    ensures octet { q_octets (byte ∷ behind.now) ≡ result.0 ∷ q_octets (drop result.1 behind.now) }
    ensures within { result.1 ≤ length behind.now }
{
    if byte == UNDERSCORE {
        return (b' ', 0);
    }
    if byte != ESCAPE {
        return (byte, 0);
    }
    match two_digits(behind) {
        Some(octet) => (octet, 2),
        None => (byte, 0),
    }
}

// The octets of a text up to its first `=` or underscore, the octet that this begins, and what
// follows that.
fn split_octet(text: &[u8]) -> Option<(&[u8], u8, &[u8])>
    ensures none { IfNone result (q_octets text.now ≡ text.now) }
    ensures some { IfSome result (λ r. q_octets text.now ≡ r.0.now ++ (r.1 ∷ q_octets r.2.now)) }
    ensures shorter { IfSome result (λ r. length r.2.now < length text.now) }
{
    let end = memchr2(ESCAPE, UNDERSCORE, text)?;
    let behind = &text[end + 1..];
    let (octet, len) = octet_at(text[end], behind);
    Some((&text[..end], octet, &behind[len..]))
}

// Appends the octets of a text.
pub(crate) fn push_q_octets(octets: &mut Vec<u8>, text: &[u8]) -> Result<(), AllocError>
    ensures { OnOk result (octets.new.items ≡ octets.old.items ++ q_octets text.now) }
{
    let mut rest = text;
    while let Some((run, octet, behind)) = split_octet(rest) {
        octets.extend_from_slice(run)?;
        octets.push(octet)?;
        rest = behind;
    }
    octets.extend_from_slice(rest)
}
