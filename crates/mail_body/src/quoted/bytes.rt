//! Bytes of quoted-printable text (RFC 2045, section 6.7), and where they are written.

ghost use Rattle.std.specs.Prelude.{◌≡◌, ◌+◌, ◌≤◌, [], ◌∷◌, ◌++◌, length, take, MatchOption};
ghost use Rattle.qp.specs.Line.{escape_value};
ghost use Rattle.qp.specs.Text.{is_text_octet, is_line_padding};

use crate::writing::put;

// Whether a byte may stand in quoted-printable text.
pub fn is_text(byte: u8) -> bool
    ensures { result ≡ is_text_octet byte }
{
    matches!(byte, b'\t' | b'\n' | b'\r' | b' '..=b'~')
}

// Whether a line loses this byte at its end.
pub fn is_blank(byte: u8) -> bool
    ensures { result ≡ is_line_padding byte }
{
    matches!(byte, b'\t' | b'\r' | b' ')
}

// The octet that two hexadecimal digits say.
pub fn octet_of(high: u8, low: u8) -> Option<u8>
    ensures { MatchOption result (escape_value high low ≡ 61 ∷ high ∷ low ∷ [])
        (λ octet. escape_value high low ≡ octet ∷ []) }
{
    let tens = char::from(high).to_digit(16)?;
    let ones = char::from(low).to_digit(16)?;
    Some((tens * 16 + ones) as u8)
}

// Writes what `=` and two bytes stand for.
pub fn put_escape(high: u8, low: u8, out: &mut [u8], at: usize) -> usize
    requires { at + 3 ≤ length out.old }
    ensures written { take result out.new ≡ take at out.old ++ escape_value high low }
    ensures end { result ≤ at + 3 }
    ensures len { length out.new ≡ length out.old }
{
    match octet_of(high, low) {
        Some(octet) => put(out, at, &[octet]),
        None => put(out, at, &[b'=', high, low]),
    }
}
