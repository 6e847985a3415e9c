//! Texts that are headers as they are.
ghost use Rattle.std.specs.Prelude.{◌≡◌};
ghost use Rattle.std.specs.List.{list_all};
ghost use Rattle.word_writer.specs.Plain.{is_printable, has_word_start, is_plain};

use crate::limits::MAX_LINE_LEN;

// A printable character of ASCII, or a space.
fn is_printable(byte: u8) -> bool
    ensures { result ≡ is_printable byte }
{
    matches!(byte, b' '..=b'~')
}

fn are_printable(bytes: &[u8]) -> bool
    ensures { result ≡ list_all is_printable bytes.now }
{
    let mut all = true;
    for byte in bytes {
        all &= is_printable(*byte);
    }
    all
}

// Whether `=?`, with which each encoded word begins, stands anywhere.
fn has_word_start(bytes: &[u8]) -> bool
    ensures { result ≡ has_word_start bytes.now }
{
    let mut rest = bytes;
    while let Some((_, more)) = rest.split_first() {
        if rest.starts_with(b"=?") {
            return true;
        }
        rest = more;
    }
    false
}

// Whether a text is written as it is: it is printable, has room on one line and nothing in it may
// be read as the start of an encoded word.
pub fn is_plain(text: &str) -> bool
    ensures { result ≡ is_plain text.now }
{
    let bytes = text.as_bytes();
    bytes.len() <= MAX_LINE_LEN && are_printable(bytes) && !has_word_start(bytes)
}
